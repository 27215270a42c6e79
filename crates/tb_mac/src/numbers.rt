//! The primitives by their numbers.

ghost use Rattle.std.specs.Prelude.{◌≡◌, slice_get};
ghost use Rattle.tb_prim.specs.Primitives.{primitive_at};

use tb_prim::Prim;

static PRIMITIVES: [Prim; 44] = [
    Prim::Cons,
    Prim::Car,
    Prim::Cdr,
    Prim::SetCar,
    Prim::SetCdr,
    Prim::IsPair,
    Prim::IsNull,
    Prim::Not,
    Prim::IsBoolean,
    Prim::IsSymbol,
    Prim::IsChar,
    Prim::IsString,
    Prim::IsVector,
    Prim::IsProcedure,
    Prim::IsInteger,
    Prim::IsEof,
    Prim::Eq,
    Prim::Add,
    Prim::Sub,
    Prim::Mul,
    Prim::Quotient,
    Prim::Remainder,
    Prim::Modulo,
    Prim::NumEq,
    Prim::Less,
    Prim::Greater,
    Prim::LessEq,
    Prim::GreaterEq,
    Prim::CharToInt,
    Prim::IntToChar,
    Prim::MakeVector,
    Prim::VectorRef,
    Prim::VectorSet,
    Prim::VectorLength,
    Prim::MakeString,
    Prim::StringRef,
    Prim::StringSet,
    Prim::StringLength,
    Prim::SymbolLength,
    Prim::SymbolRef,
    Prim::ReadChar,
    Prim::PeekChar,
    Prim::WriteChar,
    Prim::Unspecified,
];

fn item_at(primitives: &[Prim], number: u32) -> Option<Prim>
    ensures { result ≡ slice_get primitives.now number }
{
    primitives.get(number as usize).copied()
}

/// The primitive with this number; none from 44 on.
pub fn primitive_at(number: u32) -> Option<Prim>
    ensures { result ≡ primitive_at number }
{
    item_at(&PRIMITIVES, number)
}
