ghost use Rattle.std.specs.Prelude.{◌≡◌};
ghost use Rattle.tb_prim.specs.Primitives as table;
ghost use Rattle.tb_prim.specs.Primitives.{arity_of};

/// The primitive procedures, in the order of their numbers from 0.
#[derive(Clone, Copy, Debug, PartialEq, Eq)]
pub enum Primitive {
    Cons,
    Car,
    Cdr,
    SetCar,
    SetCdr,
    IsPair,
    IsNull,
    Not,
    IsBoolean,
    IsSymbol,
    IsChar,
    IsString,
    IsVector,
    IsProcedure,
    IsInteger,
    IsEof,
    Eq,
    Add,
    Sub,
    Mul,
    Quotient,
    Remainder,
    Modulo,
    NumEq,
    Less,
    Greater,
    LessEq,
    GreaterEq,
    CharToInt,
    IntToChar,
    MakeVector,
    VectorRef,
    VectorSet,
    VectorLength,
    MakeString,
    StringRef,
    StringSet,
    StringLength,
    SymbolLength,
    SymbolRef,
    ReadChar,
    PeekChar,
    WriteChar,
    Unspecified,
}

/// How many operands the primitive takes, 0 to 3.
pub fn arity(prim: Primitive) -> u8
    ensures { result ≡ arity_of prim }
{
    match prim {
        Primitive::ReadChar | Primitive::PeekChar | Primitive::Unspecified => 0,
        Primitive::Car
        | Primitive::Cdr
        | Primitive::IsPair
        | Primitive::IsNull
        | Primitive::Not
        | Primitive::IsBoolean
        | Primitive::IsSymbol
        | Primitive::IsChar
        | Primitive::IsString
        | Primitive::IsVector
        | Primitive::IsProcedure
        | Primitive::IsInteger
        | Primitive::IsEof
        | Primitive::CharToInt
        | Primitive::IntToChar
        | Primitive::MakeVector
        | Primitive::VectorLength
        | Primitive::MakeString
        | Primitive::StringLength
        | Primitive::SymbolLength
        | Primitive::WriteChar => 1,
        Primitive::Cons
        | Primitive::SetCar
        | Primitive::SetCdr
        | Primitive::Eq
        | Primitive::Add
        | Primitive::Sub
        | Primitive::Mul
        | Primitive::Quotient
        | Primitive::Remainder
        | Primitive::Modulo
        | Primitive::NumEq
        | Primitive::Less
        | Primitive::Greater
        | Primitive::LessEq
        | Primitive::GreaterEq
        | Primitive::VectorRef
        | Primitive::StringRef
        | Primitive::SymbolRef => 2,
        Primitive::VectorSet | Primitive::StringSet => 3,
    }
}

/// The number of the primitive in code and images, 0 to 43.
pub fn number_of(prim: Primitive) -> u8
    ensures { result ≡ table.number_of prim }
{
    prim as u8
}
