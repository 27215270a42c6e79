ghost use Rattle.std.specs.Prelude.{◌≡◌};
ghost use Rattle.tb_prim.specs.Names as names;
ghost use Rattle.tb_prim.specs.Names.{found_in, or_else, prim_named};

use super::primitive::Primitive;

/// The primitive of a name. A name that begins with `%` is seen by the library alone. Takes no memory.
pub fn prim_of(name: &[u8], library: bool) -> Option<Primitive>
    ensures { result ≡ prim_named name.now library }
{
    let hidden = if library { library_named(name) } else { None };
    let port = first(port_named(name), hidden);
    let text = first(text_named(name), port);
    let number = first(number_named(name), text);
    let test = first(test_named(name), number);
    first(pair_named(name), test)
}

/// The first of the two, where there is one.
fn first(one: Option<Primitive>, other: Option<Primitive>) -> Option<Primitive>
    ensures { result ≡ or_else one other }
{
    match one {
        Some(prim) => Some(prim),
        None => other,
    }
}

fn pair_named(name: &[u8]) -> Option<Primitive>
    ensures { result ≡ found_in names.pair_names name.now }
{
    if name == b"cons".as_slice() {
        Some(Primitive::Cons)
    } else if name == b"car".as_slice() {
        Some(Primitive::Car)
    } else if name == b"cdr".as_slice() {
        Some(Primitive::Cdr)
    } else if name == b"set-car!".as_slice() {
        Some(Primitive::SetCar)
    } else if name == b"set-cdr!".as_slice() {
        Some(Primitive::SetCdr)
    } else {
        None
    }
}

fn test_named(name: &[u8]) -> Option<Primitive>
    ensures { result ≡ found_in names.test_names name.now }
{
    if name == b"pair?".as_slice() {
        Some(Primitive::IsPair)
    } else if name == b"null?".as_slice() {
        Some(Primitive::IsNull)
    } else if name == b"not".as_slice() {
        Some(Primitive::Not)
    } else if name == b"boolean?".as_slice() {
        Some(Primitive::IsBoolean)
    } else if name == b"symbol?".as_slice() {
        Some(Primitive::IsSymbol)
    } else if name == b"char?".as_slice() {
        Some(Primitive::IsChar)
    } else if name == b"string?".as_slice() {
        Some(Primitive::IsString)
    } else if name == b"vector?".as_slice() {
        Some(Primitive::IsVector)
    } else if name == b"procedure?".as_slice() {
        Some(Primitive::IsProcedure)
    } else if name == b"integer?".as_slice() {
        Some(Primitive::IsInteger)
    } else if name == b"number?".as_slice() {
        Some(Primitive::IsInteger)
    } else if name == b"eof-object?".as_slice() {
        Some(Primitive::IsEof)
    } else if name == b"eq?".as_slice() {
        Some(Primitive::Eq)
    } else if name == b"eqv?".as_slice() {
        Some(Primitive::Eq)
    } else {
        None
    }
}

fn number_named(name: &[u8]) -> Option<Primitive>
    ensures { result ≡ found_in names.number_names name.now }
{
    if name == b"+".as_slice() {
        Some(Primitive::Add)
    } else if name == b"-".as_slice() {
        Some(Primitive::Sub)
    } else if name == b"*".as_slice() {
        Some(Primitive::Mul)
    } else if name == b"quotient".as_slice() {
        Some(Primitive::Quotient)
    } else if name == b"remainder".as_slice() {
        Some(Primitive::Remainder)
    } else if name == b"modulo".as_slice() {
        Some(Primitive::Modulo)
    } else if name == b"=".as_slice() {
        Some(Primitive::NumEq)
    } else if name == b"<".as_slice() {
        Some(Primitive::Less)
    } else if name == b">".as_slice() {
        Some(Primitive::Greater)
    } else if name == b"<=".as_slice() {
        Some(Primitive::LessEq)
    } else if name == b">=".as_slice() {
        Some(Primitive::GreaterEq)
    } else {
        None
    }
}

fn text_named(name: &[u8]) -> Option<Primitive>
    ensures { result ≡ found_in names.text_names name.now }
{
    if name == b"char->integer".as_slice() {
        Some(Primitive::CharToInt)
    } else if name == b"integer->char".as_slice() {
        Some(Primitive::IntToChar)
    } else if name == b"vector-ref".as_slice() {
        Some(Primitive::VectorRef)
    } else if name == b"vector-set!".as_slice() {
        Some(Primitive::VectorSet)
    } else if name == b"vector-length".as_slice() {
        Some(Primitive::VectorLength)
    } else if name == b"string-ref".as_slice() {
        Some(Primitive::StringRef)
    } else if name == b"string-set!".as_slice() {
        Some(Primitive::StringSet)
    } else if name == b"string-length".as_slice() {
        Some(Primitive::StringLength)
    } else {
        None
    }
}

fn port_named(name: &[u8]) -> Option<Primitive>
    ensures { result ≡ found_in names.port_names name.now }
{
    if name == b"read-char".as_slice() {
        Some(Primitive::ReadChar)
    } else if name == b"peek-char".as_slice() {
        Some(Primitive::PeekChar)
    } else if name == b"write-char".as_slice() {
        Some(Primitive::WriteChar)
    } else {
        None
    }
}

fn library_named(name: &[u8]) -> Option<Primitive>
    ensures { result ≡ found_in names.library_names name.now }
{
    if name == b"%make-vector".as_slice() {
        Some(Primitive::MakeVector)
    } else if name == b"%make-string".as_slice() {
        Some(Primitive::MakeString)
    } else if name == b"%symbol-length".as_slice() {
        Some(Primitive::SymbolLength)
    } else if name == b"%symbol-ref".as_slice() {
        Some(Primitive::SymbolRef)
    } else if name == b"%unspecified".as_slice() {
        Some(Primitive::Unspecified)
    } else {
        None
    }
}
