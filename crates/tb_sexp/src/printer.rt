ghost use Rattle.std.specs.Prelude.{◌≡◌, ◌++◌, Bool, [], ◌∷◌, map, IfOk, OnOk, codes};
ghost use Rattle.std.specs.Fmt.{signed_decimal};
ghost use Rattle.tb_sexp.specs.Printing.{printed, printed_all, printed_byte, printed_bytes, printed_character, printed_truth};
ghost use Rattle.tb_sexp.specs.ReadData.{IsRead, ReadsBack};
ghost use Rattle.tb_sexp.specs.View.{trees, view};

use super::{Datum, Node};
use itoa::Buffer;
use std::alloc::Global;
use tb_prim::{Bytes, NoMemory};

/// The one printed text of the datum: one space between elements, no abbreviations, numbers in decimal. An alias
/// is printed by its text alone. The text of a datum that was read spells that datum, apart from places.
pub fn print_datum(alloc: Global, datum: &Datum) -> Result<Bytes, NoMemory>
    ensures exact { IfOk result (λ text. text ≡ printed (view datum.now)) }
    ensures reads_back { IfOk result (λ text. (library : Bool) → IsRead 256 (view datum.now) → ReadsBack library text (view datum.now)) }
{
    let mut out = Vec::new(alloc);
    put_datum(&mut out, datum)?;
    Bytes::new(alloc, out.as_slice())
}

fn put(out: &mut Vec<u8>, bytes: &[u8]) -> Result<(), NoMemory>
    ensures { OnOk result (out.new.items ≡ out.old.items ++ bytes.now) }
{
    out.extend_from_slice(bytes)?;
    Ok(())
}

fn put_integer(out: &mut Vec<u8>, n: i32) -> Result<(), NoMemory>
    ensures { OnOk result (out.new.items ≡ out.old.items ++ signed_decimal n) }
{
    put(out, Buffer::new().format(n).as_bytes())
}

fn put_character(out: &mut Vec<u8>, c: u8) -> Result<(), NoMemory>
    ensures { OnOk result (out.new.items ≡ out.old.items ++ printed_character c) }
{
    match c {
        b' ' => put(out, b"#\\space"),
        b'\n' => put(out, b"#\\newline"),
        _ => put(out, &[b'#', b'\\', c]),
    }
}

fn put_byte(out: &mut Vec<u8>, b: u8) -> Result<(), NoMemory>
    ensures { OnOk result (out.new.items ≡ out.old.items ++ printed_byte b) }
{
    if b == b'"' || b == b'\\' {
        put(out, &[b'\\', b])
    } else {
        put(out, &[b])
    }
}

fn put_bytes(out: &mut Vec<u8>, bytes: &[u8]) -> Result<(), NoMemory>
    ensures { OnOk result (out.new.items ≡ out.old.items ++ printed_bytes bytes.now) }
{
    for b in bytes {
        put_byte(out, *b)?;
    }
    Ok(())
}

/// The text of a datum. The recursion is as deep as the datum nests.
#[cycle(print)]
fn put_datum(out: &mut Vec<u8>, datum: &Datum) -> Result<(), NoMemory>
    ensures { OnOk result (out.new.items ≡ out.old.items ++ printed (view datum.now)) }
{
    match &datum.node {
        Node::Nil => put(out, b"()"),
        Node::Bool(true) => put(out, b"#t"),
        Node::Bool(false) => put(out, b"#f"),
        Node::Fix(n) => put_integer(out, *n),
        Node::Char(c) => put_character(out, *c),
        Node::Str(text) => {
            put(out, b"\"")?;
            put_bytes(out, text.as_slice())?;
            put(out, b"\"")
        }
        Node::Name(text, _) => put(out, text.as_slice()),
        Node::List(elements, None) => {
            put(out, b"(")?;
            put_data(out, elements.as_slice())?;
            put(out, b")")
        }
        Node::List(elements, Some(tail)) => {
            put(out, b"(")?;
            put_data(out, elements.as_slice())?;
            put(out, b" . ")?;
            put_datum(out, tail.get())?;
            put(out, b")")
        }
        Node::Vector(elements) => {
            put(out, b"#(")?;
            put_data(out, elements.as_slice())?;
            put(out, b")")
        }
    }
}

/// The texts of the elements, with one space between them.
#[cycle(print)]
fn put_data(out: &mut Vec<u8>, elements: &[Datum]) -> Result<(), NoMemory>
    ensures { OnOk result (out.new.items ≡ out.old.items ++ printed_all [] (trees (map view elements.now))) }
{
    let mut lead: &[u8] = b"";
    for datum in elements {
        put(out, lead)?;
        put_datum(out, datum)?;
        lead = b" ";
    }
    Ok(())
}
