//! Each primitive with operands of each kind.

use super::code::{code_of, place_at};
use super::runs::WORDS;
use super::text::{instructions, position, primitive, word};
use std::alloc::Global;
use std::str::SplitWhitespace;
use std::test::Fail;
use tb_base::{MemSink, MemSource};
use tb_mac::{Instr, Word};
use tb_macm::MacMachine;
use tb_prim::{Cause, Stop};

/// The kinds of operands, in the order of the registers that hold one of each.
const KINDS: &str =
    "fixnum #f #t () unspecified undefined eof char pair vector cell string symbol procedure";

/// An operand of each kind, in the registers from 0 to 13.
const OPERANDS: &str =
    "set 0 1; set 1 #f; set 2 #t; set 3 (); set 4 unspecified; set 5 undefined; set 6 eof; \
    set 7 char 97; stat 8 1 0; stat 9 3 3; cell 10 0; stat 11 5 1; stat 12 5 2; clo 13 0 0";

/// The stop and RESULT of this instruction behind the operands.
fn comes_to(alloc: Global, operands: &[Instr], instr: Instr) -> Result<Option<(Stop, Word)>, Fail> {
    let mut row = Vec::from_slice(alloc, operands)?;
    row.push(instr)?;
    row.push(Instr::End)?;
    let Some(code) = code_of(alloc, row.as_slice())? else {
        return Ok(None);
    };
    let mut machine = MacMachine::load(alloc, &code, WORDS)?;
    let mut input = MemSource::new(alloc, b"", &[])?;
    let mut out = MemSink::new(alloc, 1, &[])?;
    let stop = machine.run(100, &mut input, &mut out);
    Ok(Some((stop, machine.register(16))))
}

/// The primitive with this number of operands of these kinds.
fn instr_of(count: usize, kinds: [u8; 3], number: u32) -> Instr {
    let [first, second, third] = kinds;
    match count {
        1 => Instr::Op1(16, first, number),
        2 => Instr::Op2(16, first, second, number),
        _ => Instr::Op3(first, second, third, number),
    }
}

/// A kind is the one that is named, or any is.
fn accepts(name: &str, kind: u8) -> bool {
    name == "any" || position(KINDS, name) == Some(u32::from(kind))
}

/// The truth value that says whether a kind is one of those that are named.
fn truth_of(names: SplitWhitespace<'_>, kind: u8) -> Word {
    for name in names {
        if accepts(name, kind) {
            return Word::Special(1);
        }
    }
    Word::Special(0)
}

/// The value that a row wants: `is` with kinds is true for these kinds of the first operand alone, `same` where the
/// first two operands are of one kind; else it is a word.
fn wanted(text: &str, kinds: [u8; 3]) -> Option<Word> {
    let mut words = text.split_whitespace();
    let mut names = text.split_whitespace();
    match names.next()? {
        "is" => Some(truth_of(names, kinds[0])),
        "same" => Some(Word::Special(u8::from(kinds[0] == kinds[1]))),
        _ => word(&mut words),
    }
}

/// The kinds of operands of the case with this number, from 0 to 2,743.
fn kinds_of(case: u32) -> [u8; 3] {
    [
        (case % 14) as u8,
        (case / 14 % 14) as u8,
        (case / 196 % 14) as u8,
    ]
}

/// Operands of these kinds come to what the row wants: its value where each is accepted, else the failure WrongType.
fn case_holds(
    alloc: Global,
    operands: &[Instr],
    instr: Instr,
    names: &[&str],
    kinds: [u8; 3],
    text: &str,
) -> Result<bool, Fail> {
    let Some((stop, value)) = comes_to(alloc, operands, instr)? else {
        return Ok(false);
    };
    let accepted = names
        .iter()
        .zip(kinds.iter())
        .all(|(name, kind)| accepts(name, *kind));
    if accepted {
        return Ok(stop == Stop::End && Some(value) == wanted(text, kinds));
    }
    Ok(stop == Stop::Fail(Cause::WrongType, place_at(14)))
}

/// A row holds: the name of a primitive, the kinds of operands that it accepts, and behind the arrow its value for them.
fn row_holds(alloc: Global, operands: &[Instr], row: &str) -> Result<bool, Fail> {
    let Some((left, text)) = row.split_once(" -> ") else {
        return Ok(false);
    };
    let mut words = left.split_whitespace();
    let Some(number) = words.next().and_then(|name| primitive(name)) else {
        return Ok(false);
    };
    let names: Vec<&str> = words.collect(alloc)?;
    let cases = match names.len() {
        1 => 14,
        2 => 196,
        _ => 2744,
    };
    for case in 0..cases {
        let kinds = kinds_of(case);
        let instr = instr_of(names.len(), kinds, number);
        if !case_holds(alloc, operands, instr, names.as_slice(), kinds, text)? {
            return Ok(false);
        }
    }
    Ok(true)
}

/// The first row that does not hold.
fn first_wrong<'a>(alloc: Global, rows: &[&'a str]) -> Result<Option<&'a str>, Fail> {
    let mut operands = Vec::new(alloc);
    if !instructions(&mut operands, OPERANDS)? {
        return Ok(Some(OPERANDS));
    }
    for row in rows {
        if !row_holds(alloc, operands.as_slice(), row)? {
            return Ok(Some(*row));
        }
    }
    Ok(None)
}

#[test]
fn operands_of_each_kind(rt: HostRuntime) -> Result<(), Fail> {
    let rows = &[
        "cons any any -> pair 20",
        "car pair -> 1",
        "cdr pair -> 2",
        "set-car! pair any -> unspecified",
        "set-cdr! pair any -> unspecified",
        "pair? any -> is pair",
        "null? any -> is ()",
        "not any -> is #f",
        "boolean? any -> is #f #t",
        "symbol? any -> is symbol",
        "char? any -> is char",
        "string? any -> is string",
        "vector? any -> is vector",
        "procedure? any -> is procedure",
        "integer? any -> is fixnum",
        "eof-object? any -> is eof",
        "eq? any any -> same",
        "+ fixnum fixnum -> 2",
        "- fixnum fixnum -> 0",
        "* fixnum fixnum -> 1",
        "quotient fixnum fixnum -> 1",
        "remainder fixnum fixnum -> 0",
        "modulo fixnum fixnum -> 0",
        "= fixnum fixnum -> #t",
        "< fixnum fixnum -> #f",
        "> fixnum fixnum -> #f",
        "<= fixnum fixnum -> #t",
        ">= fixnum fixnum -> #t",
        "char->integer char -> 97",
        "integer->char fixnum -> char 1",
        "%make-vector fixnum -> vector 20",
        "vector-ref vector fixnum -> pair 4",
        "vector-set! vector fixnum any -> unspecified",
        "vector-length vector -> 3",
        "%make-string fixnum -> string 20",
        "string-ref string fixnum -> char 98",
        "string-set! string fixnum char -> unspecified",
        "string-length string -> 5",
        "%symbol-length symbol -> 3",
        "%symbol-ref symbol fixnum -> char 121",
        "write-char char -> unspecified",
    ];
    assert_eq!(rt; first_wrong(rt.alloc(), rows)?, None);
    Ok(())
}
