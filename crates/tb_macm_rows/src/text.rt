//! Instructions and words, read from the text of rows.

use std::alloc::AllocFailed;
use std::str::SplitWhitespace;
use tb_mac::{Instr, Word};

/// The specials, in the order of their numbers.
const SPECIALS: &str = "#f #t () unspecified undefined eof";

/// The primitives, in the order of their numbers.
const PRIMITIVES: &str =
    "cons car cdr set-car! set-cdr! pair? null? not boolean? symbol? char? string? vector? \
    procedure? integer? eof-object? eq? + - * quotient remainder modulo = < > <= >= char->integer integer->char \
    %make-vector vector-ref vector-set! vector-length %make-string string-ref string-set! string-length \
    %symbol-length %symbol-ref read-char peek-char write-char %unspecified";

/// Where a name stands in a list of names.
pub fn position(names: &str, name: &str) -> Option<u32> {
    let mut number = 0u32;
    for other in names.split_whitespace() {
        if other == name {
            return Some(number);
        }
        number = number.wrapping_add(1);
    }
    None
}

/// The number of a primitive.
pub fn primitive(name: &str) -> Option<u32> {
    position(PRIMITIVES, name)
}

/// The next number.
pub fn number(words: &mut SplitWhitespace<'_>) -> Option<u32> {
    words.next()?.parse::<u32>().ok()
}

/// The next number, which fits a byte.
pub fn byte(words: &mut SplitWhitespace<'_>) -> Option<u8> {
    words.next()?.parse::<u8>().ok()
}

/// The next four bytes.
fn raw(words: &mut SplitWhitespace<'_>) -> Option<Word> {
    Some(Word::Raw([byte(words)?, byte(words)?, byte(words)?, byte(words)?]))
}

/// The next word.
pub fn word(words: &mut SplitWhitespace<'_>) -> Option<Word> {
    word_named(words.next()?, words)
}

/// The word of this name and the next numbers: a fixnum, a special by its name, or one of `char C`, `header KIND LENGTH`,
/// `pair AT`, `vector AT`, `string AT`, `procedure AT`, `code I` and `raw` with four bytes.
fn word_named(name: &str, words: &mut SplitWhitespace<'_>) -> Option<Word> {
    if let Some(special) = position(SPECIALS, name) {
        return Some(Word::Special(u8::try_from(special).ok()?));
    }
    match name {
        "char" => Some(Word::Char(byte(words)?)),
        "header" => Some(Word::Header(byte(words)?, number(words)?)),
        "pair" => Some(Word::Pointer(1, number(words)?)),
        "vector" => Some(Word::Pointer(3, number(words)?)),
        "string" => Some(Word::Pointer(5, number(words)?)),
        "procedure" => Some(Word::Pointer(7, number(words)?)),
        "code" => Some(Word::Code(number(words)?)),
        "raw" => raw(words),
        _ => Some(Word::Fix(name.parse::<i32>().ok()?)),
    }
}

/// The 32 bits of a fixnum, a special or a character.
fn bits(word: Word) -> Option<u32> {
    match word {
        Word::Fix(value) => Some(u32::from_be_bytes(value.checked_mul(4)?.to_be_bytes())),
        Word::Special(number) => Some(u32::from(number) * 256 + 2),
        Word::Char(code) => Some(u32::from(code) * 256 + 10),
        _ => None,
    }
}

/// An instruction: its name and its fields. `set a W` is the `imm` of the word W.
fn instruction(text: &str) -> Option<Instr> {
    let mut words = text.split_whitespace();
    let name = words.next()?;
    let w = &mut words;
    Some(match name {
        "proc" => Instr::Proc(number(w)?),
        "args" => Instr::Args(byte(w)?),
        "argsge" => Instr::ArgsGe(byte(w)?),
        "save" => Instr::Save(number(w)?),
        "setrtn" => Instr::SetRtn(number(w)?),
        "load" => Instr::Load(byte(w)?, number(w)?),
        "store" => Instr::Store(byte(w)?, number(w)?),
        "pop" => Instr::Pop(number(w)?),
        "return" => Instr::Return,
        "invoke" => Instr::Invoke(byte(w)?),
        "jump" => Instr::Jump(number(w)?),
        "brf" => Instr::Brf(byte(w)?, number(w)?),
        "imm" => Instr::Imm(byte(w)?, number(w)?),
        "set" => Instr::Imm(byte(w)?, bits(word(w)?)?),
        "stat" => Instr::Stat(byte(w)?, byte(w)?, number(w)?),
        "move" => Instr::Move(byte(w)?, byte(w)?),
        "gget" => Instr::GlobalGet(byte(w)?, number(w)?),
        "gset" => Instr::GlobalSet(byte(w)?, number(w)?),
        "gdef" => Instr::GlobalDef(byte(w)?, number(w)?),
        "cell" => Instr::Cell(byte(w)?, byte(w)?),
        "cellget" => Instr::CellGet(byte(w)?, byte(w)?),
        "cellset" => Instr::CellSet(byte(w)?, byte(w)?),
        "clo" => Instr::Clo(byte(w)?, w.next()?.parse::<u16>().ok()?, number(w)?),
        "capt" => Instr::Capt(byte(w)?, byte(w)?, number(w)?),
        "captset" => Instr::CaptSet(byte(w)?, byte(w)?, number(w)?),
        "apply" => Instr::Apply,
        "end" => Instr::End,
        "op0" => Instr::Op0(byte(w)?, primitive(w.next()?)?),
        "op1" => Instr::Op1(byte(w)?, byte(w)?, primitive(w.next()?)?),
        "op2" => Instr::Op2(byte(w)?, byte(w)?, byte(w)?, primitive(w.next()?)?),
        "op3" => Instr::Op3(byte(w)?, byte(w)?, byte(w)?, primitive(w.next()?)?),
        _ => return None,
    })
}

/// Instructions that are parted by semicolons go behind others; false where one of them is none.
pub fn instructions(code: &mut Vec<Instr>, text: &str) -> Result<bool, AllocFailed<Instr>> {
    for part in text.split(';') {
        match instruction(part) {
            Some(instr) => code.push(instr)?,
            None if part.trim().is_empty() => {}
            None => return Ok(false),
        }
    }
    Ok(true)
}
