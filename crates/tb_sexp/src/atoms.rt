ghost use Rattle.std.specs.Prelude.{◌≡◌, ◌∷◌, IfOk};
ghost use Rattle.tb_sexp.specs.Bytes as bytes;
ghost use Rattle.tb_sexp.specs.calls.Lexing as lexing;
ghost use Rattle.tb_sexp.specs.calls.Lexing.{Gives, atom_of, based_of, character_of, hashed_of, name_of, named_of, truth_of};
ghost use Rattle.tb_sexp.specs.Numbers.{base_of};

use super::numbers::number;
use super::scan::is_identifier;
use super::token::{Fault, Token, TokenRefusal};
use std::alloc::Global;
use tb_prim::{Bytes, NoMemory};

/// The most bytes of an identifier.
const NAME_BYTES: usize = 255;

/// The bytes with letters folded to lower case.
fn folded(alloc: Global, run: &[u8]) -> Result<Bytes, NoMemory>
    ensures { IfOk result (λ text. text ≡ bytes.folded run.now) }
{
    let lower: Vec<u8> = run.iter().map(|b| b.to_ascii_lowercase()).collect(alloc)?;
    Bytes::new(alloc, lower.as_slice())
}

fn name(alloc: Global, run: &[u8]) -> Result<Token, TokenRefusal>
    ensures { Gives result (name_of run.now) }
{
    if run.len() > NAME_BYTES {
        return Err(TokenRefusal::Fault(Fault::LongName));
    }
    Ok(Token::Name(folded(alloc, run)?))
}

fn decimal(run: &[u8]) -> Result<Token, TokenRefusal>
    ensures { Gives result (lexing.number_of 10 run.now) }
{
    match number(10, run) {
        Ok(token) => Ok(token),
        Err(fault) => Err(TokenRefusal::Fault(fault)),
    }
}

/// The token that bytes without delimiters are.
pub fn atom(alloc: Global, run: &[u8]) -> Result<Token, TokenRefusal>
    ensures { Gives result (atom_of run.now) }
{
    if run == b".".as_slice() {
        Ok(Token::Dot)
    } else if is_identifier(run) {
        name(alloc, run)
    } else {
        decimal(run)
    }
}

/// The number whose base is given by the letter before it.
fn based(letter: u8, run: &[u8]) -> Result<Token, Fault>
    ensures { result ≡ based_of (base_of letter) run.now }
{
    match letter {
        b'b' => number(2, run),
        b'o' => number(8, run),
        b'd' => number(10, run),
        b'x' => number(16, run),
        _ => Err(Fault::Syntax),
    }
}

/// A truth value, behind which nothing may stand.
fn truth(value: bool, rest: &[u8]) -> Result<Token, Fault>
    ensures { result ≡ truth_of value rest.now }
{
    match rest {
        [] => Ok(Token::Bool(value)),
        _ => Err(Fault::Syntax),
    }
}

fn lettered(letter: u8, rest: &[u8]) -> Result<Token, Fault>
    ensures { result ≡ hashed_of (letter ∷ rest.now) }
{
    let lower = letter.to_ascii_lowercase();
    if lower == b't' {
        truth(true, rest)
    } else if lower == b'f' {
        truth(false, rest)
    } else {
        based(lower, rest)
    }
}

/// The token that `#` and the bytes up to a delimiter are.
pub fn hashed(run: &[u8]) -> Result<Token, Fault>
    ensures { result ≡ hashed_of run.now }
{
    match run {
        [] => Err(Fault::Syntax),
        [letter, rest @ ..] => lettered(*letter, rest),
    }
}

/// Whether the bytes are this word, letters in either case.
fn is_folded(run: &[u8], word: &[u8]) -> bool
    ensures { result ≡ lexing.is_folded run.now word.now }
{
    run.eq_ignore_ascii_case(word)
}

fn named(run: &[u8]) -> Result<Token, Fault>
    ensures { result ≡ named_of run.now }
{
    if is_folded(run, b"space") {
        Ok(Token::Char(b' '))
    } else if is_folded(run, b"newline") {
        Ok(Token::Char(b'\n'))
    } else {
        Err(Fault::Syntax)
    }
}

/// The character that the bytes behind `#\` stand for: one byte, or one of two names.
pub fn character(run: &[u8]) -> Result<Token, Fault>
    ensures { result ≡ character_of run.now }
{
    match run {
        [] => Err(Fault::Syntax),
        [b] => Ok(Token::Char(*b)),
        _ => named(run),
    }
}
