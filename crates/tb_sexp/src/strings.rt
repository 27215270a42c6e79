ghost use Rattle.std.specs.Prelude.{◌≡◌, ◌+◌, ◌^◌, ◌<◌, ◌≤◌, IfOk, length};
ghost use Rattle.tb_sexp.specs.calls.Lexing.{Gives, PutsCharacter, string_at};
ghost use Rattle.tb_sexp.specs.Bytes.{escaped_of};

use super::token::{Fault, Token, TokenRefusal};
use std::alloc::Global;
use tb_prim::Bytes;

/// The most characters of a string.
const STRING_CHARACTERS: usize = 65_535;

/// The character that a byte behind a backslash stands for.
fn escaped(b: u8) -> Option<u8>
    ensures { result ≡ escaped_of b }
{
    match b {
        b'"' => Some(b'"'),
        b'\\' => Some(b'\\'),
        b'n' => Some(b'\n'),
        b't' => Some(b'\t'),
        _ => None,
    }
}

/// Puts one more character of a string, if it is not too long then.
fn put_character(characters: &mut Vec<u8>, c: u8) -> Result<(), TokenRefusal>
    ensures { PutsCharacter characters.old.items characters.new.items c result }
{
    if characters.len() < STRING_CHARACTERS {
        characters.push(c)?;
        Ok(())
    } else {
        Err(TokenRefusal::Fault(Fault::LongString))
    }
}

/// The string whose opening quote stands before the text, with the number of its bytes.
pub fn string(alloc: Global, text: &[u8]) -> Result<(Token, usize), TokenRefusal>
    requires { length text.now < 2 ^ 32 }
    ensures exact { Gives result (string_at text.now) }
    ensures within { IfOk result (λ read. (0 < read.1) × (read.1 ≤ length text.now + 1)) }
{
    let mut characters = Vec::new(alloc);
    let mut is_escaped = false;
    for (index, b) in text.iter().enumerate() {
        if is_escaped {
            let Some(c) = escaped(*b) else {
                return Err(TokenRefusal::Fault(Fault::BadEscape(index)));
            };
            put_character(&mut characters, c)?;
            is_escaped = false;
        } else if *b == b'"' {
            let value = Bytes::new(alloc, characters.as_slice())?;
            return Ok((Token::Str(value), index + 2));
        } else if *b == b'\\' {
            is_escaped = true;
        } else {
            put_character(&mut characters, *b)?;
        }
    }
    Err(TokenRefusal::Fault(Fault::OpenString))
}
