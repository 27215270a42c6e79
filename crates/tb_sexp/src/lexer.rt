ghost use Rattle.std.specs.Prelude.{◌≡◌, ◌+◌, ◌^◌, ◌<◌, ◌≤◌, IfOk, length};
ghost use Rattle.tb_sexp.specs.calls.Lexing.{Gives, atom_at, character_at, comma_at, hash_at, sized, token_at};

use super::atoms::{atom, character, hashed};
use super::scan::run_length;
use super::strings::string;
use super::token::{Fault, Mark, Token, TokenRefusal};
use std::alloc::Global;

/// The token with the number of its bytes.
fn with_size(token: Result<Token, Fault>, size: usize) -> Result<(Token, usize), TokenRefusal>
    ensures exact { Gives result (sized token size) }
    ensures size { IfOk result (λ read. read.1 ≡ size) }
{
    match token {
        Ok(token) => Ok((token, size)),
        Err(fault) => Err(TokenRefusal::Fault(fault)),
    }
}

fn read_character(text: &[u8]) -> Result<(Token, usize), TokenRefusal>
    requires { length text.now < 2 ^ 32 }
    ensures exact { Gives result (character_at text.now) }
    ensures within { IfOk result (λ read. (0 < read.1) × (read.1 ≤ length text.now + 2)) }
{
    match text {
        [] => Err(TokenRefusal::Fault(Fault::Syntax)),
        [_, rest @ ..] => {
            let size = run_length(rest);
            with_size(character(&text[..size + 1]), size + 3)
        }
    }
}

fn read_hash(text: &[u8]) -> Result<(Token, usize), TokenRefusal>
    requires { length text.now < 2 ^ 32 }
    ensures exact { Gives result (hash_at text.now) }
    ensures within { IfOk result (λ read. (0 < read.1) × (read.1 ≤ length text.now + 1)) }
{
    match text {
        [] => Err(TokenRefusal::Fault(Fault::Syntax)),
        [b'(', ..] => Ok((Token::OpenVector, 2)),
        [b'\\', rest @ ..] => read_character(rest),
        _ => {
            let size = run_length(text);
            with_size(hashed(&text[..size]), size + 1)
        }
    }
}

fn read_comma(text: &[u8]) -> (Token, usize)
    ensures exact { comma_at text.now ≡ Ok result }
    ensures within { (0 < result.1) × (result.1 ≤ length text.now + 1) }
{
    match text {
        [b'@', ..] => (Token::Mark(Mark::UnquoteSplicing), 2),
        _ => (Token::Mark(Mark::Unquote), 1),
    }
}

fn read_atom(alloc: Global, text: &[u8]) -> Result<(Token, usize), TokenRefusal>
    requires { length text.now < 2 ^ 32 }
    ensures exact { Gives result (atom_at text.now) }
    ensures within { IfOk result (λ read. (0 < read.1) × (read.1 ≤ length text.now)) }
{
    let size = run_length(text);
    if size == 0 {
        return Err(TokenRefusal::Fault(Fault::Syntax));
    }
    match atom(alloc, &text[..size]) {
        Ok(token) => Ok((token, size)),
        Err(refusal) => Err(refusal),
    }
}

/// The token at the front of the text, with the number of its bytes.
pub fn read_token(alloc: Global, text: &[u8]) -> Result<(Token, usize), TokenRefusal>
    requires { length text.now < 2 ^ 32 }
    ensures exact { Gives result (token_at text.now) }
    ensures within { IfOk result (λ read. (0 < read.1) × (read.1 ≤ length text.now)) }
{
    match text {
        [] => Err(TokenRefusal::Fault(Fault::Syntax)),
        [b'(', ..] => Ok((Token::Open, 1)),
        [b')', ..] => Ok((Token::Close, 1)),
        [b'\'', ..] => Ok((Token::Mark(Mark::Quote), 1)),
        [b'`', ..] => Ok((Token::Mark(Mark::Quasiquote), 1)),
        [b',', rest @ ..] => Ok(read_comma(rest)),
        [b'"', rest @ ..] => string(alloc, rest),
        [b'#', rest @ ..] => read_hash(rest),
        _ => read_atom(alloc, text),
    }
}
