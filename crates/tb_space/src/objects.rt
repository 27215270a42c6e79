//! Objects by their first words: how many words they have, and how many of these can hold pointers.

ghost use Rattle.std.specs.Prelude.{◌≡◌, ◌+◌, ◌<◌, ◌≤◌, ◌^◌, Some};
ghost use Rattle.tb_mac.specs.Layout.{static_size};
ghost use Rattle.tb_mac.specs.LiveWords.{object_size, pointing_words};
ghost use Rattle.tb_mac.specs.Objects.{padded_size};

use tb_mac::Word;
use tb_prim::Static;

// The kinds of headers whose objects are not as long as their elements.
const STRING: u8 = 34;

const SYMBOL: u8 = 42;

const PROCEDURE: u8 = 50;

/// So many words and their padding.
pub fn padded_size(n: u64) -> u64
    requires { n < 2 ^ 63 + 9 }
    ensures { result ≡ padded_size n }
{
    n + n % 2
}

/// The words of an object, padding included.
pub fn object_size(first: Word) -> u64
    ensures size { result ≡ object_size (Some first) }
    ensures small { result ≤ 2 ^ 32 + 2 }
{
    match first {
        Word::Header(PROCEDURE, n) => padded_size(u64::from(n) + 2),
        Word::Header(STRING | SYMBOL, n) => padded_size((u64::from(n) + 3) / 4 + 1),
        Word::Header(_, n) => padded_size(u64::from(n) + 1),
        _ => 2,
    }
}

/// How many words of an object, from its first on, can hold pointers.
pub fn pointing_words(first: Word) -> u64
    ensures count { result ≡ pointing_words (Some first) }
    ensures small { result ≤ 2 ^ 32 + 2 }
{
    match first {
        Word::Header(PROCEDURE, n) => u64::from(n) + 2,
        Word::Header(STRING | SYMBOL, _) => 0,
        Word::Header(_, n) => u64::from(n) + 1,
        _ => 2,
    }
}

/// The words of a static object, padding included.
pub fn static_size(object: &Static) -> u64
    ensures { result ≡ static_size object.now }
{
    match object {
        Static::Pair(_, _) => 2,
        Static::Vector(elements) => padded_size(elements.as_slice().len() as u64 + 1),
        Static::Str(bytes) => padded_size((bytes.as_slice().len() as u64 + 3) / 4 + 1),
        Static::Sym(bytes) => padded_size((bytes.as_slice().len() as u64 + 3) / 4 + 1),
    }
}
