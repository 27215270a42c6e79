//! Fixnums, specials and characters, and the 32 bits that stand for them.

ghost use Rattle.std.specs.Prelude.{◌≡◌};
ghost use Rattle.tb_mac.specs.Words.{fixnum_of, imm_word, imm_bits, IsImmediate};

use super::Word;

fn fixnum(bits: u32) -> i32
    ensures { result ≡ fixnum_of bits }
{
    if bits < 0x8000_0000 {
        (bits / 4) as i32
    } else {
        -(((0xffff_ffff - bits + 1) / 4) as i32)
    }
}

/// The word that these 32 bits stand for, where they are those of a fixnum, a special or a character.
pub fn immediate_word(bits: u32) -> Option<Word>
    ensures { result ≡ imm_word bits }
{
    if bits % 4 == 0 {
        Some(Word::Fix(fixnum(bits)))
    } else if bits % 256 == 10 {
        if bits / 256 < 256 {
            Some(Word::Char((bits / 256) as u8))
        } else {
            None
        }
    } else if bits % 256 == 2 {
        if bits / 256 < 6 {
            Some(Word::Special((bits / 256) as u8))
        } else {
            None
        }
    } else {
        None
    }
}

fn fixnum_bits(value: i32) -> u32
    requires { IsImmediate (Word.Fix value) }
    ensures { result ≡ imm_bits (Word.Fix value) }
{
    if value >= 0 {
        value as u32 * 4
    } else {
        u32::MAX - (-(value + 1)) as u32 * 4 - 3
    }
}

/// The 32 bits of a fixnum, a special or a character.
pub fn immediate_bits(word: Word) -> u32
    requires { IsImmediate word }
    ensures bits { result ≡ imm_bits word }
    ensures read { imm_word result ≡ Some word }
{
    match word {
        Word::Fix(value) => fixnum_bits(value),
        Word::Special(number) => u32::from(number) * 256 + 2,
        Word::Char(c) => u32::from(c) * 256 + 10,
        _ => unreachable!(),
    }
}
