//! The words of registers, slots and the heap.

ghost use Rattle.std.specs.Prelude.{◌≡◌};
ghost use Rattle.tb_mac.specs.Words.{is_false, same_word};

/// A word of a register, a slot or the heap. `Special` has a number 0 to 5: false, true, the empty list,
/// unspecified, Undefined, end of input. A header has its kind and length, a pointer its tag and word
/// number, a code place the number of an instruction, and `Raw` four bytes of a string or symbol.
#[derive(Clone, Copy, Debug, PartialEq, Eq)]
pub enum Word {
    Fix(i32),
    Special(u8),
    Char(u8),
    Header(u8, u32),
    Pointer(u8, u32),
    Code(u32),
    Raw([u8; 4]),
}

const _: () = prove!(size_of::<Word>() == 8);

/// Where an object stands that has a header, and its length: elements, bytes or captured words.
#[derive(Clone, Copy, Debug, PartialEq, Eq)]
pub struct Placed {
    pub at: u32,
    pub size: u32,
}

/// The word is false, which alone counts as false (R5RS 6.3.1).
pub fn is_false(word: Word) -> bool
    ensures { result ≡ is_false word }
{
    match word {
        Word::Special(number) => number == 0,
        _ => false,
    }
}

/// The words are the same.
pub fn same_word(first: Word, second: Word) -> bool
    ensures { result ≡ same_word first second }
{
    match (first, second) {
        (Word::Fix(i), Word::Fix(j)) => i == j,
        (Word::Special(i), Word::Special(j)) => i == j,
        (Word::Char(c), Word::Char(d)) => c == d,
        (Word::Header(k, n), Word::Header(l, m)) => k == l && n == m,
        (Word::Pointer(s, a), Word::Pointer(t, b)) => s == t && a == b,
        (Word::Code(i), Word::Code(j)) => i == j,
        (Word::Raw(b), Word::Raw(c)) => b[0] == c[0]
            && b[1] == c[1]
            && b[2] == c[2]
            && b[3] == c[3],
        _ => false,
    }
}
