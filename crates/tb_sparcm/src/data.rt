//! The steps on the data words.

ghost use Rattle.std.specs.Prelude.{◌≡◌, ◌+◌, ◌<◌, ◌≤◌, ◌^◌, length};
ghost use Rattle.tb_sparc.specs.SparcStep.{byte_of, cleared, set_byte, word_number};

use super::state::State;
use tb_macm::Step;

/// The number of the word that has the byte at an address.
pub fn word_number(at: u32) -> u32
    ensures { result ≡ word_number at }
{
    at.wrapping_sub(0xc000_0000) / 4
}

fn byte_of(w: u32, k: u32) -> u8
    requires { k < 4 }
    ensures { result ≡ byte_of w k }
{
    w.to_be_bytes()[k as usize]
}

fn set_byte(w: u32, k: u32, byte: u8) -> u32
    requires { k < 4 }
    ensures { result ≡ set_byte w k byte }
{
    let mut bytes = w.to_be_bytes();
    bytes[k as usize] = byte;
    u32::from_be_bytes(bytes)
}

/// So many words from one on become 0.
fn clear(memory: &mut [u32], at: usize, count: usize)
    requires { at + count ≤ length memory.old }
    ensures { memory.new ≡ cleared count at memory.old }
{
    for k in at..at + count {
        memory[k] = 0;
    }
}

impl State {
    ghost use Rattle.std.specs.Prelude.{◌≡◌, ◌<◌, vec_len, slice_get, Some, None};
    ghost use Rattle.tb_sparc.specs.SparcStep.{clear, load, set_word, store, word_number};
    ghost use Rattle.tb_sparcm.specs.States.{sparc_of};
    ghost use Rattle.tb_sparcm.specs.calls.Quiet.{Does};

    /// The word that has the byte at an address of the data.
    fn word_at(&self, at: u32) -> Option<u32>
        ensures { result ≡ slice_get (sparc_of self.now).memory (word_number at) }
    {
        self.memory.get(word_number(at) as usize).copied()
    }

    /// A word of the data changes, and the next word follows.
    fn set_word(&mut self, number: u32, w: u32) -> Step
        requires { number < vec_len self.old.memory }
        ensures state { sparc_of self.new ≡ set_word number w (sparc_of self.old) }
        ensures result { result ≡ Step.Went None }
    {
        self.memory[number as usize] = w;
        self.advance()
    }

    /// A register gets a word or a byte.
    pub fn load(&mut self, byte: bool, rd: u8, at: u32) -> Step
        requires { rd < 32 }
        ensures { Does (load byte rd at (sparc_of self.old)) (sparc_of self.old) (sparc_of self.new) result }
    {
        if !byte && at % 4 != 0 {
            return self.stuck();
        }
        match self.word_at(at) {
            Some(w) if byte => self.put(rd, u32::from(byte_of(w, at % 4))),
            Some(w) => self.put(rd, w),
            None => self.stuck(),
        }
    }

    /// A word or a byte gets a register.
    pub fn store(&mut self, byte: bool, rd: u8, at: u32) -> Step
        requires { rd < 32 }
        ensures { Does (store byte rd at (sparc_of self.old)) (sparc_of self.old) (sparc_of self.new) result }
    {
        if !byte && at % 4 != 0 {
            return self.stuck();
        }
        let value = self.read(rd);
        match self.word_at(at) {
            Some(w) if byte => self.set_word(
                word_number(at),
                set_byte(w, at % 4, (value % 256) as u8),
            ),
            Some(_) => self.set_word(word_number(at), value),
            None => self.stuck(),
        }
    }

    /// As many words as register 3 says become 0, from the address in register 2 on.
    pub fn clear(&mut self) -> Step
        ensures { Does (clear (sparc_of self.old)) (sparc_of self.old) (sparc_of self.new) result }
    {
        let at = self.registers[2];
        let count = self.registers[3];
        if at % 4 != 0 {
            return self.stuck();
        }
        if count == 0 {
            return self.advance();
        }
        let number = word_number(at) as usize;
        if number + count as usize > self.memory.len() {
            return self.stuck();
        }
        clear(&mut self.memory, number, count as usize);
        self.advance()
    }
}
