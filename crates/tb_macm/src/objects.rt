//! The steps that make objects, and those that read and write cells and procedures.

ghost use Rattle.std.specs.Prelude.{◌≡◌, ◌+◌, ◌<◌, ◌≤◌, ◌^◌, length, replicate};
ghost use Rattle.tb_mac.specs.Objects.{new_string};
ghost use Rattle.tb_mac.specs.MacStep.{put_words};

use super::Step;
use super::state::State;
use tb_mac::{MacCode, Word};
use tb_prim::Cause;

/// Writes a word into `count` places from `at` on.
pub fn fill(memory: &mut [Word], at: usize, count: usize, w: Word)
    requires { at + count ≤ length memory.old }
    ensures { memory.new ≡ put_words at (replicate count w) memory.old }
{
    for k in at..at + count {
        memory[k] = w;
    }
}

/// Writes the words of a new string of n characters of code 0.
#[tactic(auto, using(crate::proofs::Words::put_new_string))]
fn write_string(memory: &mut [Word], at: usize, n: u32)
    requires few { n < 2 ^ 24 }
    requires fits { at + length (new_string n) ≤ length memory.old }
    requires small { length memory.old < 2 ^ 30 }
    ensures { memory.new ≡ put_words at (new_string n) memory.old }
{
    let raw = (n as usize + 3) / 4;
    memory[at] = Word::Header(34, n);
    fill(memory, at + 1, raw, Word::Raw([0, 0, 0, 0]));
    fill(memory, at + 1 + raw, (raw + 1) % 2, Word::Fix(0));
}

impl State {
    ghost use Rattle.std.specs.Prelude.{◌≡◌, ◌+◌, ◌*◌, ◌-◌, ◌%◌, ◌<◌, ◌≤◌, ◌^◌, vec_len, [], ◌∷◌, slice_set, slice_index};
    ghost use Rattle.tb_mac.specs.CodeOf.{code_of};
    ghost use Rattle.tb_mac.specs.Objects.{pair_words, new_vector, new_string, new_procedure};
    ghost use Rattle.tb_mac.specs.Effects.{procedure_at};
    ghost use Rattle.tb_mac.specs.MacStep.{make, heap_of, allocate, new_cell, cell_get, cell_set, captured_at, captured, set_captured};
    ghost use Rattle.tb_mac.specs.MacStep.{rest_list, args_ge};
    ghost use Rattle.tb_macm.specs.States.{mac_of};
    ghost use Rattle.tb_macm.specs.calls.Quiet.{Does};

    /// Takes the words behind the heap pointer for an object that was written there. A register gets the
    /// pointer to it.
    fn take_words(&mut self, tag: u8, need: u32, a: u8) -> Step
        requires register { a ≤ 16 }
        requires fits { self.old.heap_pointer + need ≤ self.old.stack_pointer }
        requires room { self.old.pc < 2 ^ 24 }
        ensures result { result ≡ Step.Went None }
        ensures state { let m = mac_of self.old in mac_of self.new ≡ record m {
          pc = m.pc + 1;
          registers = slice_set m.registers a (Word.Pointer tag m.heap_pointer);
          heap_pointer = m.heap_pointer + need;
        } }
    {
        self.registers[a as usize] = Word::Pointer(tag, self.heap_pointer);
        self.heap_pointer += need;
        self.pc += 1;
        Step::Went(None)
    }

    /// A new object of two words.
    pub fn make_two(&mut self, tag: u8, first: Word, second: Word, a: u8) -> Step
        requires register { a ≤ 16 }
        requires room { self.old.pc < 2 ^ 24 }
        ensures { Does (make tag (first ∷ second ∷ []) a (mac_of self.old)) (mac_of self.old) (mac_of self.new) result }
    {
        if self.stack_pointer - self.heap_pointer < 2 {
            return self.full(2);
        }
        let at = self.heap_pointer as usize;
        self.memory[at] = first;
        self.memory[at + 1] = second;
        self.take_words(tag, 2, a)
    }

    /// A new vector of n fixnums 0.
    pub fn make_vector(&mut self, n: u32, a: u8) -> Step
        requires few { n < 2 ^ 24 }
        requires register { a ≤ 16 }
        requires room { self.old.pc < 2 ^ 24 }
        ensures { Does (make 3 (new_vector n) a (mac_of self.old)) (mac_of self.old) (mac_of self.new) result }
    {
        let rest = n + (n + 1) % 2;
        if self.stack_pointer - self.heap_pointer < rest + 1 {
            return self.full(rest + 1);
        }
        let at = self.heap_pointer as usize;
        self.memory[at] = Word::Header(18, n);
        fill(&mut self.memory, at + 1, rest as usize, Word::Fix(0));
        self.take_words(3, rest + 1, a)
    }

    /// A new string of n characters of code 0.
    #[tactic(auto, using(crate::proofs::Words::length_new_string))]
    pub fn make_string(&mut self, n: u32, a: u8) -> Step
        requires few { n < 2 ^ 24 }
        requires register { a ≤ 16 }
        requires room { self.old.pc < 2 ^ 24 }
        ensures { Does (make 5 (new_string n) a (mac_of self.old)) (mac_of self.old) (mac_of self.new) result }
    {
        let raw = (n + 3) / 4;
        let need = raw + (raw + 1) % 2 + 1;
        if self.stack_pointer - self.heap_pointer < need {
            return self.full(need);
        }
        write_string(&mut self.memory, self.heap_pointer as usize, n);
        self.take_words(5, need, a)
    }

    /// A new procedure with the entry x and n captured fixnums 0.
    pub fn make_procedure(&mut self, a: u8, n: u16, x: u32) -> Step
        requires register { a ≤ 16 }
        requires few { n ≤ 1000 }
        requires room { self.old.pc < 2 ^ 24 }
        ensures { Does (make 7 (new_procedure n x) a (mac_of self.old)) (mac_of self.old) (mac_of self.new) result }
    {
        let rest = u32::from(n) + u32::from(n) % 2;
        if self.stack_pointer - self.heap_pointer < rest + 2 {
            return self.full(rest + 2);
        }
        let at = self.heap_pointer as usize;
        self.memory[at] = Word::Header(50, u32::from(n));
        self.memory[at + 1] = Word::Code(x);
        fill(&mut self.memory, at + 2, rest as usize, Word::Fix(0));
        self.take_words(7, rest + 2, a)
    }

    /// A new cell that holds the word of a register.
    pub fn make_cell(&mut self, a: u8, b: u8) -> Step
        requires target { a ≤ 16 }
        requires value { b ≤ 16 }
        requires room { self.old.pc < 2 ^ 24 }
        ensures { Does (new_cell a b (mac_of self.old)) (mac_of self.old) (mac_of self.new) result }
    {
        self.make_two(3, Word::Header(26, 1), self.registers[b as usize], a)
    }

    /// A register gets the value of the cell in another.
    pub fn cell_get(&mut self, code: &MacCode, a: u8, b: u8) -> Step
        requires target { a ≤ 16 }
        requires cell { b ≤ 16 }
        requires room { self.old.pc < 2 ^ 24 }
        ensures { Does (cell_get (code_of code.now) a b (mac_of self.old)) (mac_of self.old) (mac_of self.new) result }
    {
        let Some(cell) = self.object_at(3, 26, self.registers[b as usize]) else {
            return self.stuck();
        };
        match self.heap_word(cell.at as usize + 1) {
            Some(Word::Special(4)) => self.fail(code, Cause::Undefined),
            Some(w) => self.set_register(a, w),
            None => self.stuck(),
        }
    }

    /// The cell in a register holds the word of another.
    pub fn cell_set(&mut self, a: u8, b: u8) -> Step
        requires cell { a ≤ 16 }
        requires value { b ≤ 16 }
        requires room { self.old.pc < 2 ^ 24 }
        ensures { Does (cell_set a b (mac_of self.old)) (mac_of self.old) (mac_of self.new) result }
    {
        let Some(cell) = self.object_at(3, 26, self.registers[a as usize]) else {
            return self.stuck();
        };
        let at = cell.at as usize + 1;
        match self.heap_word(at) {
            Some(_) => self.set_word(at, self.registers[b as usize]),
            None => self.stuck(),
        }
    }

    /// Where a captured word of a procedure stands.
    fn captured_at(&self, x: u32, w: Word) -> Option<usize>
        ensures { result ≡ captured_at (heap_of (mac_of self.now)) x w }
    {
        let procedure = self.object_at(7, 50, w)?;
        if x < procedure.size {
            Some(procedure.at as usize + 2 + x as usize)
        } else {
            None
        }
    }

    /// A register gets a captured word of the procedure in another.
    pub fn captured(&mut self, a: u8, b: u8, x: u32) -> Step
        requires target { a ≤ 16 }
        requires procedure { b ≤ 16 }
        requires room { self.old.pc < 2 ^ 24 }
        ensures { Does (captured a b x (mac_of self.old)) (mac_of self.old) (mac_of self.new) result }
    {
        let Some(at) = self.captured_at(x, self.registers[b as usize]) else {
            return self.stuck();
        };
        match self.heap_word(at) {
            Some(w) => self.set_register(a, w),
            None => self.stuck(),
        }
    }

    /// A captured word of the procedure in a register becomes the word of another.
    pub fn set_captured(&mut self, a: u8, b: u8, x: u32) -> Step
        requires procedure { a ≤ 16 }
        requires value { b ≤ 16 }
        requires room { self.old.pc < 2 ^ 24 }
        ensures { Does (set_captured a b x (mac_of self.old)) (mac_of self.old) (mac_of self.new) result }
    {
        let Some(at) = self.captured_at(x, self.registers[a as usize]) else {
            return self.stuck();
        };
        match self.heap_word(at) {
            Some(_) => self.set_word(at, self.registers[b as usize]),
            None => self.stuck(),
        }
    }
}
