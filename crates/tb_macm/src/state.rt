//! The state of the machine, and the steps of control: jumps, frames, registers and globals.

ghost use Rattle.std.specs.Prelude.{◌<◌, ◌≤◌, ◌^◌, vec_len};

use super::Step;
use tb_mac::{MacCode, Placed, Word, immediate_word, is_false, place_of, same_word};
use tb_prim::{Cause, Event, Stop, Taken};

/// The state of the machine: the number of the next instruction, the registers, the words of the heap and
/// the stack, the two word numbers between which no word is in use, and what is known of the input ahead.
#[derive(Drop)]
pub struct State {
    pub pc: u32,
    pub registers: [Word; 17],
    pub memory: Vec<Word>,
    pub heap_pointer: u32,
    pub stack_pointer: u32,
    pub ahead: Option<Taken>,
    pub ghost pointers: { heap_pointer ≤ stack_pointer },
    pub ghost stack: { stack_pointer ≤ vec_len memory },
    pub ghost words: { vec_len memory < 2 ^ 30 },
}

impl State {
    ghost use Rattle.std.specs.Prelude.{◌≡◌, ◌+◌, ◌<◌, ◌≤◌, ◌^◌, vec_len, Some, slice_get};
    ghost use Rattle.tb_mac.specs.CodeOf.{code_of};
    ghost use Rattle.tb_mac.specs.Words.{is_undefined};
    ghost use Rattle.tb_mac.specs.Effects.{object_at, procedure_at};
    ghost use Rattle.tb_mac.specs.MacStep.{Goes, Emits, set_register, set_word, jump_to, heap_of, stuck, fail, top_size, slot_at};
    ghost use Rattle.tb_mac.specs.MacStep.{save, set_return, load, store, pop, return, args, branch, immediate, copy};
    ghost use Rattle.tb_mac.specs.MacStep.{global_get, global_set, global_def};
    ghost use Rattle.tb_macm.specs.States.{mac_of};
    ghost use Rattle.tb_macm.specs.calls.Quiet.{Does};

    /// A register gets a word, and the next instruction follows.
    pub fn set_register(&mut self, a: u8, w: Word) -> Step
        requires register { a ≤ 16 }
        requires room { self.old.pc < 2 ^ 24 }
        ensures state { mac_of self.new ≡ set_register a w (mac_of self.old) }
        ensures result { result ≡ Step.Went None }
    {
        self.registers[a as usize] = w;
        self.pc += 1;
        Step::Went(None)
    }

    /// A word of the memory changes, and the next instruction follows.
    pub fn set_word(&mut self, at: usize, w: Word) -> Step
        requires within { at < vec_len self.old.memory }
        requires room { self.old.pc < 2 ^ 24 }
        ensures state { mac_of self.new ≡ set_word at w (mac_of self.old) }
        ensures result { result ≡ Step.Went None }
    {
        self.memory[at] = w;
        self.pc += 1;
        Step::Went(None)
    }

    /// The word of a register.
    pub fn register(&self, a: u8) -> Word
        requires { a ≤ 16 }
        ensures { slice_get (mac_of self.now).registers a ≡ Some result }
    {
        self.registers[a as usize]
    }

    /// A word of the heap.
    pub fn heap_word(&self, at: usize) -> Option<Word>
        ensures { result ≡ heap_of (mac_of self.now) at }
    {
        if at < self.heap_pointer as usize {
            Some(self.memory[at])
        } else {
            None
        }
    }

    /// The object of this kind to which a word points with this tag.
    pub fn object_at(&self, tag: u8, kind: u8, w: Word) -> Option<Placed>
        ensures { result ≡ object_at (heap_of (mac_of self.now)) tag kind w }
    {
        match w {
            Word::Pointer(t, at) if t == tag => match self.heap_word(at as usize) {
                Some(Word::Header(k, size)) if k == kind => Some(Placed { at, size }),
                _ => None,
            },
            _ => None,
        }
    }

    /// The size of the frame on top, where all its words are there.
    pub fn top_size(&self) -> Option<u32>
        ensures { result ≡ top_size (mac_of self.now) }
    {
        let at = self.stack_pointer as usize + 1;
        if at >= self.memory.len() {
            return None;
        }
        match self.memory[at] {
            Word::Fix(n) if n >= 0 && at + 1 + n as usize <= self.memory.len() => Some(n as u32),
            _ => None,
        }
    }

    /// No step can be made.
    pub fn stuck(&self) -> Step
        ensures { Does (stuck (mac_of self.now)) (mac_of self.now) (mac_of self.now) result }
    {
        Step::Stopped(Stop::Stuck { pc: self.pc })
    }

    /// The instruction fails at its place.
    pub fn fail(&self, code: &MacCode, cause: Cause) -> Step
        ensures { Does (fail (code_of code.now) (mac_of self.now) cause) (mac_of self.now) (mac_of self.now) result }
    {
        match place_of(code.places.as_slice(), self.pc) {
            Some(place) => Step::Stopped(Stop::Fail(cause, place)),
            None => self.stuck(),
        }
    }

    /// Goes on at another instruction.
    pub fn jump(&mut self, x: u32) -> Step
        ensures { Does (Goes (jump_to x (mac_of self.old))) (mac_of self.old) (mac_of self.new) result }
    {
        self.pc = x;
        Step::Went(None)
    }

    /// Lays a frame of so many slots on the stack, where it fits.
    pub fn save(&mut self, x: u32) -> Step
        requires size { x ≤ 1000 }
        requires room { self.old.pc < 2 ^ 24 }
        ensures { Does (save x (mac_of self.old)) (mac_of self.old) (mac_of self.new) result }
    {
        let need = x + 2;
        if self.stack_pointer - self.heap_pointer < need {
            return self.full(need);
        }
        let top = self.stack_pointer - need;
        self.memory[top as usize] = Word::Fix(0);
        self.memory[top as usize + 1] = Word::Fix(x as i32);
        self.stack_pointer = top;
        self.pc += 1;
        Step::Went(None)
    }

    /// So many words do not fit between the pointers.
    pub fn full(&self, need: u32) -> Step
        ensures { result ≡ Step.Stopped (Stop.Full self.now.heap_pointer self.now.stack_pointer need) }
    {
        Step::Stopped(Stop::Full {
            pointer: self.heap_pointer,
            stack: self.stack_pointer,
            need,
        })
    }

    /// The return word of the frame on top becomes a code place.
    pub fn set_return(&mut self, x: u32) -> Step
        requires room { self.old.pc < 2 ^ 24 }
        ensures { Does (set_return x (mac_of self.old)) (mac_of self.old) (mac_of self.new) result }
    {
        match self.top_size() {
            Some(_) => self.set_word(self.stack_pointer as usize, Word::Code(x)),
            None => self.stuck(),
        }
    }

    /// The word number of a slot of the frame on top, where that has such a slot.
    fn slot_at(&self, x: u32) -> Option<usize>
        requires { x < 1000 }
        ensures { result ≡ slot_at (mac_of self.now) x }
    {
        let size = self.top_size()?;
        if x < size {
            Some(self.stack_pointer as usize + 2 + x as usize)
        } else {
            None
        }
    }

    /// Reads a slot of the frame on top into a register.
    pub fn load(&mut self, a: u8, x: u32) -> Step
        requires register { a ≤ 16 }
        requires slot { x < 1000 }
        requires room { self.old.pc < 2 ^ 24 }
        ensures { Does (load a x (mac_of self.old)) (mac_of self.old) (mac_of self.new) result }
    {
        match self.slot_at(x) {
            Some(at) => {
                let w = self.memory[at];
                self.set_register(a, w)
            }
            None => self.stuck(),
        }
    }

    /// Writes a register into a slot of the frame on top.
    pub fn store(&mut self, a: u8, x: u32) -> Step
        requires register { a ≤ 16 }
        requires slot { x < 1000 }
        requires room { self.old.pc < 2 ^ 24 }
        ensures { Does (store a x (mac_of self.old)) (mac_of self.old) (mac_of self.new) result }
    {
        match self.slot_at(x) {
            Some(at) => self.set_word(at, self.registers[a as usize]),
            None => self.stuck(),
        }
    }

    /// Takes away the frame on top, which has so many slots.
    pub fn pop(&mut self, x: u32) -> Step
        requires room { self.old.pc < 2 ^ 24 }
        ensures { Does (pop x (mac_of self.old)) (mac_of self.old) (mac_of self.new) result }
    {
        match self.top_size() {
            Some(size) if size == x => {
                self.stack_pointer += size + 2;
                self.pc += 1;
                Step::Went(None)
            }
            _ => self.stuck(),
        }
    }

    /// Goes on at the return word of the frame on top.
    pub fn go_back(&mut self) -> Step
        ensures { Does (return (mac_of self.old)) (mac_of self.old) (mac_of self.new) result }
    {
        if self.top_size().is_none() {
            return self.stuck();
        }
        match self.memory[self.stack_pointer as usize] {
            Word::Code(x) => {
                self.pc = x;
                Step::Went(Some(Event::Back))
            }
            _ => self.stuck(),
        }
    }

    /// A lambda is entered.
    pub fn proc(&mut self, x: u32) -> Step
        requires room { self.old.pc < 2 ^ 24 }
        ensures { Does (Emits (Event.Enter x) (jump_to (self.old.pc + 1) (mac_of self.old))) (mac_of self.old)
            (mac_of self.new) result }
    {
        self.pc += 1;
        Step::Went(Some(Event::Enter(x)))
    }

    /// RESULT is this number of operands.
    pub fn args(&mut self, code: &MacCode, a: u8) -> Step
        requires room { self.old.pc < 2 ^ 24 }
        ensures { Does (args (code_of code.now) a (mac_of self.old)) (mac_of self.old) (mac_of self.new) result }
    {
        if same_word(self.registers[16], Word::Fix(i32::from(a))) {
            self.pc += 1;
            Step::Went(None)
        } else {
            self.fail(code, Cause::WrongArgs)
        }
    }

    /// Goes on at another instruction, where the register is false.
    pub fn branch(&mut self, a: u8, x: u32) -> Step
        requires register { a ≤ 16 }
        requires room { self.old.pc < 2 ^ 24 }
        ensures { Does (branch a x (mac_of self.old)) (mac_of self.old) (mac_of self.new) result }
    {
        if is_false(self.registers[a as usize]) {
            self.pc = x;
        } else {
            self.pc += 1;
        }
        Step::Went(None)
    }

    /// A register gets the word that the bits stand for.
    pub fn immediate(&mut self, a: u8, x: u32) -> Step
        requires register { a ≤ 16 }
        requires room { self.old.pc < 2 ^ 24 }
        ensures { Does (immediate a x (mac_of self.old)) (mac_of self.old) (mac_of self.new) result }
    {
        match immediate_word(x) {
            Some(w) => self.set_register(a, w),
            None => self.stuck(),
        }
    }

    /// A register gets the word of another.
    pub fn copy(&mut self, a: u8, b: u8) -> Step
        requires target { a ≤ 16 }
        requires source { b ≤ 16 }
        requires room { self.old.pc < 2 ^ 24 }
        ensures { Does (copy a b (mac_of self.old)) (mac_of self.old) (mac_of self.new) result }
    {
        self.set_register(a, self.registers[b as usize])
    }

    /// A register gets a global.
    pub fn global_get(&mut self, code: &MacCode, a: u8, x: u32) -> Step
        requires register { a ≤ 16 }
        requires room { self.old.pc < 2 ^ 24 }
        ensures { Does (global_get (code_of code.now) a x (mac_of self.old)) (mac_of self.old) (mac_of self.new) result }
    {
        match self.heap_word(x as usize) {
            Some(Word::Special(4)) => self.fail(code, Cause::Undefined),
            Some(w) => self.set_register(a, w),
            None => self.stuck(),
        }
    }

    /// A global that has a value gets that of a register.
    pub fn global_set(&mut self, code: &MacCode, a: u8, x: u32) -> Step
        requires register { a ≤ 16 }
        requires room { self.old.pc < 2 ^ 24 }
        ensures { Does (global_set (code_of code.now) a x (mac_of self.old)) (mac_of self.old) (mac_of self.new) result }
    {
        match self.heap_word(x as usize) {
            Some(Word::Special(number)) if number == 4 => self.fail(code, Cause::Undefined),
            Some(_) => self.set_word(x as usize, self.registers[a as usize]),
            None => self.stuck(),
        }
    }

    /// A global gets the value of a register.
    pub fn global_def(&mut self, a: u8, x: u32) -> Step
        requires register { a ≤ 16 }
        requires room { self.old.pc < 2 ^ 24 }
        ensures { Does (global_def a x (mac_of self.old)) (mac_of self.old) (mac_of self.new) result }
    {
        match self.heap_word(x as usize) {
            Some(_) => self.set_word(x as usize, self.registers[a as usize]),
            None => self.stuck(),
        }
    }
}
