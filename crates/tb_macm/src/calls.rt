//! The steps that enter procedures and build the lists of their operands.

ghost use Rattle.std.specs.Prelude.{◌≡◌, ◌+◌, ◌*◌, ◌<◌, ◌≤◌, ◌^◌, length};
ghost use Rattle.std.specs.Prelude.{cond};
ghost use Rattle.tb_mac.specs.Effects.{pair_at};
ghost use Rattle.tb_mac.specs.MacStep.{put_words, list_words};
ghost use Rattle.tb_mac.specs.Words.{empty_list, same_word};

use super::Step;
use super::answer::Walk;
use super::state::State;
use tb_mac::{MacCode, Word, same_word};
use tb_prim::Cause;

/// Writes words one behind the other from `at` on.
pub fn put_words(memory: &mut [Word], at: usize, words: &[Word])
    requires { at + length words.now ≤ length memory.old }
    ensures { memory.new ≡ put_words at words.now memory.old }
{
    for (k, word) in words.iter().enumerate() {
        memory[at + k] = *word;
    }
}

/// Writes the pairs of the list of these words, one behind the other from `at` on.
fn write_list(memory: &mut [Word], at: usize, words: &[Word])
    requires room { at + 2 * length words.now ≤ length memory.old }
    requires small { length memory.old < 2 ^ 30 }
    ensures { memory.new ≡ put_words at (list_words at words.now) memory.old }
{
    for (k, word) in words.iter().enumerate() {
        let here = at + 2 * k;
        memory[here] = *word;
        memory[here + 1] = list_at(here as u32 + 2, k + 1 < words.len());
    }
}

/// The list that goes on at this word, or the empty list.
fn list_at(at: u32, more: bool) -> Word
    ensures { result ≡ cond more (Word.Pointer 1 at) empty_list }
{
    if more {
        Word::Pointer(1, at)
    } else {
        Word::Special(2)
    }
}

/// The list ends with this word: after `count` elements, or it is no list.
fn ends_list(rest: Word, count: u8) -> Walk
    ensures { result ≡ cond (same_word rest empty_list) (Walk.Elements count) (Walk.NoList Cause.WrongType) }
{
    if same_word(rest, Word::Special(2)) {
        Walk::Elements(count)
    } else {
        Walk::NoList(Cause::WrongType)
    }
}

/// The pair to which a word points.
pub fn pair_at(w: Word) -> Option<u32>
    ensures { result ≡ pair_at w }
{
    match w {
        Word::Pointer(1, at) => Some(at),
        _ => None,
    }
}

impl State {
    ghost use Rattle.std.specs.Prelude.{◌≡◌, ◌<◌, ◌≤◌, ◌^◌, length};
    ghost use Rattle.tb_mac.specs.CodeOf.{code_of};
    ghost use Rattle.tb_mac.specs.MacStep.{heap_of, rest_list, args_ge, invoke, apply, set_operands, walk_list};
    ghost use Rattle.tb_macm.specs.States.{mac_of};
    ghost use Rattle.tb_macm.specs.calls.Quiet.{Does, IsShort, walked_of};

    /// The operands behind the first `a` of `n` become a list.
    #[tactic(auto, using(crate::proofs::Lists::rest_list_is))]
    fn rest_list(&mut self, a: u8, n: u8) -> Step
        requires order { a ≤ n }
        requires fixed { a ≤ 11 }
        requires few { n ≤ 12 }
        requires room { self.old.pc < 2 ^ 24 }
        ensures { Does (rest_list a n (mac_of self.old)) (mac_of self.old) (mac_of self.new) result }
    {
        let need = u32::from(n - a) * 2;
        if self.stack_pointer - self.heap_pointer < need {
            return self.full(need);
        }
        let registers = self.registers;
        let words = &registers[a as usize + 1..n as usize + 1];
        write_list(&mut self.memory, self.heap_pointer as usize, words);
        self.registers[a as usize + 1] = list_at(self.heap_pointer, a < n);
        self.heap_pointer += need;
        self.pc += 1;
        Step::Went(None)
    }

    /// RESULT is a number of operands, of which those behind the first `a` become a list.
    pub fn args_ge(&mut self, code: &MacCode, a: u8) -> Step
        requires fixed { a ≤ 11 }
        requires room { self.old.pc < 2 ^ 24 }
        ensures { Does (args_ge (code_of code.now) a (mac_of self.old)) (mac_of self.old) (mac_of self.new) result }
    {
        let count = self.registers[16];
        match count {
            Word::Fix(n) if n < i32::from(a) => self.fail(code, Cause::WrongArgs),
            Word::Fix(n) if n <= 12 => self.rest_list(a, n as u8),
            _ => self.stuck(),
        }
    }

    /// Enters the procedure in register 0 with so many operands.
    pub fn invoke(&mut self, code: &MacCode, a: u8) -> Step
        requires few { a ≤ 12 }
        ensures { Does (invoke (code_of code.now) a (mac_of self.old)) (mac_of self.old) (mac_of self.new) result }
    {
        let Some(procedure) = self.object_at(7, 50, self.registers[0]) else {
            return self.fail(code, Cause::NotProcedure);
        };
        match self.heap_word(procedure.at as usize + 1) {
            Some(Word::Code(x)) => {
                self.registers[16] = Word::Fix(i32::from(a));
                self.pc = x;
                Step::Went(None)
            }
            _ => self.stuck(),
        }
    }

    /// Walks a list of at most twelve elements, which go into `elements`.
    fn walk(&self, list: Word, elements: &mut [Word; 12]) -> Walk
        ensures walked { walked_of result elements.new ≡ walk_list (heap_of (mac_of self.now)) list }
        ensures short { IsShort result }
    {
        let mut rest = list;
        for count in 0..12u8 {
            let at = match pair_at(rest) {
                Some(at) => at as usize,
                None => return ends_list(rest, count),
            };
            let element = match self.heap_word(at) {
                Some(element) => element,
                None => return Walk::NoWord,
            };
            let next = match self.heap_word(at + 1) {
                Some(next) => next,
                None => return Walk::NoWord,
            };
            elements[count as usize] = element;
            rest = next;
        }
        match pair_at(rest) {
            Some(_) => Walk::NoList(Cause::TooMany),
            None => ends_list(rest, 12),
        }
    }

    /// Puts operands into the registers from 1 on, and their number into RESULT.
    fn set_operands(&mut self, words: &[Word])
        requires { length words.now ≤ 12 }
        ensures { mac_of self.new ≡ set_operands words.now (mac_of self.old) }
    {
        put_words(&mut self.registers, 1, words);
        self.registers[16] = Word::Fix(words.len() as i32);
    }

    /// Enters the procedure in register 0 with the elements of the list in register 1.
    pub fn apply(&mut self, code: &MacCode) -> Step
        ensures { Does (apply (code_of code.now) (mac_of self.old)) (mac_of self.old) (mac_of self.new) result }
    {
        let Some(procedure) = self.object_at(7, 50, self.registers[0]) else {
            return self.fail(code, Cause::NotProcedure);
        };
        let mut elements = [Word::Fix(0); 12];
        let count = match self.walk(self.registers[1], &mut elements) {
            Walk::Elements(count) => count,
            Walk::NoList(cause) => return self.fail(code, cause),
            Walk::NoWord => return self.stuck(),
        };
        match self.heap_word(procedure.at as usize + 1) {
            Some(Word::Code(x)) => {
                self.set_operands(&elements[..count as usize]);
                self.pc = x;
                Step::Went(None)
            }
            _ => self.stuck(),
        }
    }
}
