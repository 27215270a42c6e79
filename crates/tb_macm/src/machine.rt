//! A machine that runs the code that it borrows.

ghost use Rattle.std.specs.Prelude.{◌≡◌};
ghost use Rattle.tb_mac.specs.Layout.{addresses};

use super::Step;
use super::state::State;
use std::marker::Model;
use tb_base::{Sink, Source};
use tb_mac::{MacCode, Word};
use tb_prim::Stop;

/// A machine that runs the code that it borrows.
#[derive(Drop)]
pub struct MacMachine<'a> {
    pub(super) code: &'a MacCode,
    pub(super) statics: Vec<u32>,
    pub(super) state: State,
    ghost placed: { statics.items ≡ addresses code.now.parts },
}

impl<'a> Model for MacMachine<'a> {
    ghost use Rattle.tb_macm.specs.Loaded.{Loaded};

    ghost Value = { Loaded };

    ghost use Rattle.tb_mac.specs.CodeOf.{code_of};
    ghost use Rattle.tb_macm.specs.States.{mac_of};

    ghost view = { λ m. record { code = code_of m.code.now; mac = mac_of m.state } };
}

impl<'a> MacMachine<'a> {
    ghost use Rattle.std.specs.Prelude.{◌≡◌, ◌≤◌, ◌<◌, None, false, length, slice_get, Some};
    ghost use Rattle.tb_mac.specs.CodeOf.{code_of};
    ghost use Rattle.tb_mac.specs.MacStep.{fetched};
    ghost use Rattle.tb_macm.specs.Steps.{StepDoes, asks, byte_put, faults};
    ghost use Rattle.tb_macm.specs.RunDoes.{RunDoes};

    /// Makes one step.
    pub fn step<I: Source, O: Sink>(&mut self, input: &mut I, out: &mut O) -> Step
        ensures does { StepDoes (fetched self.old.code self.old.mac) self.old.mac self.new.mac
            (I.left input.old) (I.left input.new) (O.held out.old) (O.held out.new)
            (faults (I.faults input.old) (O.faults out.old)) (faults (I.faults input.new) (O.faults out.new)) result }
        ensures code { self.new.code ≡ self.old.code }
        ensures unread { asks self.old.mac (fetched self.old.code self.old.mac) ≡ false → input.new ≡ input.old }
        ensures unwritten { byte_put (fetched self.old.code self.old.mac) ≡ None → out.new ≡ out.old }
        ensures later_input { I.faults input.old ≤ I.faults input.new }
        ensures later_output { O.faults out.old ≤ O.faults out.new }
    {
        let code = self.code;
        self.state.step(code, self.statics.as_slice(), input, out)
    }

    /// Makes at most so many steps, up to the first that stops.
    pub fn run<I: Source, O: Sink>(&mut self, steps: u64, input: &mut I, out: &mut O) -> Stop
        ensures does { RunDoes self.old.code self.old.mac self.new.mac
            (I.left input.old) (I.left input.new) (O.held out.old) (O.held out.new)
            (faults (I.faults input.old) (O.faults out.old)) (faults (I.faults input.new) (O.faults out.new))
            steps result }
        ensures code { self.new.code ≡ self.old.code }
        ensures later_input { I.faults input.old ≤ I.faults input.new }
        ensures later_output { O.faults out.old ≤ O.faults out.new }
    {
        for _made in 0..steps {
            match self.step(input, out) {
                Step::Went(_event) => {}
                Step::Stopped(stop) => return stop,
            }
        }
        Stop::Steps
    }

    /// The code that is run.
    pub fn code(&self) -> &MacCode
        ensures { code_of result.now ≡ self.now.code }
    {
        self.code
    }

    /// The number of the next instruction.
    pub fn pc(&self) -> u32
        ensures { result ≡ self.now.mac.pc }
    {
        self.state.pc
    }

    /// How many words the memory has.
    pub fn heap_words(&self) -> u32
        ensures { result ≡ length self.now.mac.memory }
    {
        self.state.memory.len() as u32
    }

    /// The heap pointer and the stack pointer, as word numbers.
    pub fn pointers(&self) -> (u32, u32)
        ensures heap { result.0 ≡ self.now.mac.heap_pointer }
        ensures stack { result.1 ≡ self.now.mac.stack_pointer }
    {
        (self.state.heap_pointer, self.state.stack_pointer)
    }

    /// The word of a register, 0 to 16.
    pub fn register(&self, a: u8) -> Word
        requires { a ≤ 16 }
        ensures { slice_get self.now.mac.registers a ≡ Some result }
    {
        self.state.register(a)
    }

    /// The word with this number, below the number of words.
    pub fn word_at(&self, at: u32) -> Word
        requires { at < length self.now.mac.memory }
        ensures { slice_get self.now.mac.memory at ≡ Some result }
    {
        self.state.memory[at as usize]
    }
}
