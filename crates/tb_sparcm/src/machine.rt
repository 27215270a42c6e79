//! A machine that runs the code that it borrows.

ghost use Rattle.std.specs.Prelude.{◌≡◌};
ghost use Rattle.tb_sparc.specs.GroupedOf.{grouped_of};
ghost use Rattle.tb_sparcm.specs.calls.Cells.{cells_of};

use super::cell::{Cell, cell_at};
use super::data::word_number;
use super::state::State;
use std::marker::Model;
use tb_base::{Sink, Source};
use tb_mac::MacCode;
use tb_macm::Step;
use tb_prim::Stop;
use tb_sparc::SparcCode;

/// A machine that runs the code that it borrows.
#[derive(Drop)]
pub struct SparcMachine<'a> {
    pub(super) code: &'a MacCode,
    pub(super) sparc: &'a SparcCode,
    pub(super) cells: Vec<Cell>,
    pub(super) state: State,
    ghost decoded: { cells.items ≡ cells_of (grouped_of sparc.now) },
}

impl<'a> Model for SparcMachine<'a> {
    ghost use Rattle.tb_sparcm.specs.Loaded.{Loaded};

    ghost Value = { Loaded };

    ghost use Rattle.tb_mac.specs.CodeOf.{code_of};
    ghost use Rattle.tb_sparc.specs.GroupedOf.{grouped_of};
    ghost use Rattle.tb_sparcm.specs.States.{sparc_of};

    ghost view = { λ m. record { code = code_of m.code.now; sparc = grouped_of m.sparc.now; state = sparc_of m.state } };
}

impl<'a> SparcMachine<'a> {
    ghost use Rattle.std.specs.Prelude.{◌≡◌, ◌≤◌, ◌<◌, ◌*◌, None, false, is_some, length, slice_get, slice_index, Some};
    ghost use Rattle.tb_mac.specs.CodeOf.{code_of};
    ghost use Rattle.tb_macm.specs.Steps.{faults};
    ghost use Rattle.tb_sparc.specs.Grouped.{group_at};
    ghost use Rattle.tb_sparc.specs.GroupedOf.{grouped_of};
    ghost use Rattle.tb_sparc.specs.SparcStep.{fetched, word_number};
    ghost use Rattle.tb_sparcm.specs.Steps.{StepDoes, asks, byte_put};
    ghost use Rattle.tb_sparcm.specs.RunDoes.{RunDoes};

    /// Makes one step.
    pub fn step<I: Source, O: Sink>(&mut self, input: &mut I, out: &mut O) -> Step
        ensures does { StepDoes self.old.code self.old.sparc self.old.state self.new.state
            (I.left input.old) (I.left input.new) (O.held out.old) (O.held out.new)
            (faults (I.faults input.old) (O.faults out.old)) (faults (I.faults input.new) (O.faults out.new)) result }
        ensures code { self.new.code ≡ self.old.code }
        ensures sparc { self.new.sparc ≡ self.old.sparc }
        ensures unread { asks self.old.state (fetched self.old.code self.old.sparc self.old.state) ≡ false
            → input.new ≡ input.old }
        ensures unwritten { byte_put (fetched self.old.code self.old.sparc self.old.state) ≡ None
            → out.new ≡ out.old }
        ensures later_input { I.faults input.old ≤ I.faults input.new }
        ensures later_output { O.faults out.old ≤ O.faults out.new }
    {
        let (code, sparc) = (self.code, self.sparc);
        let words = sparc.words.as_slice();
        self.state
            .step(code, sparc, words, self.cells.as_slice(), input, out)
    }

    /// Makes at most so many steps, up to the first that stops.
    pub fn run<I: Source, O: Sink>(&mut self, steps: u64, input: &mut I, out: &mut O) -> Stop
        ensures does { RunDoes self.old.code self.old.sparc self.old.state self.new.state
            (I.left input.old) (I.left input.new) (O.held out.old) (O.held out.new)
            (faults (I.faults input.old) (O.faults out.old)) (faults (I.faults input.new) (O.faults out.new))
            steps result }
        ensures code { self.new.code ≡ self.old.code }
        ensures sparc { self.new.sparc ≡ self.old.sparc }
        ensures later_input { I.faults input.old ≤ I.faults input.new }
        ensures later_output { O.faults out.old ≤ O.faults out.new }
    {
        for _made in 0..steps {
            match self.step(input, out) {
                Step::Went(_event) => {}
                Step::Stopped(stop) => return stop,
            }
        }
        Stop::Steps
    }

    /// The code of the MAC machine.
    pub fn code(&self) -> &MacCode
        ensures { code_of result.now ≡ self.now.code }
    {
        self.code
    }

    /// The code that is run.
    pub fn sparc(&self) -> &SparcCode
        ensures { grouped_of result.now ≡ self.now.sparc }
    {
        self.sparc
    }

    /// The address of the next word.
    pub fn pc(&self) -> u32
        ensures { result ≡ 4 * self.now.state.pc }
    {
        self.state.pc * 4
    }

    /// The group of an instruction starts at the next word.
    pub fn at_start(&self) -> bool
        ensures { result ≡ is_some (group_at self.now.sparc.starts self.now.state.pc) }
    {
        match cell_at(self.cells.as_slice(), self.state.pc) {
            Some(cell) => cell.group.is_some(),
            None => false,
        }
    }

    /// How many data words there are.
    pub fn heap_words(&self) -> u32
        ensures { result ≡ length self.now.state.memory }
    {
        self.state.memory.len() as u32
    }

    /// The heap pointer and the stack pointer, as word numbers.
    pub fn pointers(&self) -> (u32, u32)
        ensures heap { result.0 ≡ word_number (slice_index self.now.state.registers 1) }
        ensures stack { result.1 ≡ word_number (slice_index self.now.state.registers 14) }
    {
        (
            word_number(self.state.registers[1]),
            word_number(self.state.registers[14]),
        )
    }

    /// A register, 0 to 31.
    pub fn register(&self, r: u8) -> u32
        requires { r < 32 }
        ensures { slice_get self.now.state.registers r ≡ Some result }
    {
        self.state.register(r)
    }

    /// The data word with this number, below the number of words.
    pub fn word_at(&self, at: u32) -> u32
        requires { at < length self.now.state.memory }
        ensures { slice_get self.now.state.memory at ≡ Some result }
    {
        self.state.memory[at as usize]
    }
}
