//! One match on the instruction, and the group starts.

ghost use Rattle.std.specs.Prelude.{◌≡◌, Some};
ghost use Rattle.tb_mac.specs.CodeOf.{code_of};
ghost use Rattle.tb_sparcm.specs.calls.Quiet.{mark_of};

use super::arithmetic::{condition, moved};
use super::cell::{Cell, cell_at};
use super::state::State;
use tb_base::{Sink, Source};
use tb_mac::{Instr, MacCode, fetch};
use tb_macm::Step;
use tb_prim::Event;
use tb_sparc::{SparcCode, SparcInstr};

/// The event of the group of the instruction with this number.
fn event_of(code: &MacCode, number: u32) -> Option<Event>
    ensures { result ≡ mark_of (code_of code.now) (Some number) }
{
    match fetch(code, number) {
        Some(Instr::Proc(lambda)) => Some(Event::Enter(lambda)),
        Some(Instr::Return) => Some(Event::Back),
        _ => None,
    }
}

impl State {
    ghost use Rattle.std.specs.Prelude.{◌≡◌, ◌≤◌, None, Some, false};
    ghost use Rattle.tb_mac.specs.CodeOf.{code_of};
    ghost use Rattle.tb_macm.specs.Steps.{faults};
    ghost use Rattle.tb_sparc.specs.GroupedOf.{grouped_of};
    ghost use Rattle.tb_sparc.specs.Range.{IsInRange};
    ghost use Rattle.tb_sparc.specs.SparcStep.{fetched, perform};
    ghost use Rattle.tb_sparcm.specs.States.{sparc_of};
    ghost use Rattle.tb_sparcm.specs.Steps.{StepDoes, asks, byte_put};
    ghost use Rattle.tb_sparcm.specs.calls.Cells.{cells_of};
    ghost use Rattle.tb_sparcm.specs.calls.Quiet.{DoesAt, grouped, mark_of};

    /// Makes the step of this instruction.
    #[tactic(auto, using(crate::proofs::StepLaws::quiet_step, crate::proofs::Operands::second_readable, crate::proofs::Operands::operand_readable))]
    fn perform<I: Source, O: Sink>(
        &mut self,
        code: &MacCode,
        instr: SparcInstr,
        input: &mut I,
        out: &mut O,
    ) -> Step
        requires { IsInRange instr }
        ensures does { DoesAt None (perform (code_of code.now) (sparc_of self.old) instr) (sparc_of self.old)
            (sparc_of self.old) (sparc_of self.new) (I.left input.old) (I.left input.new) (O.held out.old)
            (O.held out.new) (faults (I.faults input.old) (O.faults out.old))
            (faults (I.faults input.new) (O.faults out.new)) result }
        ensures unread { asks (sparc_of self.old) (perform (code_of code.now) (sparc_of self.old) instr) ≡ false
            → input.new ≡ input.old }
        ensures unwritten { byte_put (perform (code_of code.now) (sparc_of self.old) instr) ≡ None
            → out.new ≡ out.old }
        ensures later_input { I.faults input.old ≤ I.faults input.new }
        ensures later_output { O.faults out.old ≤ O.faults out.new }
    {
        match instr {
            SparcInstr::Call(distance) => self.link(15, moved(self.pc, distance)),
            SparcInstr::Sethi(rd, n) => self.put(rd, n * 1024),
            SparcInstr::Branch(k, annul, distance) => {
                self.branch(condition(k, self.codes), annul, k == 8, distance)
            }
            SparcInstr::Alu(op, rd, rs1, second) => {
                self.operate(op, rd, self.read(rs1), self.operand(second))
            }
            SparcInstr::RdY(rd) => self.put(rd, self.y),
            SparcInstr::WrY(rs1, second) => {
                self.y = self.read(rs1) ^ self.operand(second);
                self.advance()
            }
            SparcInstr::Jmpl(rd, rs1, second) => {
                self.jump(rd, self.read(rs1).wrapping_add(self.operand(second)))
            }
            SparcInstr::Load(byte, rd, rs1, second) => {
                self.load(byte, rd, self.read(rs1).wrapping_add(self.operand(second)))
            }
            SparcInstr::Store(byte, rd, rs1, second) => {
                self.store(byte, rd, self.read(rs1).wrapping_add(self.operand(second)))
            }
            SparcInstr::Trap(service) => self.serve(code, service, input, out),
        }
    }

    /// Makes the step of this instruction at the start of the group of the instruction with this number.
    #[tactic(auto, using(crate::proofs::GroupLaws::started, crate::proofs::GroupLaws::not_started))]
    fn start_group<I: Source, O: Sink>(
        &mut self,
        code: &MacCode,
        number: u32,
        instr: SparcInstr,
        input: &mut I,
        out: &mut O,
    ) -> Step
        requires { IsInRange instr }
        ensures does { DoesAt (mark_of (code_of code.now) (Some number))
            (perform (code_of code.now) (grouped (Some number) (sparc_of self.old)) instr)
            (grouped (Some number) (sparc_of self.old)) (sparc_of self.old) (sparc_of self.new)
            (I.left input.old) (I.left input.new) (O.held out.old) (O.held out.new)
            (faults (I.faults input.old) (O.faults out.old)) (faults (I.faults input.new) (O.faults out.new)) result }
        ensures unread { asks (sparc_of self.old)
            (perform (code_of code.now) (grouped (Some number) (sparc_of self.old)) instr) ≡ false
            → input.new ≡ input.old }
        ensures unwritten { byte_put (perform (code_of code.now) (grouped (Some number) (sparc_of self.old)) instr)
            ≡ None → out.new ≡ out.old }
        ensures later_input { I.faults input.old ≤ I.faults input.new }
        ensures later_output { O.faults out.old ≤ O.faults out.new }
    {
        let before = self.group;
        self.group = number;
        match self.perform(code, instr, input, out) {
            Step::Went(None) => Step::Went(event_of(code, number)),
            Step::Went(Some(event)) => Step::Went(Some(event)),
            Step::Stopped(stop) => {
                self.group = before;
                Step::Stopped(stop)
            }
        }
    }

    /// Makes the step of the word that stands at the pc.
    #[tactic(auto, using(crate::proofs::StepLaws::quiet_step))]
    pub fn step<I: Source, O: Sink>(
        &mut self,
        code: &MacCode,
        sparc: &SparcCode,
        words: &[u32],
        cells: &[Cell],
        input: &mut I,
        out: &mut O,
    ) -> Step
        requires words { words.now ≡ sparc.now.words }
        requires decoded { cells.now ≡ cells_of (grouped_of sparc.now) }
        ensures does { StepDoes (code_of code.now) (grouped_of sparc.now) (sparc_of self.old) (sparc_of self.new)
            (I.left input.old) (I.left input.new) (O.held out.old) (O.held out.new)
            (faults (I.faults input.old) (O.faults out.old)) (faults (I.faults input.new) (O.faults out.new)) result }
        ensures unread { asks (sparc_of self.old) (fetched (code_of code.now) (grouped_of sparc.now) (sparc_of self.old))
            ≡ false → input.new ≡ input.old }
        ensures unwritten { byte_put (fetched (code_of code.now) (grouped_of sparc.now) (sparc_of self.old)) ≡ None
            → out.new ≡ out.old }
        ensures later_input { I.faults input.old ≤ I.faults input.new }
        ensures later_output { O.faults out.old ≤ O.faults out.new }
    {
        let Some(cell) = cell_at(cells, self.pc) else {
            return self.stuck();
        };
        let Some(instr) = cell.instr else {
            return self.stuck();
        };
        match cell.group {
            Some(number) => self.start_group(code, number, instr, input, out),
            None => self.perform(code, instr, input, out),
        }
    }
}
