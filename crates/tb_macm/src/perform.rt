//! One match on the instruction.

use super::Step;
use super::state::State;
use tb_base::{Sink, Source};
use tb_mac::{Instr, MacCode, Word, fetch, primitive_at};
use tb_prim::{Cause, Prim, Stop};

impl State {
    ghost use Rattle.std.specs.Prelude.{◌≡◌, ◌<◌, ◌≤◌, ◌^◌, length, None, false};
    ghost use Rattle.tb_mac.specs.CodeOf.{code_of};
    ghost use Rattle.tb_mac.specs.Layout.{addresses};
    ghost use Rattle.tb_mac.specs.Rules.{InstrOk};
    ghost use Rattle.tb_mac.specs.MacStep.{static, apply_0, apply_1, apply_2, apply_3, perform, fetched};
    ghost use Rattle.tb_macm.specs.States.{mac_of};
    ghost use Rattle.tb_macm.specs.Steps.{StepDoes, asks, byte_put, faults};
    ghost use Rattle.tb_macm.specs.calls.Quiet.{Does, InputDoes, OutputDoes};

    /// A register gets the pointer with this tag to a static object.
    fn load_static(&mut self, code: &MacCode, statics: &[u32], a: u8, tag: u8, x: u32) -> Step
        requires register { a ≤ 16 }
        requires room { self.old.pc < 2 ^ 24 }
        requires statics { statics.now ≡ addresses code.now.parts }
        ensures { Does (static (code_of code.now) a tag x (mac_of self.old)) (mac_of self.old) (mac_of self.new) result }
    {
        match statics.get(x as usize) {
            Some(at) => self.set_register(a, Word::Pointer(tag, *at)),
            None => self.stuck(),
        }
    }

    /// A register gets the value of a primitive without operands.
    fn apply_0<I: Source>(&mut self, code: &MacCode, a: u8, x: u32, input: &mut I) -> Step
        requires register { a ≤ 16 }
        requires room { self.old.pc < 2 ^ 24 }
        ensures does { InputDoes (apply_0 (code_of code.now) a x (mac_of self.old)) (mac_of self.old)
            (mac_of self.new) (I.left input.old) (I.left input.new) (I.faults input.old) (I.faults input.new) result }
        ensures later { I.faults input.old ≤ I.faults input.new }
        ensures untouched { asks (mac_of self.old) (apply_0 (code_of code.now) a x (mac_of self.old)) ≡ false
            → input.new ≡ input.old }
    {
        match primitive_at(x) {
            Some(Prim::ReadChar) => self.read(a, input),
            Some(Prim::PeekChar) => self.peek(a, input),
            Some(Prim::Unspecified) => self.set_register(a, Word::Special(3)),
            _ => self.stuck(),
        }
    }

    /// A register gets the value of a primitive of one register, or a byte is put.
    fn apply_1<O: Sink>(&mut self, code: &MacCode, a: u8, b: u8, x: u32, out: &mut O) -> Step
        requires target { a ≤ 16 }
        requires operand { b ≤ 16 }
        requires room { self.old.pc < 2 ^ 24 }
        ensures does { OutputDoes (apply_1 (code_of code.now) a b x (mac_of self.old)) (mac_of self.old)
            (mac_of self.new) (O.held out.old) (O.held out.new) (O.faults out.old) (O.faults out.new) result }
        ensures later { O.faults out.old ≤ O.faults out.new }
        ensures untouched { byte_put (apply_1 (code_of code.now) a b x (mac_of self.old)) ≡ None → out.new ≡ out.old }
    {
        let u = self.registers[b as usize];
        match primitive_at(x) {
            Some(Prim::WriteChar) => match u {
                Word::Char(byte) => self.write(a, byte, out),
                _ => self.fail(code, Cause::WrongType),
            },
            Some(prim) => {
                let answer = self.unary(prim, u);
                self.carry_out(code, a, answer)
            }
            None => self.stuck(),
        }
    }

    /// A register gets the value of a primitive of two registers.
    fn apply_2(&mut self, code: &MacCode, a: u8, b: u8, c: u8, x: u32) -> Step
        requires target { a ≤ 16 }
        requires first { b ≤ 16 }
        requires second { c ≤ 16 }
        requires room { self.old.pc < 2 ^ 24 }
        ensures { Does (apply_2 (code_of code.now) a b c x (mac_of self.old)) (mac_of self.old) (mac_of self.new) result }
    {
        match primitive_at(x) {
            Some(prim) => {
                let answer = self.binary(
                    prim,
                    self.registers[b as usize],
                    self.registers[c as usize],
                );
                self.carry_out(code, a, answer)
            }
            None => self.stuck(),
        }
    }

    /// The primitive of three registers; RESULT becomes unspecified.
    fn apply_3(&mut self, code: &MacCode, a: u8, b: u8, c: u8, x: u32) -> Step
        requires first { a ≤ 16 }
        requires second { b ≤ 16 }
        requires third { c ≤ 16 }
        requires room { self.old.pc < 2 ^ 24 }
        ensures { Does (apply_3 (code_of code.now) a b c x (mac_of self.old)) (mac_of self.old) (mac_of self.new) result }
    {
        match primitive_at(x) {
            Some(prim) => {
                let (u, v) = (self.registers[a as usize], self.registers[b as usize]);
                let answer = self.ternary(prim, u, v, self.registers[c as usize]);
                self.carry_out(code, 16, answer)
            }
            None => self.stuck(),
        }
    }

    /// Makes the step of this instruction.
    #[tactic(auto, using(crate::proofs::StepLaws::quiet_step, crate::proofs::StepLaws::input_step, crate::proofs::StepLaws::output_step))]
    fn perform<I: Source, O: Sink>(
        &mut self,
        code: &MacCode,
        statics: &[u32],
        instr: Instr,
        input: &mut I,
        out: &mut O,
    ) -> Step
        requires fields { InstrOk code.now.parts (length code.now.code) instr }
        requires room { self.old.pc < 2 ^ 24 }
        requires statics { statics.now ≡ addresses code.now.parts }
        ensures does { StepDoes (perform (code_of code.now) (mac_of self.old) instr) (mac_of self.old)
            (mac_of self.new) (I.left input.old) (I.left input.new) (O.held out.old) (O.held out.new)
            (faults (I.faults input.old) (O.faults out.old)) (faults (I.faults input.new) (O.faults out.new)) result }
        ensures unread { asks (mac_of self.old) (perform (code_of code.now) (mac_of self.old) instr) ≡ false
            → input.new ≡ input.old }
        ensures unwritten { byte_put (perform (code_of code.now) (mac_of self.old) instr) ≡ None → out.new ≡ out.old }
        ensures later_input { I.faults input.old ≤ I.faults input.new }
        ensures later_output { O.faults out.old ≤ O.faults out.new }
    {
        match instr {
            Instr::Proc(x) => self.proc(x),
            Instr::Args(a) => self.args(code, a),
            Instr::ArgsGe(a) => self.args_ge(code, a),
            Instr::Save(x) => self.save(x),
            Instr::SetRtn(x) => self.set_return(x),
            Instr::Load(a, x) => self.load(a, x),
            Instr::Store(a, x) => self.store(a, x),
            Instr::Pop(x) => self.pop(x),
            Instr::Return => self.go_back(),
            Instr::Invoke(a) => self.invoke(code, a),
            Instr::Jump(x) => self.jump(x),
            Instr::Brf(a, x) => self.branch(a, x),
            Instr::Imm(a, x) => self.immediate(a, x),
            Instr::Stat(a, b, x) => self.load_static(code, statics, a, b, x),
            Instr::Move(a, b) => self.copy(a, b),
            Instr::GlobalGet(a, x) => self.global_get(code, a, x),
            Instr::GlobalSet(a, x) => self.global_set(code, a, x),
            Instr::GlobalDef(a, x) => self.global_def(a, x),
            Instr::Cell(a, b) => self.make_cell(a, b),
            Instr::CellGet(a, b) => self.cell_get(code, a, b),
            Instr::CellSet(a, b) => self.cell_set(a, b),
            Instr::Clo(a, n, x) => self.make_procedure(a, n, x),
            Instr::Capt(a, b, x) => self.captured(a, b, x),
            Instr::CaptSet(a, b, x) => self.set_captured(a, b, x),
            Instr::Apply => self.apply(code),
            Instr::End => Step::Stopped(Stop::End),
            Instr::Op0(a, x) => self.apply_0(code, a, x, input),
            Instr::Op1(a, b, x) => self.apply_1(code, a, b, x, out),
            Instr::Op2(a, b, c, x) => self.apply_2(code, a, b, c, x),
            Instr::Op3(a, b, c, x) => self.apply_3(code, a, b, c, x),
        }
    }

    /// Makes the step of the instruction that stands at the pc.
    #[tactic(auto, using(crate::proofs::StepLaws::quiet_step))]
    pub fn step<I: Source, O: Sink>(
        &mut self,
        code: &MacCode,
        statics: &[u32],
        input: &mut I,
        out: &mut O,
    ) -> Step
        requires { statics.now ≡ addresses code.now.parts }
        ensures does { StepDoes (fetched (code_of code.now) (mac_of self.old)) (mac_of self.old) (mac_of self.new)
            (I.left input.old) (I.left input.new) (O.held out.old) (O.held out.new)
            (faults (I.faults input.old) (O.faults out.old)) (faults (I.faults input.new) (O.faults out.new)) result }
        ensures unread { asks (mac_of self.old) (fetched (code_of code.now) (mac_of self.old)) ≡ false
            → input.new ≡ input.old }
        ensures unwritten { byte_put (fetched (code_of code.now) (mac_of self.old)) ≡ None → out.new ≡ out.old }
        ensures later_input { I.faults input.old ≤ I.faults input.new }
        ensures later_output { O.faults out.old ≤ O.faults out.new }
    {
        match fetch(code, self.pc) {
            Some(instr) => self.perform(code, statics, instr, input, out),
            None => self.stuck(),
        }
    }
}
