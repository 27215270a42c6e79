//! The state of the machine, and the steps of operations and transfers.

ghost use Rattle.std.specs.Prelude.{◌<◌, ◌≤◌, ◌^◌, vec_len};

use super::arithmetic::{
    after_add, after_logic, after_sub, after_tagged_add, after_tagged_sub, behind, divided, joined,
    moved, product, shift_left, shift_right, shift_signed,
};
use tb_macm::Step;
use tb_prim::{Stop, Taken};
use tb_sparc::{AluOp, Codes, Operand};

/// The state of the machine: the numbers of the word that is next and of the one behind it, the registers, Y, the
/// condition codes, the data words, the instruction of the last group start, and what is known of the input ahead.
#[derive(Drop)]
pub struct State {
    pub pc: u32,
    pub npc: u32,
    pub registers: [u32; 32],
    pub y: u32,
    pub codes: Codes,
    pub memory: Vec<u32>,
    pub group: u32,
    pub ahead: Option<Taken>,
    pub ghost here: { pc < 2 ^ 30 },
    pub ghost next: { npc < 2 ^ 30 },
    pub ghost words: { vec_len memory ≤ 33554432 },
}

impl State {
    ghost use Rattle.std.specs.Prelude.{◌≡◌, ◌<◌, ◌^◌, cond, None, slice_get, Some};
    ghost use Rattle.tb_sparc.specs.SparcStep.{Goes, advance, branch, divide, jump, link, operand, operate, put, put_codes, read, skip, stuck};
    ghost use Rattle.tb_sparcm.specs.States.{sparc_of};
    ghost use Rattle.tb_sparcm.specs.calls.Quiet.{Does, IsReadable};

    /// A register.
    pub fn read(&self, r: u8) -> u32
        requires { r < 32 }
        ensures { result ≡ read (sparc_of self.now).registers r }
    {
        self.registers[r as usize]
    }

    /// A register, as it stands in the list of them.
    pub fn register(&self, r: u8) -> u32
        requires { r < 32 }
        ensures { slice_get (sparc_of self.now).registers r ≡ Some result }
    {
        self.registers[r as usize]
    }

    /// The second operand.
    pub fn operand(&self, second: Operand) -> u32
        requires { IsReadable second }
        ensures { result ≡ operand (sparc_of self.now) second }
    {
        match second {
            Operand::Reg(r) => self.read(r),
            Operand::Imm(n) => i32::from(n).cast_unsigned(),
        }
    }

    /// No step can be made.
    pub fn stuck(&self) -> Step
        ensures { Does (stuck (sparc_of self.now)) (sparc_of self.now) (sparc_of self.now) result }
    {
        Step::Stopped(Stop::Stuck { pc: self.pc * 4 })
    }

    /// The next word follows.
    pub fn advance(&mut self) -> Step
        ensures state { sparc_of self.new ≡ advance (sparc_of self.old) }
        ensures result { result ≡ Step.Went None }
    {
        self.pc = self.npc;
        self.npc = behind(self.npc);
        Step::Went(None)
    }

    /// A register is written, and the next word follows.
    pub fn put(&mut self, rd: u8, w: u32) -> Step
        requires { rd < 32 }
        ensures state { sparc_of self.new ≡ put rd w (sparc_of self.old) }
        ensures result { result ≡ Step.Went None }
    {
        self.registers[rd as usize] = w;
        self.registers[0] = 0;
        self.advance()
    }

    /// The condition codes too.
    fn put_codes(&mut self, rd: u8, w: u32, codes: Codes) -> Step
        requires { rd < 32 }
        ensures state { sparc_of self.new ≡ put_codes rd w codes (sparc_of self.old) }
        ensures result { result ≡ Step.Went None }
    {
        self.codes = codes;
        self.put(rd, w)
    }

    /// A transfer that leaves the address of its own word in a register.
    pub fn link(&mut self, rd: u8, target: u32) -> Step
        requires register { rd < 32 }
        requires small { target < 2 ^ 30 }
        ensures state { sparc_of self.new ≡ link rd target (sparc_of self.old) }
        ensures result { result ≡ Step.Went None }
    {
        self.registers[rd as usize] = self.pc * 4;
        self.registers[0] = 0;
        self.pc = self.npc;
        self.npc = target;
        Step::Went(None)
    }

    /// A jump to an address.
    pub fn jump(&mut self, rd: u8, target: u32) -> Step
        requires { rd < 32 }
        ensures { Does (jump rd target (sparc_of self.old)) (sparc_of self.old) (sparc_of self.new) result }
    {
        if target % 4 == 0 {
            self.link(rd, target / 4)
        } else {
            self.stuck()
        }
    }

    /// A branch that is not taken.
    fn pass(&mut self, annul: bool) -> Step
        ensures { Does (Goes (cond annul (skip (sparc_of self.old)) (advance (sparc_of self.old)))) (sparc_of self.old) (sparc_of self.new) result }
    {
        if annul {
            self.pc = behind(self.npc);
            self.npc = behind(self.pc);
            Step::Went(None)
        } else {
            self.advance()
        }
    }

    /// A branch, by whether its condition holds, is annulled and is the one that always holds.
    pub fn branch(&mut self, holds: bool, annul: bool, always: bool, distance: i32) -> Step
        ensures { Does (Goes (branch holds annul always distance (sparc_of self.old))) (sparc_of self.old) (sparc_of self.new) result }
    {
        if !holds {
            return self.pass(annul);
        }
        let target = moved(self.pc, distance);
        if annul && always {
            self.pc = target;
            self.npc = behind(target);
        } else {
            self.pc = self.npc;
            self.npc = target;
        }
        Step::Went(None)
    }

    /// Y joined with an operand is divided.
    fn divide(&mut self, rd: u8, a: u32, b: u32) -> Step
        requires { rd < 32 }
        ensures { Does (divide rd a b (sparc_of self.old)) (sparc_of self.old) (sparc_of self.new) result }
    {
        if b == 0 {
            return self.stuck();
        }
        match divided(joined(self.y, a), i64::from(b.cast_signed())) {
            Some(quotient) => self.put(rd, quotient.cast_unsigned()),
            None => self.stuck(),
        }
    }

    /// The low word of a product goes to a register, and the high word to Y.
    fn multiply(&mut self, rd: u8, a: u32, b: u32) -> Step
        requires { rd < 32 }
        ensures { Does (operate AluOp.Smul rd a b (sparc_of self.old)) (sparc_of self.old) (sparc_of self.new) result }
    {
        let bits = product(a, b);
        self.y = (bits >> 32) as u32;
        self.put(rd, (bits % 0x1_0000_0000) as u32)
    }

    /// An operation on two words.
    pub fn operate(&mut self, op: AluOp, rd: u8, a: u32, b: u32) -> Step
        requires { rd < 32 }
        ensures { Does (operate op rd a b (sparc_of self.old)) (sparc_of self.old) (sparc_of self.new) result }
    {
        match op {
            AluOp::Add => self.put(rd, a.wrapping_add(b)),
            AluOp::And => self.put(rd, a & b),
            AluOp::Or => self.put(rd, a | b),
            AluOp::Xor => self.put(rd, a ^ b),
            AluOp::Sub => self.put(rd, a.wrapping_sub(b)),
            AluOp::Smul => self.multiply(rd, a, b),
            AluOp::Sdiv => self.divide(rd, a, b),
            AluOp::AddCc => self.put_codes(rd, a.wrapping_add(b), after_add(a, b)),
            AluOp::AndCc => self.put_codes(rd, a & b, after_logic(a & b)),
            AluOp::OrCc => self.put_codes(rd, a | b, after_logic(a | b)),
            AluOp::SubCc => self.put_codes(rd, a.wrapping_sub(b), after_sub(a, b)),
            AluOp::TaddCc => self.put_codes(rd, a.wrapping_add(b), after_tagged_add(a, b)),
            AluOp::TsubCc => self.put_codes(rd, a.wrapping_sub(b), after_tagged_sub(a, b)),
            AluOp::Sll => self.put(rd, shift_left(a, b)),
            AluOp::Srl => self.put(rd, shift_right(a, b)),
            AluOp::Sra => self.put(rd, shift_signed(a, b)),
        }
    }
}
