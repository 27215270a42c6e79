// Chooses instructions.

ghost use Rattle.std.specs.Prelude.{◌≡◌, true, false};
ghost use Rattle.tb_sparc.specs.Range.{IsCount, IsInRange, IsOperand, is_shift};

use tb_sparc::{AluOp, Operand, SparcInstr};

/// A linear congruential generator, of 64 bits (the multiplier and the increment are Knuth's MMIX).
#[derive(Drop)]
pub struct Generator {
    state: u64,
}

impl Generator {
    pub fn new() -> Self {
        Generator { state: 1 }
    }

    /// The next number, below 2^40: the high bits of the state, since the low ones are of short periods.
    pub fn next_number(&mut self) -> u64 {
        self.state = self
            .state
            .wrapping_mul(6364136223846793005)
            .wrapping_add(1442695040888963407);
        self.state >> 24
    }
}

/// An instruction for each number, in which every form and field occurs.
pub fn instr_from(number: u64) -> SparcInstr
    ensures { IsInRange result }
{
    let form = number % 25;
    let number = number / 25;
    let rd = (number % 32) as u8;
    let rs1 = (number / 32 % 32) as u8;
    let rest = number / 1024;
    match form {
        0 => SparcInstr::Call((number % 0x4000_0000) as i32 - 0x2000_0000),
        1 => SparcInstr::Sethi(rd, (rest % 0x40_0000) as u32),
        2 => SparcInstr::Branch(rd / 2, rd % 2 == 1, (rest % 0x40_0000) as i32 - 0x20_0000),
        3 => SparcInstr::RdY(rd),
        4 => SparcInstr::WrY(rs1, operand_from(rest)),
        5 => SparcInstr::Jmpl(rd, rs1, operand_from(rest)),
        6 => SparcInstr::Load(number / 0x4000_0000 % 2 == 1, rd, rs1, operand_from(rest)),
        7 => SparcInstr::Store(number / 0x4000_0000 % 2 == 1, rd, rs1, operand_from(rest)),
        8 => SparcInstr::Trap(rd % 7),
        9 => SparcInstr::Alu(AluOp::Sll, rd, rs1, count_from(rest)),
        10 => SparcInstr::Alu(AluOp::Srl, rd, rs1, count_from(rest)),
        11 => SparcInstr::Alu(AluOp::Sra, rd, rs1, count_from(rest)),
        _ => SparcInstr::Alu(operation_from(form), rd, rs1, operand_from(rest)),
    }
}

fn operation_from(form: u64) -> AluOp
    ensures { is_shift result ≡ false }
{
    match form {
        12 => AluOp::Add,
        13 => AluOp::And,
        14 => AluOp::Or,
        15 => AluOp::Xor,
        16 => AluOp::Sub,
        17 => AluOp::Smul,
        18 => AluOp::Sdiv,
        19 => AluOp::AddCc,
        20 => AluOp::AndCc,
        21 => AluOp::OrCc,
        22 => AluOp::SubCc,
        23 => AluOp::TaddCc,
        _ => AluOp::TsubCc,
    }
}

fn operand_from(number: u64) -> Operand
    ensures { IsOperand result }
{
    if number % 2 == 0 {
        Operand::Reg((number / 2 % 32) as u8)
    } else {
        Operand::Imm((number / 2 % 8192) as i16 - 4096)
    }
}

fn count_from(number: u64) -> Operand
    ensures { IsCount result }
{
    if number % 2 == 0 {
        Operand::Reg((number / 2 % 32) as u8)
    } else {
        Operand::Imm((number / 2 % 32) as i16)
    }
}
