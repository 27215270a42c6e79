// From instructions to words.

ghost use Rattle.std.specs.Prelude.{◌≡◌, ℕ, ◌+◌, ◌*◌, ◌<◌, ◌^◌, Some};
ghost use Rattle.tb_sparc.specs.Range.{FitsIn, IsInRange, IsOperand};
ghost use Rattle.tb_sparc.specs.Word.{code_of, format3, instr_of, operand_bits, signed_bits, word_of};

use crate::instr::{AluOp, Operand, SparcInstr};

/// The word of an instruction whose fields are in range.
pub fn encode(instr: SparcInstr) -> u32
    requires { IsInRange instr }
    ensures word { result ≡ word_of instr }
    ensures decodes { instr_of result ≡ Some instr }
{
    word_from(instr)
}

// The word alone, by its format.
fn word_from(instr: SparcInstr) -> u32
    requires { IsInRange instr }
    ensures { result ≡ word_of instr }
{
    match instr {
        SparcInstr::Call(distance) => 0x4000_0000 + signed30(distance),
        SparcInstr::Sethi(rd, imm22) => (rd as u32 * 8 + 4) * 0x40_0000 + imm22,
        SparcInstr::Branch(condition, annul, distance) => {
            ((annul as u32 * 16 + condition as u32) * 8 + 2) * 0x40_0000 + signed22(distance)
        }
        SparcInstr::Alu(op, rd, rs1, second) => pack(2, rd, alu_code(op), rs1, low(second)),
        SparcInstr::RdY(rd) => pack(2, rd, 0x28, 0, 0),
        SparcInstr::WrY(rs1, second) => pack(2, 0, 0x30, rs1, low(second)),
        SparcInstr::Jmpl(rd, rs1, second) => pack(2, rd, 0x38, rs1, low(second)),
        SparcInstr::Load(byte, rd, rs1, second) => pack(3, rd, byte as u32, rs1, low(second)),
        SparcInstr::Store(byte, rd, rs1, second) => pack(3, rd, 4 + byte as u32, rs1, low(second)),
        SparcInstr::Trap(service) => pack(2, 8, 0x3a, 0, 0x2000 + service as u32),
    }
}

// The third format, of which low holds the lowest 14 bits.
fn pack(op: u32, rd: u8, op3: u32, rs1: u8, low: u32) -> u32
    requires op { op < 4 }
    requires rd { rd < 32 }
    requires op3 { op3 < 64 }
    requires rs1 { rs1 < 32 }
    requires low { low < 2 ^ 14 }
    ensures { result ≡ format3 op rd op3 rs1 low }
{
    op << 30 | (rd as u32) << 25 | op3 << 19 | (rs1 as u32) << 14 | low
}

// Bit 13 and below, for a second operand.
fn low(second: Operand) -> u32
    requires { IsOperand second }
    ensures { result ≡ operand_bits second }
{
    match second {
        Operand::Reg(register) => register as u32,
        Operand::Imm(value) => 0x2000 + signed13(value),
    }
}

fn signed13(value: i16) -> u32
    requires { FitsIn 13 value }
    ensures { result ≡ signed_bits 13 value }
{
    if value < 0 {
        (value + 0x2000) as u32
    } else {
        value as u32
    }
}

fn signed22(value: i32) -> u32
    requires { FitsIn 22 value }
    ensures { result ≡ signed_bits 22 value }
{
    if value < 0 {
        (value + 0x40_0000) as u32
    } else {
        value as u32
    }
}

fn signed30(value: i32) -> u32
    requires { FitsIn 30 value }
    ensures { result ≡ signed_bits 30 value }
{
    if value < 0 {
        (value + 0x4000_0000) as u32
    } else {
        value as u32
    }
}

fn alu_code(op: AluOp) -> u32
    ensures { result ≡ code_of op }
{
    match op {
        AluOp::Add => 0x00,
        AluOp::And => 0x01,
        AluOp::Or => 0x02,
        AluOp::Xor => 0x03,
        AluOp::Sub => 0x04,
        AluOp::Smul => 0x0b,
        AluOp::Sdiv => 0x0f,
        AluOp::AddCc => 0x10,
        AluOp::AndCc => 0x11,
        AluOp::OrCc => 0x12,
        AluOp::SubCc => 0x14,
        AluOp::TaddCc => 0x20,
        AluOp::TsubCc => 0x21,
        AluOp::Sll => 0x25,
        AluOp::Srl => 0x26,
        AluOp::Sra => 0x27,
    }
}
