// From words to instructions.

ghost use Rattle.std.specs.Prelude.{◌≡◌, ℕ, ◌<◌, ◌^◌, ◌↔◌, IsSome, IfSome, Some};
ghost use Rattle.tb_sparc.specs.Range.{IsInRange, is_shift};
ghost use Rattle.tb_sparc.specs.Table.{IsWord};
ghost use Rattle.tb_sparc.specs.Word.{count_from, field, instr_of, memory_from, op2_from, op3_from, operand_from, operation_from, signed_from, word_of};

use crate::instr::{AluOp, Operand, SparcInstr};

/// The instruction of a word, or `None` where the word is in no row of the table.
pub fn decode(word: u32) -> Option<SparcInstr>
    ensures value { result ≡ instr_of word }
    ensures accepts { IsSome result ↔ IsWord word }
    ensures encodes_back { IfSome result (λ instr. word_of instr ≡ word) }
    ensures in_range { IfSome result IsInRange }
    ensures every_encoding { (instr : SparcInstr) → IsInRange instr → word_of instr ≡ word
        → result ≡ Some instr }
{
    instr_from(word)
}

// The instruction alone, by the format of the word.
fn instr_from(word: u32) -> Option<SparcInstr>
    ensures { result ≡ instr_of word }
{
    match op_of(word) {
        0 => short(rd_of(word), op2_of(word), low22_of(word)),
        1 => Some(SparcInstr::Call(signed30(low30_of(word)))),
        2 => arithmetic(rd_of(word), op3_of(word), rs1_of(word), low14_of(word)),
        _ => memory(rd_of(word), op3_of(word), rs1_of(word), low14_of(word)),
    }
}

fn op_of(word: u32) -> u32
    ensures { result ≡ field word 31 30 }
{
    word >> 30
}

fn rd_of(word: u32) -> u8
    ensures { result ≡ field word 29 25 }
{
    ((word >> 25) & 31) as u8
}

fn op2_of(word: u32) -> u32
    ensures { result ≡ field word 24 22 }
{
    (word >> 22) & 7
}

fn op3_of(word: u32) -> u32
    ensures { result ≡ field word 24 19 }
{
    (word >> 19) & 63
}

fn rs1_of(word: u32) -> u8
    ensures { result ≡ field word 18 14 }
{
    ((word >> 14) & 31) as u8
}

fn low14_of(word: u32) -> u32
    ensures { result ≡ field word 13 0 }
{
    word & 0x3fff
}

fn low22_of(word: u32) -> u32
    ensures { result ≡ field word 21 0 }
{
    word & 0x3f_ffff
}

fn low30_of(word: u32) -> u32
    ensures { result ≡ field word 29 0 }
{
    word & 0x3fff_ffff
}

fn short(rd: u8, op2: u32, low: u32) -> Option<SparcInstr>
    requires rd { rd < 32 }
    requires low { low < 2 ^ 22 }
    ensures { result ≡ op2_from rd op2 low }
{
    match op2 {
        4 => Some(SparcInstr::Sethi(rd, low)),
        2 => Some(SparcInstr::Branch(rd % 16, rd / 16 == 1, signed22(low))),
        _ => None,
    }
}

fn arithmetic(rd: u8, op3: u32, rs1: u8, low: u32) -> Option<SparcInstr>
    requires { low < 2 ^ 14 }
    ensures { result ≡ op3_from rd op3 rs1 low }
{
    match op3 {
        0x38 => Some(SparcInstr::Jmpl(rd, rs1, operand(low)?)),
        0x28 => if rs1 == 0 && low == 0 {
            Some(SparcInstr::RdY(rd))
        } else {
            None
        },
        0x30 => if rd == 0 {
            Some(SparcInstr::WrY(rs1, operand(low)?))
        } else {
            None
        },
        0x3a => {
            if rd == 8 && rs1 == 0 && low >= 0x2000 && low < 0x2007 {
                Some(SparcInstr::Trap((low - 0x2000) as u8))
            } else {
                None
            }
        }
        _ => {
            let op = alu_op(op3)?;
            let second = if takes_count(op) {
                count(low)?
            } else {
                operand(low)?
            };
            Some(SparcInstr::Alu(op, rd, rs1, second))
        }
    }
}

fn memory(rd: u8, op3: u32, rs1: u8, low: u32) -> Option<SparcInstr>
    requires { low < 2 ^ 14 }
    ensures { result ≡ memory_from rd op3 rs1 low }
{
    let second = operand(low)?;
    match op3 {
        0 => Some(SparcInstr::Load(false, rd, rs1, second)),
        1 => Some(SparcInstr::Load(true, rd, rs1, second)),
        4 => Some(SparcInstr::Store(false, rd, rs1, second)),
        5 => Some(SparcInstr::Store(true, rd, rs1, second)),
        _ => None,
    }
}

fn operand(low: u32) -> Option<Operand>
    requires { low < 2 ^ 14 }
    ensures { result ≡ operand_from low }
{
    if low < 32 {
        Some(Operand::Reg(low as u8))
    } else if low < 0x2000 {
        None
    } else if low < 0x3000 {
        Some(Operand::Imm((low - 0x2000) as i16))
    } else {
        Some(Operand::Imm(low as i16 - 0x4000))
    }
}

fn count(low: u32) -> Option<Operand>
    requires { low < 2 ^ 14 }
    ensures { result ≡ count_from low }
{
    if low < 32 {
        Some(Operand::Reg(low as u8))
    } else if low >= 0x2000 && low < 0x2020 {
        Some(Operand::Imm((low - 0x2000) as i16))
    } else {
        None
    }
}

fn takes_count(op: AluOp) -> bool
    ensures { result ≡ is_shift op }
{
    matches!(op, AluOp::Sll | AluOp::Srl | AluOp::Sra)
}

fn alu_op(op3: u32) -> Option<AluOp>
    ensures { result ≡ operation_from op3 }
{
    match op3 {
        0x00 => Some(AluOp::Add),
        0x01 => Some(AluOp::And),
        0x02 => Some(AluOp::Or),
        0x03 => Some(AluOp::Xor),
        0x04 => Some(AluOp::Sub),
        0x0b => Some(AluOp::Smul),
        0x0f => Some(AluOp::Sdiv),
        0x10 => Some(AluOp::AddCc),
        0x11 => Some(AluOp::AndCc),
        0x12 => Some(AluOp::OrCc),
        0x14 => Some(AluOp::SubCc),
        0x20 => Some(AluOp::TaddCc),
        0x21 => Some(AluOp::TsubCc),
        0x25 => Some(AluOp::Sll),
        0x26 => Some(AluOp::Srl),
        0x27 => Some(AluOp::Sra),
        _ => None,
    }
}

fn signed22(bits: u32) -> i32
    requires { bits < 2 ^ 22 }
    ensures { result ≡ signed_from 22 bits }
{
    if bits < 0x20_0000 {
        bits as i32
    } else {
        bits as i32 - 0x40_0000
    }
}

fn signed30(bits: u32) -> i32
    requires { bits < 2 ^ 30 }
    ensures { result ≡ signed_from 30 bits }
{
    if bits < 0x2000_0000 {
        bits as i32
    } else {
        bits as i32 - 0x4000_0000
    }
}
