// Instructions in the assembly language of SPARC V8, as the GNU assembler reads it.

use std::fmt;
use tb_sparc::{AluOp, Operand, SparcInstr};

/// Writes an instruction by its own name and with every field, and never by a synthetic name such as `mov`.
#[derive(Clone, Copy)]
pub struct Assembly(pub SparcInstr);

impl fmt::Display for Assembly {
    fn fmt<W: fmt::Write>(&self, f: &mut fmt::Formatter<W>) -> fmt::Result {
        match self.0 {
            SparcInstr::Call(distance) => write!(f, "call {}", Target(distance)),
            SparcInstr::Sethi(rd, bits) => write!(f, "sethi {bits}, {}", Register(rd)),
            SparcInstr::Branch(condition, annul, distance) => {
                let annul = if annul { ",a" } else { "" };
                write!(
                    f,
                    "b{}{annul} {}",
                    condition_name(condition),
                    Target(distance)
                )
            }
            SparcInstr::Alu(op, rd, rs1, second) => {
                write!(
                    f,
                    "{} {}, {}, {}",
                    op_name(op),
                    Register(rs1),
                    Second(second),
                    Register(rd)
                )
            }
            SparcInstr::RdY(rd) => write!(f, "rd %y, {}", Register(rd)),
            SparcInstr::WrY(rs1, second) => write!(
                f,
                "wr {}, {}, %y",
                Register(rs1),
                Second(second)
            ),
            SparcInstr::Jmpl(rd, rs1, second) => {
                write!(
                    f,
                    "jmpl {} + {}, {}",
                    Register(rs1),
                    Second(second),
                    Register(rd)
                )
            }
            SparcInstr::Load(byte, rd, rs1, second) => {
                let name = if byte { "ldub" } else { "ld" };
                write!(
                    f,
                    "{name} [{} + {}], {}",
                    Register(rs1),
                    Second(second),
                    Register(rd)
                )
            }
            SparcInstr::Store(byte, rd, rs1, second) => {
                let name = if byte { "stb" } else { "st" };
                write!(
                    f,
                    "{name} {}, [{} + {}]",
                    Register(rd),
                    Register(rs1),
                    Second(second)
                )
            }
            SparcInstr::Trap(service) => write!(f, "ta {service}"),
        }
    }
}

// %r0 to %r31, as %g, %o, %l and %i of 0 to 7.
#[derive(Clone, Copy)]
struct Register(u8);

impl fmt::Display for Register {
    fn fmt<W: fmt::Write>(&self, f: &mut fmt::Formatter<W>) -> fmt::Result {
        let number = self.0 % 8;
        match self.0 / 8 {
            0 => write!(f, "%g{number}"),
            1 => write!(f, "%o{number}"),
            2 => write!(f, "%l{number}"),
            _ => write!(f, "%i{number}"),
        }
    }
}

#[derive(Clone, Copy)]
struct Second(Operand);

impl fmt::Display for Second {
    fn fmt<W: fmt::Write>(&self, f: &mut fmt::Formatter<W>) -> fmt::Result {
        match self.0 {
            Operand::Reg(register) => write!(f, "{}", Register(register)),
            Operand::Imm(value) => write!(f, "{value}"),
        }
    }
}

// A distance in words from the instruction itself, which assembly language gives in bytes.
#[derive(Clone, Copy)]
struct Target(i32);

impl fmt::Display for Target {
    fn fmt<W: fmt::Write>(&self, f: &mut fmt::Formatter<W>) -> fmt::Result {
        let bytes = i64::from(self.0) * 4;
        write!(f, ".{bytes:+}")
    }
}

fn condition_name(condition: u8) -> &'static str {
    match condition {
        0 => "n",
        1 => "e",
        2 => "le",
        3 => "l",
        4 => "leu",
        5 => "cs",
        6 => "neg",
        7 => "vs",
        8 => "a",
        9 => "ne",
        10 => "g",
        11 => "ge",
        12 => "gu",
        13 => "cc",
        14 => "pos",
        _ => "vc",
    }
}

fn op_name(op: AluOp) -> &'static str {
    match op {
        AluOp::Add => "add",
        AluOp::And => "and",
        AluOp::Or => "or",
        AluOp::Xor => "xor",
        AluOp::Sub => "sub",
        AluOp::Smul => "smul",
        AluOp::Sdiv => "sdiv",
        AluOp::AddCc => "addcc",
        AluOp::AndCc => "andcc",
        AluOp::OrCc => "orcc",
        AluOp::SubCc => "subcc",
        AluOp::TaddCc => "taddcc",
        AluOp::TsubCc => "tsubcc",
        AluOp::Sll => "sll",
        AluOp::Srl => "srl",
        AluOp::Sra => "sra",
    }
}
