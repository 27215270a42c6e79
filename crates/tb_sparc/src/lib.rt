//! The words of SPARC V8 that compiled code is made of: their instructions, the encoder and the decoder; and the
//! machine that runs them: code with its group starts, and in specs/ what a step does (`SparcStep`).
//!
//! The formats and codes are those of The SPARC Architecture Manual, Version 8, chapter 5 and appendix F,
//! cut to the instructions that the code generator emits.
#![tactic(auto)]

mod code;
mod codes;
mod decoder;
mod encoder;
pub mod examples;
mod instr;

pub use code::{SparcCode, WordRow};
pub use codes::Codes;
pub use decoder::decode;
pub use encoder::encode;
pub use instr::{AluOp, Operand, SparcInstr};

#[cfg(test)]
mod tests {
    use super::*;

    // Words as an assembler for SPARC V8 writes them.
    #[test]
    fn words_of_the_manual(rt: HostRuntime) {
        let rows = [
            // sethi 0, %g0
            (0x0100_0000, SparcInstr::Sethi(0, 0)),
            // add %g1, 4, %g1
            (
                0x8200_6004,
                SparcInstr::Alu(AluOp::Add, 1, 1, Operand::Imm(4)),
            ),
            // ld [%o6 + 8], %l0
            (
                0xe003_a008,
                SparcInstr::Load(false, 16, 14, Operand::Imm(8)),
            ),
            // ba,a to the second word from here
            (0x3080_0002, SparcInstr::Branch(8, true, 2)),
            // jmpl %o7 + 8, %g0
            (0x81c3_e008, SparcInstr::Jmpl(0, 15, Operand::Imm(8))),
            // taddcc %l1, %l2, %o0
            (
                0x9104_4012,
                SparcInstr::Alu(AluOp::TaddCc, 8, 17, Operand::Reg(18)),
            ),
            // ta 0
            (0x91d0_2000, SparcInstr::Trap(0)),
        ];
        for (word, instr) in rows {
            let decoded = decode(word);
            assert_eq!(rt; decoded, Some(instr), "at {word:08x}");
            if let Some(instr) = decoded {
                assert_eq!(rt; encode(instr), word);
            }
        }
    }

    // ta 7, an add with reserved bits, and an instruction that compiled code does not use (umul).
    #[test]
    fn words_outside_the_table(rt: HostRuntime) {
        for word in [0x91d0_2007, 0x8200_4044, 0x8050_4002] {
            assert_eq!(rt; decode(word), None, "at {word:08x}");
        }
    }
}
