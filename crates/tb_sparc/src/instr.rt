// The instructions, before they are words.

/// An operation on two operands, in the order of its code in the word (op3).
///
/// An operation named `..Cc` also sets the condition codes, and the two tagged ones set overflow where
/// either operand has a tag in its low two bits.
#[derive(Clone, Copy, Debug, PartialEq, Eq)]
pub enum AluOp {
    Add,
    And,
    Or,
    Xor,
    Sub,
    Smul,
    Sdiv,
    AddCc,
    AndCc,
    OrCc,
    SubCc,
    TaddCc,
    TsubCc,
    Sll,
    Srl,
    Sra,
}

/// The second operand: a register, 0 to 31, or a signed number of 13 bits, -4096 to 4095.
///
/// A shift takes its count as a register or as a number from 0 to 31.
#[derive(Clone, Copy, Debug, PartialEq, Eq)]
pub enum Operand {
    Reg(u8),
    Imm(i16),
}

/// An instruction of the words that compiled code uses. Registers are 0 to 31, and stand as rd, then rs1.
#[derive(Clone, Copy, Debug, PartialEq, Eq)]
pub enum SparcInstr {
    /// `call`: a distance in words from this instruction, of 30 bits with its sign.
    Call(i32),
    /// `sethi`: rd, and the upper 22 bits of the value.
    Sethi(u8, u32),
    /// A branch on the integer condition codes: the condition, 0 to 15, the annul bit, and a distance in
    /// words of 22 bits with its sign.
    Branch(u8, bool, i32),
    /// An operation: rd, rs1 and the second operand.
    Alu(AluOp, u8, u8, Operand),
    /// `rd %y`: reads Y into rd.
    RdY(u8),
    /// `wr`: writes rs1 xor the second operand to Y.
    WrY(u8, Operand),
    /// `jmpl`: jumps to rs1 plus the second operand, and writes its own address to rd.
    Jmpl(u8, u8, Operand),
    /// `ldub` where the first field is true, else `ld`: rd, and rs1 plus the second operand as the address.
    Load(bool, u8, u8, Operand),
    /// `stb` where the first field is true, else `st`: rd, and rs1 plus the second operand as the address.
    Store(bool, u8, u8, Operand),
    /// `ta`: a service of the machine, 0 to 6.
    Trap(u8),
}
