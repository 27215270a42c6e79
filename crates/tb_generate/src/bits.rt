//! The registers and slots of live maps, a bit each.
ghost use Rattle.std.specs.Prelude.{◌≡◌, ◌<◌, IfOk, length};
ghost use Rattle.tb_generate.specs.calls.Bits.{number_from, no_registers, one_register, with_bit};

use std::alloc::Global;
use tb_prim::{NoMemory, Row};

/// Whether each of the registers 0 to 16 is live.
pub(crate) type Registers = [bool; 17];

/// RESULT, where values come and go.
pub(crate) const RESULT: u8 = 16;

/// No register is live.
pub(crate) fn no_registers() -> Registers
    ensures { result ≡ no_registers }
{
    [false; 17]
}

/// The registers and this one.
pub(crate) fn with_register(registers: Registers, register: u8) -> Registers
    ensures { result ≡ with_bit registers register }
{
    let mut registers = registers;
    if usize::from(register) < 17 {
        registers[usize::from(register)] = true;
    }
    registers
}

/// One register is live.
pub(crate) fn one_register(register: u8) -> Registers
    ensures { result ≡ one_register register }
{
    with_register(no_registers(), register)
}

/// The number of which these are the bits.
fn number_of(bits: &[bool]) -> u32
    requires { length bits.now < 32 }
    ensures { result ≡ number_from 1 bits.now }
{
    let mut number = 0;
    let mut weight = 1;
    for bit in bits {
        if *bit {
            number += weight;
        }
        weight *= 2;
    }
    number
}

/// The number of which the registers are the bits.
pub(crate) fn register_number(registers: Registers) -> u32
    ensures { result ≡ number_from 1 registers }
{
    number_of(&registers)
}

/// A copy of slots.
pub(crate) fn copy_slots(alloc: Global, slots: &[bool]) -> Result<Row<bool>, NoMemory>
    ensures { IfOk result (λ row. row ≡ slots.now) }
{
    Ok(Row::from_vec(Vec::from_slice(alloc, slots)?))
}

/// A number as that of a register, or want of memory where it is too large.
pub(crate) fn register_of(number: usize) -> Result<u8, NoMemory>
    ensures { IfOk result (λ n. n ≡ number) }
{
    u8::try_from(number).map_err(|_| NoMemory)
}

/// A number as one of 32 bits, or want of memory where it is too large.
pub(crate) fn number_32(number: usize) -> Result<u32, NoMemory>
    ensures { IfOk result (λ n. n ≡ number) }
{
    u32::try_from(number).map_err(|_| NoMemory)
}

/// A number as one of 16 bits, or want of memory where it is too large.
pub(crate) fn number_16(number: usize) -> Result<u16, NoMemory>
    ensures { IfOk result (λ n. n ≡ number) }
{
    u16::try_from(number).map_err(|_| NoMemory)
}
