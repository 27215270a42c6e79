//! The live registers of a machine.

ghost use Rattle.std.specs.Prelude.{◌≡◌, ◌<◌, ◌≤◌, ◌^◌, Some, false, slice_get};
ghost use Rattle.tb_mac.specs.CodeOf.{code_of};
ghost use Rattle.tb_mac.specs.LiveWords.{is_counted, is_lifted, is_live_register, map_at, operand_count};
ghost use Rattle.tb_mac.specs.Words.{on_some};
ghost use Rattle.tb_space.specs.calls.Roots.{without_memory};

use super::search::Search;
use tb_mac::{Instr, LambdaEntry, MacCode, Word, fetch};
use tb_macm::MacMachine;

/// The registers that the map of an instruction calls live, one bit each.
fn live_bits(code: &MacCode, pc: u32) -> u32
    ensures bits { result ≡ on_some (map_at (code_of code.now) pc) 0 (λ map. map.regs) }
    ensures few { result < 2 ^ 17 }
{
    match code.maps.as_slice().get(pc as usize) {
        Some(map) => map.regs,
        None => 0,
    }
}

fn is_lifted(lambdas: &[LambdaEntry], number: u32) -> bool
    ensures { result ≡ is_lifted lambdas.now number }
{
    match lambdas.get(number as usize) {
        Some(lambda) => lambda.lifted,
        None => false,
    }
}

/// The operands beyond the number in RESULT are not there when this instruction is next.
fn is_counted(lambdas: &[LambdaEntry], instr: Instr) -> bool
    ensures { result ≡ is_counted lambdas.now instr }
{
    match instr {
        Instr::Proc(number) => !is_lifted(lambdas, number),
        Instr::Args(_) => true,
        Instr::ArgsGe(_) => true,
        _ => false,
    }
}

fn counts_at(code: &MacCode, pc: u32) -> bool
    ensures { result ≡ on_some (slice_get code.now.code pc) false (is_counted code.now.parts.lambdas) }
{
    match fetch(code, pc) {
        Some(instr) => is_counted(code.parts.lambdas.as_slice(), instr),
        None => false,
    }
}

/// The number of operands in RESULT, or 12 where it holds none.
fn operand_count(word: Word) -> u32
    ensures { result ≡ operand_count (Some word) }
{
    match word {
        Word::Fix(n) if n >= 0 => n as u32,
        _ => 12,
    }
}

/// The register is live, where these are the bits of the map.
fn is_live(machine: &MacMachine, bits: u32, a: u8) -> bool
    requires register { a ≤ 16 }
    requires bits { bits ≡ on_some (map_at machine.now.code machine.now.mac.pc) 0 (λ map. map.regs) }
    ensures { result ≡ is_live_register machine.now.code (without_memory machine.now.mac) a }
{
    if (bits >> a) % 2 == 0 {
        return false;
    }
    let counts = 1 <= a && a <= 12 && counts_at(machine.code(), machine.pc());
    !(counts && operand_count(machine.register(16)) < u32::from(a))
}

impl Search {
    ghost use Rattle.std.specs.Prelude.{◌≡◌, ◌≤◌, length, vec_len};
    ghost use Rattle.tb_mac.specs.LiveWords.{all_targets, live_registers};
    ghost use Rattle.tb_space.specs.calls.Noting.{noted_all};
    ghost use Rattle.tb_space.specs.calls.Roots.{without_memory};

    /// Notes where the live registers point to.
    pub fn note_registers(&mut self, machine: &MacMachine, limit: u32)
        requires { limit ≤ vec_len self.old.marks }
        ensures found { self.new.found.items ≡ noted_all limit self.old.found.items
            (all_targets (live_registers machine.now.code (without_memory machine.now.mac))) }
        ensures size { vec_len self.new.marks ≡ vec_len self.old.marks }
    {
        let bits = live_bits(machine.code(), machine.pc());
        for a in 0..17 {
            if is_live(machine, bits, a) {
                self.note_word(limit, machine.register(a));
            }
        }
    }
}
