//! Loading: the state before the first step.

ghost use Rattle.std.specs.Prelude.{◌≡◌, ◌≤◌, IfOk, length, map, slice_index, vec_len};
ghost use Rattle.tb_sparc.specs.WordBits.{word_bits};

use super::cell::cells;
use super::machine::SparcMachine;
use super::state::State;
use std::alloc::{AllocError, Global};
use tb_mac::{MacCode, Word};
use tb_macm::{LoadRefusal, MacMachine};
use tb_sparc::{Codes, SparcCode};

/// The 32 bits of a word.
fn word_bits(starts: &[u32], word: Word) -> u32
    ensures { result ≡ word_bits starts.now word }
{
    match word {
        Word::Fix(v) => v.cast_unsigned().wrapping_mul(4),
        Word::Special(number) => u32::from(number) * 256 + 2,
        Word::Char(c) => u32::from(c) * 256 + 10,
        Word::Header(kind, n) => n.wrapping_mul(256).wrapping_add(u32::from(kind)),
        Word::Pointer(tag, at) => at
            .wrapping_mul(4)
            .wrapping_add(0xc000_0000 + u32::from(tag)),
        Word::Code(number) => start_of(starts, number).wrapping_mul(4),
        Word::Raw(bytes) => u32::from_be_bytes(bytes),
    }
}

/// The word at which the group of an instruction starts.
fn start_of(starts: &[u32], number: u32) -> u32
    ensures { result ≡ slice_index starts.now number }
{
    match starts.get(number as usize) {
        Some(start) => *start,
        None => 0,
    }
}

/// The words of a machine, as data words.
fn data_words(
    alloc: Global,
    machine: &MacMachine<'_>,
    starts: &[u32],
) -> Result<Vec<u32>, AllocError>
    ensures words { IfOk result (λ v. v.items ≡ map (word_bits starts.now) machine.now.mac.memory) }
    ensures count { IfOk result (λ v. vec_len v ≡ length machine.now.mac.memory) }
{
    let count = machine.heap_words();
    let mut words = Vec::with_capacity(alloc, count as usize)?;
    for at in 0..count {
        words.push(word_bits(starts, machine.word_at(at)))?;
    }
    Ok(words)
}

impl<'a> SparcMachine<'a> {
    ghost use Rattle.std.specs.Prelude.{◌≡◌, ◌<◌, ◌≤◌, ◌^◌, length};
    ghost use Rattle.tb_mac.specs.CodeOf.{code_of};
    ghost use Rattle.tb_mac.specs.Layout.{start_size};
    ghost use Rattle.tb_sparc.specs.GroupedOf.{grouped_of};
    ghost use Rattle.tb_sparcm.specs.LoadDoes.{LoadDoes};

    /// The machine before its first step, with so many data words: the globals, which are Undefined, the static
    /// objects, and fixnums 0. HeapSmall where the words of globals and static objects plus 64 exceed the data
    /// words; it is found before memory is asked for.
    pub fn load(
        alloc: Global,
        code: &'a MacCode,
        sparc: &'a SparcCode,
        heap_words: u32,
    ) -> Result<SparcMachine<'a>, LoadRefusal>
        requires least { 1024 ≤ heap_words }
        requires most { heap_words ≤ 33554432 }
        requires fits { start_size code.now.parts < 2 ^ 32 }
        requires one_start_each { length sparc.now.starts ≡ length code.now.code }
        ensures { LoadDoes (code_of code.now) (grouped_of sparc.now) heap_words result }
    {
        let machine = MacMachine::load(alloc, code, heap_words)?;
        let starts = sparc.starts.as_slice();
        let memory = data_words(alloc, &machine, starts)?;
        let decoded = cells(alloc, sparc)?;
        let first = start_of(starts, 0) % 0x4000_0000;
        let (pointer, stack) = machine.pointers();
        let mut registers = [0; 32];
        registers[1] = 0xc000_0000 + pointer * 4;
        registers[5] = 0xc000_0000;
        registers[14] = 0xc000_0000 + stack * 4;
        let state = State {
            pc: first,
            npc: (first + 1) % 0x4000_0000,
            registers,
            y: 0,
            codes: Codes {
                negative: false,
                zero: false,
                overflow: false,
                carry: false,
            },
            memory,
            group: 0,
            ahead: None,
        };
        Ok(SparcMachine {
            code,
            sparc,
            cells: decoded,
            state,
        })
    }
}
