//! Loading: the memory before the first step.

ghost use Rattle.std.specs.Prelude.{◌≡◌, ◌≤◌, ◌-◌, ◌++◌, length, replicate, vec_len, IfOk};
ghost use Rattle.tb_mac.specs.Layout.{addresses, start_size, start_words};
ghost use Rattle.tb_mac.specs.Words.{zero_word};

use super::layout::{addresses, lay_out, statics_size};
use super::machine::MacMachine;
use super::state::State;
use std::alloc::{AllocError, Global};
use tb_mac::{MacCode, Parts, Word};
use tb_prim::NoMemory;

/// Why a machine was not loaded. `pointer` is the number of words of globals and static objects, padding
/// included.
#[derive(Clone, Copy, Debug, PartialEq, Eq)]
pub enum LoadRefusal {
    HeapSmall { pointer: u32 },
    NoMemory,
}

impl From<AllocError> for LoadRefusal {
    ghost use Rattle.tb_macm.specs.declared.load.LoadRefusal.TheVariants.{NoMemory};
    ghost use Rattle.std.specs.Prelude.{◌≡◌};

    ghost from_gives = { λ _ refusal. refusal ≡ NoMemory };

    fn from(_: AllocError) -> LoadRefusal {
        LoadRefusal::NoMemory
    }
}

impl From<NoMemory> for LoadRefusal {
    ghost use Rattle.tb_macm.specs.declared.load.LoadRefusal.TheVariants as refusals;
    ghost use Rattle.std.specs.Prelude.{◌≡◌};

    ghost from_gives = { λ _ refusal. refusal ≡ refusals.NoMemory };

    fn from(_: NoMemory) -> LoadRefusal {
        LoadRefusal::NoMemory
    }
}

/// The memory before the first step.
fn start_memory(
    alloc: Global,
    parts: &Parts,
    heap_words: u32,
    placed: &[u32],
) -> Result<Vec<Word>, AllocError>
    requires fits { start_size parts.now ≤ heap_words }
    requires most { heap_words ≤ 33554432 }
    requires placed { placed.now ≡ addresses parts.now }
    ensures words { IfOk result (λ v. v.items ≡ start_words parts.now
        ++ replicate (heap_words - length (start_words parts.now)) zero_word) }
    ensures count { IfOk result (λ v. vec_len v ≡ heap_words) }
{
    let mut memory = vec![in alloc; Word::Fix(0); heap_words as usize]?;
    let globals = parts.globals.as_slice().len();
    lay_out(&mut memory, globals, parts.statics.as_slice(), placed);
    Ok(memory)
}

impl<'a> MacMachine<'a> {
    ghost use Rattle.std.specs.Prelude.{◌<◌, ◌≤◌, ◌^◌};
    ghost use Rattle.tb_mac.specs.CodeOf.{code_of};
    ghost use Rattle.tb_mac.specs.Layout.{start_size};
    ghost use Rattle.tb_macm.specs.LoadDoes.{LoadDoes};

    /// The machine before its first step, with a memory of so many words: the globals, which are Undefined,
    /// the static objects, and fixnums 0. HeapSmall where the words of globals and static objects plus 64
    /// exceed the memory's; it is found before memory is asked for.
    #[tactic(auto, using(crate::proofs::Layouts::length_start_words))]
    pub fn load(
        alloc: Global,
        code: &'a MacCode,
        heap_words: u32,
    ) -> Result<MacMachine<'a>, LoadRefusal>
        requires least { 1024 ≤ heap_words }
        requires most { heap_words ≤ 33554432 }
        requires fits { start_size code.now.parts < 2 ^ 32 }
        ensures { LoadDoes (code_of code.now) heap_words result }
    {
        let statics = code.parts.statics.as_slice();
        let globals = code.parts.globals.as_slice().len();
        let first = globals as u64 + globals as u64 % 2;
        let pointer = first + statics_size(statics);
        if pointer + 64 > u64::from(heap_words) {
            return Err(LoadRefusal::HeapSmall {
                pointer: pointer as u32,
            });
        }
        let placed = addresses(alloc, first as u32, statics)?;
        let memory = start_memory(alloc, &code.parts, heap_words, placed.as_slice())?;
        let state = State {
            pc: 0,
            registers: [Word::Fix(0); 17],
            memory,
            heap_pointer: pointer as u32,
            stack_pointer: heap_words,
            ahead: None,
        };
        Ok(MacMachine {
            code,
            statics: placed,
            state,
        })
    }
}
