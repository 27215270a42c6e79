//! Loading code and running it.

ghost use Rattle.std.specs.Prelude.{◌≡◌, ◌≤◌, ◌<◌, ◌^◌};
ghost use Rattle.tb_mac.specs.CodeOf.{code_of};
ghost use Rattle.tb_mac.specs.Layout.{start_size};
ghost use Rattle.tb_running.specs.Runs.{CodeDoes, sunk};

use std::alloc::Global;
use tb_base::{Sink, SliceSource};
use tb_mac::MacCode;
use tb_macm::{LoadRefusal, MacMachine};
use tb_prim::Stop;

/// Loads the code into a memory of so many words, and makes at most so many steps with this input, up to the first that
/// stops. Answers why it stopped, or why it was not loaded.
pub fn run_code<O: Sink>(
    alloc: Global,
    code: &MacCode,
    heap_words: u32,
    steps: u64,
    input: &[u8],
    out: &mut O,
) -> Result<Stop, LoadRefusal>
    requires least { 1024 ≤ heap_words }
    requires most { heap_words ≤ 33554432 }
    requires fits { start_size code.now.parts < 2 ^ 32 }
    ensures does { CodeDoes (code_of code.now) (record { heap = heap_words; steps = steps; input = input.now })
        (sunk O.held O.faults out.old out.new) result }
    ensures later { O.faults out.old ≤ O.faults out.new }
{
    let mut machine = MacMachine::load(alloc, code, heap_words)?;
    let mut source = SliceSource::new(input);
    Ok(machine.run(steps, &mut source, out))
}
