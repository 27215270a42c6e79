//! Running code and measuring its states.

ghost use Rattle.std.specs.Prelude.{◌≡◌, ◌≤◌, ◌<◌, ◌^◌};
ghost use Rattle.tb_mac.specs.Bounds.{space_bound};
ghost use Rattle.tb_mac.specs.CodeOf.{code_of};
ghost use Rattle.tb_mac.specs.Layout.{start_size};
ghost use Rattle.tb_reporting.specs.Reports.{ReportDoes, StaysWalkable, peak_of};
ghost use Rattle.tb_reporting.specs.calls.Meters.{Finishes};
ghost use Rattle.tb_running.specs.Runs.{sunk};

use super::lines::put_peak;
use super::meter::Meter;
use super::nothing::NullSink;
use std::alloc::Global;
use tb_base::{Sink, SliceSource};
use tb_mac::{MacCode, space_bound};
use tb_macm::{LoadRefusal, MacMachine, Step};
use tb_prim::Stop;
use tb_space::Walk;

/// Loads the code into a memory of so many words, and makes at most so many steps with this input, up to the first that
/// stops. Behind each event whose number is a multiple of `every` it puts a line: the number, and the words that the
/// machine holds. Where the machine stops it puts a last line: the most of these words, and the factor of the bound on
/// space of the code. Answers why it stopped, or why it was not loaded.
pub fn report_run<O: Sink>(
    alloc: Global,
    code: &MacCode,
    heap_words: u32,
    steps: u64,
    every: u64,
    input: &[u8],
    out: &mut O,
) -> Result<Stop, LoadRefusal>
    requires least { 1024 ≤ heap_words }
    requires most { heap_words ≤ 33554432 }
    requires fits { start_size code.now.parts < 2 ^ 32 }
    requires every { 1 ≤ every }
    requires walkable { StaysWalkable (code_of code.now)
        (record { heap = heap_words; steps = steps; every = every; input = input.now }) }
    ensures does { ReportDoes (code_of code.now) (record { heap = heap_words; steps = steps; every = every; input = input.now })
        (sunk O.held O.faults out.old out.new) result }
    ensures later { O.faults out.old ≤ O.faults out.new }
{
    let mut machine = MacMachine::load(alloc, code, heap_words)?;
    let mut meter = Meter::new(Walk::new(alloc, heap_words)?, every);
    let mut source = SliceSource::new(input);
    let mut nothing = NullSink;
    for _made in 0..steps {
        match machine.step(&mut source, &mut nothing) {
            Step::Went(event) => match meter.count(&machine, event, out) {
                Ok(()) => {}
                Err(_failed) => return Ok(Stop::WriteFault),
            },
            Step::Stopped(stop) => return Ok(finish(out, code, meter.peak, stop)),
        }
    }
    Ok(finish(out, code, meter.peak, Stop::Steps))
}

/// Puts the last line, and answers the stop, or that the line was not put.
fn finish<O: Sink>(out: &mut O, code: &MacCode, peak: u64, stop: Stop) -> Stop
    ensures does { Finishes (O.held out.old) (O.held out.new) (O.faults out.old) (O.faults out.new)
        (peak_of peak (space_bound code.now.code)) stop result }
    ensures later { O.faults out.old ≤ O.faults out.new }
{
    match put_peak(out, peak, space_bound(code)) {
        Ok(()) => stop,
        Err(_failed) => Stop::WriteFault,
    }
}
