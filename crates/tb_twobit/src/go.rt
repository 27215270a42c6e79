//! The command `go`: it runs the code of a source file on the input.

ghost use Rattle.std.specs.Prelude.{◌≡◌, ◌≤◌};
ghost use Rattle.tb_base.specs.Outside.{CountsOnly, SameCounts};
ghost use Rattle.tb_twobit.specs.GoDoes.{GoDoes};
ghost use Rattle.tb_twobit.specs.Sinks.{sunk};
ghost use Rattle.tb_twobit.specs.Statuses.{number};
ghost use Rattle.tb_twobit.specs.calls.Asked.{go_of};

use super::laws::runs_are_promised;
use super::prepare::prepare;
use super::run::finish;
use super::status::Status;
use super::words::Run;
use std::alloc::Global;
use tb_base::{Sink, Source, Store};
use tb_bounds::laws::loading_wants_little;
use tb_running::run_code;

/// Loads the source file, compiles it, reads the input and runs the code within the limits.
pub fn go<S: Store, I: Source, O: Sink, E: Sink>(
    alloc: Global,
    run: Run,
    store: &mut S,
    input: &mut I,
    out: &mut O,
    diag: &mut E,
) -> Status
    ensures does { GoDoes (go_of run.entry) (record {
      given = record {
        files = S.files store.old;
        loads = S.load_faults store.old run.entry.source.now;
        loads_now = S.load_faults store.new run.entry.source.now;
        input = I.left input.old;
        reads = I.faults input.old;
        reads_now = I.faults input.new;
      };
      out = sunk O.held O.faults out.old out.new;
      diag = sunk E.held E.faults diag.old diag.new;
    }) (number result) }
    ensures files { S.files store.new ≡ S.files store.old }
    ensures loads { CountsOnly (S.load_faults store.old) (S.load_faults store.new) run.entry.source.now }
    ensures saves { SameCounts (S.save_faults store.old) (S.save_faults store.new) }
    ensures input_later { I.faults input.old ≤ I.faults input.new }
    ensures later { O.faults out.old ≤ O.faults out.new }
    ensures diag_later { E.faults diag.old ≤ E.faults diag.new }
{
    runs_are_promised();
    loading_wants_little();
    let prepared = match prepare(alloc, run.source, store, input, diag) {
        Ok(prepared) => prepared,
        Err(status) => return status,
    };
    let ended = run_code(
        alloc,
        &prepared.code,
        run.limits.heap,
        run.limits.steps,
        prepared.input.as_slice(),
        out,
    );
    finish(run.limits.heap, ended, diag)
}
