//! The top call.

ghost use Rattle.std.specs.Prelude.{◌≡◌, ◌≤◌, ◌↔◌, map, Some, None, IfSome};
ghost use Rattle.tb_base.specs.Outside.{CountsOnly, SameCounts};
ghost use Rattle.tb_twobit.specs.CommandDoes.{CommandDoes};
ghost use Rattle.tb_twobit.specs.Complete.{ComesToEnd};
ghost use Rattle.tb_twobit.specs.Sinks.{sunk};
ghost use Rattle.tb_twobit.specs.Words.{Go, GoMac, command_of, run_of};

use super::go::go;
use super::laws::enough_comes_to_the_end;
use super::space::space;
use super::status::Status;
use super::words::{Asked, asked_for};
use std::alloc::Global;
use tb_base::{Sink, Source, Store};

/// Does what the words ask for, and answers the status in which it ends. Words that are no command end in
/// the status of usage, and nothing is done. `go mac SRC HEAP STEPS` compiles the file and runs it: SRC is a
/// name that is not empty, HEAP 1,024 to 33,554,432 words, STEPS below 2^64. `space mac SRC HEAP STEPS EVERY` does so too,
/// and puts a report of the words that the run holds in place of what it puts: EVERY is 1 or more, and below 2^64.
pub fn twobit<S: Store, I: Source, O: Sink, E: Sink>(
    alloc: Global,
    words: &[&str],
    store: &mut S,
    input: &mut I,
    out: &mut O,
    diag: &mut E,
) -> u8
    ensures usage { (result ≡ 2) ↔ (command_of (map (λ w. w.now) words.now) ≡ None) }
    ensures does { IfSome (command_of (map (λ w. w.now) words.now)) (λ command. CommandDoes command (record {
      given = record {
        files = S.files store.old;
        loads = S.load_faults store.old (run_of command).source;
        loads_now = S.load_faults store.new (run_of command).source;
        input = I.left input.old;
        reads = I.faults input.old;
        reads_now = I.faults input.new;
      };
      out = sunk O.held O.faults out.old out.new;
      diag = sunk E.held E.faults diag.old diag.new;
    }) result) }

    // With memory and steps enough, an accepted text comes to the end of its program.
    ensures complete { (go : Go) → command_of (map (λ w. w.now) words.now) ≡ Some (GoMac go) → ComesToEnd go (record {
      given = record {
        files = S.files store.old;
        loads = S.load_faults store.old go.source;
        loads_now = S.load_faults store.new go.source;
        input = I.left input.old;
        reads = I.faults input.old;
        reads_now = I.faults input.new;
      };
      out = sunk O.held O.faults out.old out.new;
      diag = sunk E.held E.faults diag.old diag.new;
    }) result }

    // With words that are no command nothing is put, said, loaded or read.
    ensures nothing_put { result ≡ 2 → out.new ≡ out.old }
    ensures nothing_said { result ≡ 2 → diag.new ≡ diag.old }
    ensures nothing_loaded { result ≡ 2 → store.new ≡ store.old }
    ensures nothing_read { result ≡ 2 → input.new ≡ input.old }

    // The store's files stay as they are, and no count of faults falls.
    ensures files { S.files store.new ≡ S.files store.old }
    ensures loads { IfSome (command_of (map (λ w. w.now) words.now)) (λ command.
        CountsOnly (S.load_faults store.old) (S.load_faults store.new) (run_of command).source) }
    ensures saves { SameCounts (S.save_faults store.old) (S.save_faults store.new) }
    ensures input_later { I.faults input.old ≤ I.faults input.new }
    ensures later { O.faults out.old ≤ O.faults out.new }
    ensures diag_later { E.faults diag.old ≤ E.faults diag.new }
{
    enough_comes_to_the_end();
    match asked_for(words) {
        Some(Asked::Go(run)) => go(alloc, run, store, input, out, diag).number(),
        Some(Asked::Space(run, every)) => {
            space(alloc, run, every, store, input, out, diag).number()
        }
        None => Status::Usage.number(),
    }
}
