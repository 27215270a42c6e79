//! The lines of `diag`.

ghost use Rattle.std.specs.Prelude.{◌≡◌, ◌≤◌};
ghost use Rattle.tb_base.specs.Outside.{HasCause, PutsAll};
ghost use Rattle.tb_twobit.specs.Sinks.{Said, sunk};
ghost use Rattle.tb_twobit.specs.Statuses as statuses;
ghost use Rattle.tb_twobit.specs.Statuses.{placed_line, refused_line, failed_line, full_line};

use super::refusal::Refusal;
use itoa::Buffer;
use tb_base::{Failed, Sink};
use tb_lines::put_parts;
use tb_prim::{Cause, Place};

/// Says why and where a text is refused. A fault of `diag` changes nothing.
pub fn say_refused<E: Sink>(diag: &mut E, refusal: Refusal)
    ensures line { Said (sunk E.held E.faults diag.old diag.new) (refused_line refusal) }
    ensures later { E.faults diag.old ≤ E.faults diag.new }
{
    let _ = put_placed(diag, b"refused ", refusal.kind.number(), refusal.place);
}

/// Says why and where a run failed. A fault of `diag` changes nothing.
pub fn say_failed<E: Sink>(diag: &mut E, cause: Cause, place: Place)
    ensures line { Said (sunk E.held E.faults diag.old diag.new) (failed_line cause place) }
    ensures later { E.faults diag.old ≤ E.faults diag.new }
{
    let _ = put_placed(diag, b"failed ", cause_number(cause), place);
}

/// Says what did not fit: the heap pointer, the stack pointer and the words asked for. A fault of `diag` changes nothing.
pub fn say_full<E: Sink>(diag: &mut E, pointer: u32, stack: u32, need: u32)
    ensures line { Said (sunk E.held E.faults diag.old diag.new) (full_line pointer stack need) }
    ensures later { E.faults diag.old ≤ E.faults diag.new }
{
    let _ = put_parts(
        diag,
        &[
            b"full ",
            Buffer::new().format(pointer).as_bytes(),
            b" ",
            Buffer::new().format(stack).as_bytes(),
            b" ",
            Buffer::new().format(need).as_bytes(),
            b"\n",
        ],
    );
}

/// The number of the cause, 1 to 8.
fn cause_number(cause: Cause) -> u32
    ensures { result ≡ statuses.cause_number cause }
{
    cause as u32
}

/// Puts the line of a word, a number and a place.
fn put_placed<E: Sink>(
    diag: &mut E,
    word: &'static [u8],
    number: u32,
    place: Place,
) -> Result<(), Failed>
    ensures bytes { PutsAll (E.held diag.old) (E.held diag.new) (placed_line word.now number place) result }
    ensures cause { HasCause (E.faults diag.old) (E.faults diag.new) result }
{
    put_parts(
        diag,
        &[
            word,
            Buffer::new().format(number).as_bytes(),
            b" ",
            library_text(place.library),
            Buffer::new().format(place.line).as_bytes(),
            b":",
            Buffer::new().format(place.column).as_bytes(),
            b"\n",
        ],
    )
}

fn library_text(library: bool) -> &'static [u8]
    ensures { result.now ≡ statuses.library_text library }
{
    if library { b"lib " } else { b"" }
}
