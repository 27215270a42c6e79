//! The lines of a report.

ghost use Rattle.tb_base.specs.Outside.{HasCause, PutsAll};
ghost use Rattle.tb_reporting.specs.Reports.{line_of, peak_of};

use itoa::Buffer;
use tb_base::{Failed, Sink};
use tb_lines::put_parts;

/// Puts the line of a measure: the number of the event, and the words.
pub fn put_measure<O: Sink>(out: &mut O, event: u64, words: u64) -> Result<(), Failed>
    ensures bytes { PutsAll (O.held out.old) (O.held out.new) (line_of event words) result }
    ensures cause { HasCause (O.faults out.old) (O.faults out.new) result }
{
    put_parts(
        out,
        &[
            Buffer::new().format(event).as_bytes(),
            b" ",
            Buffer::new().format(words).as_bytes(),
            b"\n",
        ],
    )
}

/// Puts the last line: the most words, and the factor of the bound on space.
pub fn put_peak<O: Sink>(out: &mut O, peak: u64, factor: u64) -> Result<(), Failed>
    ensures bytes { PutsAll (O.held out.old) (O.held out.new) (peak_of peak factor) result }
    ensures cause { HasCause (O.faults out.old) (O.faults out.new) result }
{
    put_parts(
        out,
        &[
            b"peak ",
            Buffer::new().format(peak).as_bytes(),
            b" ",
            Buffer::new().format(factor).as_bytes(),
            b"\n",
        ],
    )
}
