//! Texts that are put one after another.

ghost use Rattle.std.specs.Prelude.{map};
ghost use Rattle.tb_base.specs.Outside.{HasCause, PutsAll};
ghost use Rattle.tb_lines.specs.Lines.{joined};

use tb_base::{Failed, Sink, put_all};

/// Puts the texts, one after another, up to the first that is not taken whole.
pub fn put_parts<O: Sink>(out: &mut O, parts: &[&[u8]]) -> Result<(), Failed>
    ensures bytes { PutsAll (O.held out.old) (O.held out.new) (joined (map (λ part. part.now) parts.now)) result }
    ensures cause { HasCause (O.faults out.old) (O.faults out.new) result }
{
    for part in parts {
        match put_all(out, part) {
            Ok(()) => {}
            Err(failed) => return Err(failed),
        }
    }
    Ok(())
}
