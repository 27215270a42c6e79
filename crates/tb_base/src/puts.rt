ghost use Rattle.tb_base.specs.Outside.{HasCause, PutsAll};

use super::{Failed, Sink};

/// Puts all of the bytes, by as many puts as are needed. A put that fails, or that takes nothing, ends it, and
/// only a front of the bytes was put then.
pub fn put_all<O: Sink>(out: &mut O, bytes: &[u8]) -> Result<(), Failed>
    ensures bytes { PutsAll (O.held out.old) (O.held out.new) bytes.now result }
    ensures cause { HasCause (O.faults out.old) (O.faults out.new) result }
{
    let mut count = 0;
    while count < bytes.len() {
        match out.put(&bytes[count..])? {
            0 => return Err(Failed),
            more => count += more,
        }
    }
    Ok(())
}
