use super::{Failed, Source};
use std::io::Read;
use std::marker::Model;

/// A source over a reader of the runtime, as a file or standard input. It tells what is left where the reader does,
/// which those of files and of standard input do not.
#[derive(Drop)]
pub struct RealSource<R: Read> {
    reader: R,
    faults: u64,
}

impl<R: Read> Model for RealSource<R> {
    ghost use Rattle.tb_base.specs.Real.{ReaderState};

    ghost Value = { ReaderState };

    ghost view = { λ s. record { left = R.remaining s.reader; faults = s.faults } };
}

impl<R: Read> RealSource<R> {
    ghost use Rattle.std.specs.Prelude.{◌≡◌};

    /// A source over this reader, with no faults yet.
    pub fn new(reader: R) -> RealSource<R>
        ensures left { result.left ≡ R.remaining reader }
        ensures faults { result.faults ≡ 0 }
    {
        RealSource { reader, faults: 0 }
    }
}

impl<R: Read> Source for RealSource<R> {
    ghost use Rattle.std.specs.Prelude.{◌≡◌, ◌<◌, ◌≤◌, length, IfOk, is_err, if◌then◌else◌};
    ghost use Rattle.tb_base.specs.Calls.{risen};
    ghost use Rattle.tb_base.specs.Outside.{HasCause, Takes};

    ghost left = { λ s. s.left };

    ghost faults = { λ s. s.faults };

    fn take(&mut self, buf: &mut [u8]) -> Result<usize, Failed>
        requires { 0 < length buf.old }
        ensures bound { IfOk result (λ n. n ≤ length buf.old) }
        ensures bytes { Takes self.old.left self.new.left result buf.new }
        ensures cause { HasCause self.old.faults self.new.faults result }
        ensures faults { self.new.faults
            ≡ (if is_err result then risen self.old.faults else self.old.faults) }
    {
        match self.reader.read(buf) {
            Ok(count) => Ok(count),
            Err(_) => {
                self.faults = self.faults.saturating_add(1);
                Err(Failed)
            }
        }
    }
}
