use super::{Failed, Sink};
use std::io::Write;
use std::marker::Model;

/// A sink over a writer of the runtime, as that of standard output or standard error. It hands each piece on
/// at once and keeps nothing back, so what was put is out as soon as the writer has it. It tells what it was
/// given where the writer does, which those of standard output and standard error do not.
#[derive(Drop)]
pub struct RealSink<W: Write> {
    writer: W,
    faults: u64,
}

impl<W: Write> Model for RealSink<W> {
    ghost use Rattle.tb_base.specs.Real.{WriterState};

    ghost Value = { WriterState };

    ghost view = { λ s. record { held = W.contents s.writer; faults = s.faults } };
}

impl<W: Write> RealSink<W> {
    ghost use Rattle.std.specs.Prelude.{◌≡◌};

    /// A sink over this writer, with no faults yet.
    pub fn new(writer: W) -> RealSink<W>
        ensures held { result.held ≡ W.contents writer }
        ensures faults { result.faults ≡ 0 }
    {
        RealSink { writer, faults: 0 }
    }
}

impl<W: Write> Sink for RealSink<W> {
    ghost use Rattle.std.specs.Prelude.{◌≡◌, ◌==◌, ◌<◌, ◌≤◌, length, IfOk, if◌then◌else◌};
    ghost use Rattle.tb_base.specs.Calls.{risen};
    ghost use Rattle.tb_base.specs.Outside.{PutHasCause, Puts, count_put};

    ghost held = { λ s. s.held };

    ghost faults = { λ s. s.faults };

    fn put(&mut self, piece: &[u8]) -> Result<usize, Failed>
        requires { 0 < length piece.now }
        ensures bound { IfOk result (λ n. n ≤ length piece.now) }
        ensures bytes { Puts self.old.held self.new.held piece.now result }
        ensures cause { PutHasCause self.old.faults self.new.faults result }
        ensures faults { self.new.faults ≡ (if count_put result == 0 then risen self.old.faults else self.old.faults) }
    {
        match self.writer.write(piece) {
            Ok(0) | Err(_) => {
                self.faults = self.faults.saturating_add(1);
                Err(Failed)
            }
            Ok(count) => Ok(count),
        }
    }
}
