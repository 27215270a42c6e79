//! A sink for what is not wanted.

ghost use Rattle.std.specs.Prelude.{◌≡◌};

use tb_base::{Failed, Sink};

/// A sink that takes every byte, tells nothing and never has a fault.
#[derive(Debug, Drop)]
pub struct NullSink;

impl Sink for NullSink {
    ghost use Rattle.std.specs.Prelude.{◌≡◌, ◌<◌, ◌≤◌, length, None, IfOk};
    ghost use Rattle.tb_base.specs.Outside.{PutHasCause, Puts};

    ghost held = { λ _. None };

    ghost faults = { λ _. 0 };

    /// Takes all of the piece.
    fn put(&mut self, piece: &[u8]) -> Result<usize, Failed>
        requires { 0 < length piece.now }
        ensures bound { IfOk result (λ n. n ≤ length piece.now) }
        ensures bytes { Puts None None piece.now result }
        ensures cause { PutHasCause 0 0 result }
    {
        Ok(piece.len())
    }
}
