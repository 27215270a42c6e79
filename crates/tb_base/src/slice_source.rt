use super::{Failed, Source};
use std::marker::Model;

/// A source over bytes that the caller holds. It never fails.
#[derive(Debug, Drop)]
pub struct SliceSource<'a> {
    left: &'a [u8],
}

impl<'a> Model for SliceSource<'a> {
    ghost use Rattle.std.specs.Prelude.{ℕ, List};

    ghost Value = { List ℕ };

    ghost view = { λ s. s.left.now };
}

impl<'a> SliceSource<'a> {
    ghost use Rattle.std.specs.Prelude.{◌≡◌};

    /// A source of these bytes.
    pub fn new(bytes: &'a [u8]) -> SliceSource<'a>
        ensures { result ≡ bytes.now }
    {
        SliceSource { left: bytes }
    }
}

impl<'a> Source for SliceSource<'a> {
    ghost use Rattle.std.specs.Prelude.{◌≡◌, ◌<◌, ◌≤◌, min, drop, length, Some, Ok, IfOk};
    ghost use Rattle.tb_base.specs.Outside.{HasCause, Takes};

    ghost left = { λ s. Some s };

    ghost faults = { λ _. 0 };

    /// Takes as many bytes as are left and `buf` has room for.
    fn take(&mut self, buf: &mut [u8]) -> Result<usize, Failed>
        requires { 0 < length buf.old }
        ensures bound { IfOk result (λ n. n ≤ length buf.old) }
        ensures bytes { Takes (Some self.old) (Some self.new) result buf.new }
        ensures cause { HasCause 0 0 result }
        ensures count { result ≡ Ok (min (length buf.old) (length self.old)) }
    {
        let count = self.left.len().min(buf.len());
        buf[..count].copy_from_slice(&self.left[..count]);
        self.left = &self.left[count..];
        Ok(count)
    }
}
