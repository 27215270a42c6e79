use super::call_numbers::CallNumbers;
use super::{Failed, Source};
use std::alloc::Global;
use std::marker::Model;
use tb_prim::NoMemory;

/// A source over bytes in memory. Its calls are numbered from 0, and some of them fail.
#[derive(Debug, Drop)]
pub struct MemSource {
    bytes: Vec<u8>,
    taken: usize,
    calls: CallNumbers,
    faults: u64,
}

impl Model for MemSource {
    ghost use Rattle.std.specs.Prelude.{◌≤◌, drop, vec_len};
    ghost use Rattle.tb_base.specs.Memory.{SourceState};

    ghost Value = { SourceState };

    ghost view = { λ s. record {
      left = drop s.taken s.bytes.items;
      calls = s.calls;
      faults = s.faults;
    } };

    ghost invariant = { λ s. s.taken ≤ vec_len s.bytes };
}

impl MemSource {
    ghost use Rattle.std.specs.Prelude.{◌≡◌, IfOk};

    /// A source of these bytes. `fails` lists the calls of `take`, counted from 0, that fail.
    pub fn new(alloc: Global, bytes: &[u8], fails: &[u64]) -> Result<MemSource, NoMemory>
        ensures left { IfOk result (λ s. s.left ≡ bytes.now) }
        ensures fails { IfOk result (λ s. s.calls.fails ≡ fails.now) }
        ensures first { IfOk result (λ s. s.calls.next ≡ 0) }
        ensures faults { IfOk result (λ s. s.faults ≡ 0) }
    {
        let calls = CallNumbers::new(alloc, fails)?;
        let bytes = Vec::from_slice(alloc, bytes)?;
        Ok(MemSource {
            bytes,
            taken: 0,
            calls,
            faults: 0,
        })
    }
}

impl Source for MemSource {
    ghost use Rattle.std.specs.Prelude.{◌≡◌, ◌↔◌, ◌-◌, ◌<◌, ◌≤◌, min, length, Some, IfOk, IsErr, is_err, if◌then◌else◌};
    ghost use Rattle.tb_base.specs.Calls.{IsFailing, after_call, risen};
    ghost use Rattle.tb_base.specs.Outside.{HasCause, Takes};

    ghost left = { λ s. Some s.left };

    ghost faults = { λ s. s.faults };

    /// Takes as many bytes as are left and `buf` has room for.
    fn take(&mut self, buf: &mut [u8]) -> Result<usize, Failed>
        requires { 0 < length buf.old }
        ensures bound { IfOk result (λ n. n ≤ length buf.old) }
        ensures bytes { Takes (Some self.old.left) (Some self.new.left) result buf.new }
        ensures cause { HasCause self.old.faults self.new.faults result }

        ensures count { IfOk result (λ n. n ≡ min (length buf.old) (length self.old.left)) }
        ensures fails { IsErr result ↔ IsFailing self.old.calls }
        ensures counted { self.new.calls ≡ after_call self.old.calls }
        ensures faults { self.new.faults
            ≡ (if is_err result then risen self.old.faults else self.old.faults) }
    {
        if self.calls.is_next_failing() {
            self.faults = self.faults.saturating_add(1);
            return Err(Failed);
        }
        let left = &self.bytes[self.taken..];
        let count = left.len().min(buf.len());
        buf[..count].copy_from_slice(&left[..count]);
        self.taken += count;
        Ok(count)
    }
}
