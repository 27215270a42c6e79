use super::call_numbers::CallNumbers;
use super::{Failed, Sink};
use std::alloc::Global;
use std::marker::Model;
use tb_prim::NoMemory;

/// A sink in memory, with all the room that it will have. Its calls are numbered from 0, and some of them fail.
#[derive(Debug, Drop)]
pub struct MemSink {
    held: Vec<u8>,
    capacity: usize,
    calls: CallNumbers,
    faults: u64,
}

impl Model for MemSink {
    ghost use Rattle.std.specs.Prelude.{◌≤◌, vec_len, vec_capacity};
    ghost use Rattle.tb_base.specs.Memory.{SinkState};

    ghost Value = { SinkState };

    ghost view = { λ s. record {
      held = s.held.items;
      capacity = s.capacity;
      calls = s.calls;
      faults = s.faults;
    } };

    ghost invariant = { λ s. (vec_len s.held ≤ s.capacity) × (s.capacity ≤ vec_capacity s.held) };
}

impl MemSink {
    ghost use Rattle.std.specs.Prelude.{◌≡◌, [], IfOk};

    /// An empty sink that takes `capacity` bytes in all. `fails` lists the calls of `put`, counted from 0,
    /// that fail.
    pub fn new(alloc: Global, capacity: usize, fails: &[u64]) -> Result<MemSink, NoMemory>
        ensures held { IfOk result (λ s. s.held ≡ []) }
        ensures capacity { IfOk result (λ s. s.capacity ≡ capacity) }
        ensures fails { IfOk result (λ s. s.calls.fails ≡ fails.now) }
        ensures first { IfOk result (λ s. s.calls.next ≡ 0) }
        ensures faults { IfOk result (λ s. s.faults ≡ 0) }
    {
        let calls = CallNumbers::new(alloc, fails)?;
        let held = Vec::with_capacity(alloc, capacity)?;
        Ok(MemSink {
            held,
            capacity,
            calls,
            faults: 0,
        })
    }

    /// The bytes that it was given. Takes no memory.
    pub fn held(&self) -> &[u8]
        ensures { result.now ≡ self.now.held }
    {
        self.held.as_slice()
    }
}

impl Sink for MemSink {
    ghost use Rattle.std.specs.Prelude.{◌≡◌, ◌↔◌, ◌-◌, ◌<◌, ◌≤◌, min, length, Some, IfOk, IsErr, if◌then◌else◌, ◌==◌};
    ghost use Rattle.tb_base.specs.Calls.{IsFailing, after_call, risen};
    ghost use Rattle.tb_base.specs.Outside.{PutHasCause, Puts, count_put};

    ghost held = { λ s. Some s.held };

    ghost faults = { λ s. s.faults };

    /// Takes as many bytes of `piece` as the capacity still allows.
    fn put(&mut self, piece: &[u8]) -> Result<usize, Failed>
        requires { 0 < length piece.now }
        ensures bound { IfOk result (λ n. n ≤ length piece.now) }
        ensures bytes { Puts (Some self.old.held) (Some self.new.held) piece.now result }
        ensures cause { PutHasCause self.old.faults self.new.faults result }

        ensures count { IfOk result
            (λ n. n ≡ min (length piece.now) (self.old.capacity - length self.old.held)) }
        ensures fails { IsErr result ↔ IsFailing self.old.calls }
        ensures counted { self.new.calls ≡ after_call self.old.calls }
        ensures faults { self.new.faults
            ≡ (if count_put result == 0 then risen self.old.faults else self.old.faults) }
        ensures capacity { self.new.capacity ≡ self.old.capacity }
    {
        let fails = self.calls.is_next_failing();
        let room = self.capacity - self.held.len();
        let count = if fails { 0 } else { room.min(piece.len()) };
        if count == 0 {
            self.faults = self.faults.saturating_add(1);
        }
        if fails {
            return Err(Failed);
        }
        self.held.extend_from_slice(&piece[..count]).unwrap();
        Ok(count)
    }
}
