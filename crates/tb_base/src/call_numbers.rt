use std::alloc::Global;
use std::marker::Model;
use tb_prim::NoMemory;

/// The calls of one object, counted from 0, and which of them are to fail. The number of the next call
/// stands still at 2^64 - 1.
#[derive(Debug, Drop)]
pub(crate) struct CallNumbers {
    fails: Vec<u64>,
    next: u64,
}

impl Model for CallNumbers {
    ghost use Rattle.tb_base.specs.Calls.{Calls};

    ghost Value = { Calls };

    ghost view = { λ c. record { fails = c.fails.items; next = c.next } };
}

impl CallNumbers {
    ghost use Rattle.std.specs.Prelude.{◌≡◌, ◌↔◌, IfOk, IsTrue};
    ghost use Rattle.tb_base.specs.Calls.{IsFailing, after_call};

    /// No call yet.
    pub(crate) fn new(alloc: Global, fails: &[u64]) -> Result<CallNumbers, NoMemory>
        ensures fails { IfOk result (λ calls. calls.fails ≡ fails.now) }
        ensures first { IfOk result (λ calls. calls.next ≡ 0) }
    {
        let fails = Vec::from_slice(alloc, fails)?;
        Ok(CallNumbers { fails, next: 0 })
    }

    /// Counts a call, and says whether it is to fail.
    pub(crate) fn is_next_failing(&mut self) -> bool
        ensures fails { IsTrue result ↔ IsFailing self.old }
        ensures counted { self.new ≡ after_call self.old }
    {
        let fails = self.fails.contains(&self.next);
        self.next = self.next.saturating_add(1);
        fails
    }
}
