ghost use Rattle.std.specs.Prelude.{ℕ, List, Option, ◌<◌, ◌≤◌, ◌^◌, length, IfOk, vec_len};
ghost use Rattle.tb_base.specs.Outside.{HasCause, PutHasCause, Takes, Puts, LoadDoes, SaveDoes, LoadHasCause, SaveHasCause, SameCounts};

use std::alloc::{AllocError, AllocFailed, Global};
use tb_prim::NoMemory;

/// A call that failed, with nothing taken and nothing put.
#[derive(Clone, Copy, Debug, PartialEq, Eq)]
pub struct Failed;

/// Why a load gave no bytes.
#[derive(Clone, Copy, Debug, PartialEq, Eq)]
pub enum LoadFault {
    Failed,
    TooLong,
    NoMemory,
}

/// Why a save left the store as it was.
#[derive(Clone, Copy, Debug, PartialEq, Eq)]
pub enum SaveFault {
    Failed,
    NoMemory,
}

impl From<NoMemory> for LoadFault {
    ghost use Rattle.std.specs.Prelude.{◌≡◌};
    ghost use Rattle.tb_base.specs.declared.outside.LoadFault.{LoadFault};

    ghost from_gives = { λ _ fault. fault ≡ LoadFault.NoMemory };

    fn from(_: NoMemory) -> LoadFault {
        LoadFault::NoMemory
    }
}

impl From<NoMemory> for SaveFault {
    ghost use Rattle.std.specs.Prelude.{◌≡◌};
    ghost use Rattle.tb_base.specs.declared.outside.SaveFault.{SaveFault};

    ghost from_gives = { λ _ fault. fault ≡ SaveFault.NoMemory };

    fn from(_: NoMemory) -> SaveFault {
        SaveFault::NoMemory
    }
}

impl From<AllocError> for LoadFault {
    ghost use Rattle.std.specs.Prelude.{◌≡◌};
    ghost use Rattle.tb_base.specs.declared.outside.LoadFault.{LoadFault};

    ghost from_gives = { λ _ fault. fault ≡ LoadFault.NoMemory };

    fn from(_: AllocError) -> LoadFault {
        LoadFault::NoMemory
    }
}

impl From<AllocError> for SaveFault {
    ghost use Rattle.std.specs.Prelude.{◌≡◌};
    ghost use Rattle.tb_base.specs.declared.outside.SaveFault.{SaveFault};

    ghost from_gives = { λ _ fault. fault ≡ SaveFault.NoMemory };

    fn from(_: AllocError) -> SaveFault {
        SaveFault::NoMemory
    }
}

impl<T: Drop> From<AllocFailed<T>> for SaveFault {
    ghost use Rattle.std.specs.Prelude.{◌≡◌};
    ghost use Rattle.tb_base.specs.declared.outside.SaveFault.{SaveFault};

    ghost from_gives = { λ _ fault. fault ≡ SaveFault.NoMemory };

    fn from(_: AllocFailed<T>) -> SaveFault {
        SaveFault::NoMemory
    }
}

/// Bytes that come in.
pub trait Source {
    /// The bytes that are left, where the source tells them.
    ghost left: { Self → Option (List ℕ) };

    /// How many faults there were. It stands still at 2^64 - 1.
    ghost faults: { Self → ℕ };

    /// Takes the first bytes that are left, at most as many as `buf` is long, and puts them at its front.
    /// Ok(0) is the end of the input. After `Failed` the bytes left are the same.
    fn take(&mut self, buf: &mut [u8]) -> Result<usize, Failed>
        requires { 0 < length buf.old }
        ensures bound { IfOk result (λ n. n ≤ length buf.old) }
        ensures bytes { Takes (left self.old) (left self.new) result buf.new }
        ensures cause { HasCause (faults self.old) (faults self.new) result };
}

/// Bytes that go out.
pub trait Sink {
    /// The bytes that it was given so far, where the sink tells them.
    ghost held: { Self → Option (List ℕ) };

    /// How many faults there were. It stands still at 2^64 - 1.
    ghost faults: { Self → ℕ };

    /// Appends the first bytes of `piece`, and says how many. Ok(0) counts as a fault. After `Failed` the
    /// bytes held are the same.
    fn put(&mut self, piece: &[u8]) -> Result<usize, Failed>
        requires { 0 < length piece.now }
        ensures bound { IfOk result (λ n. n ≤ length piece.now) }
        ensures bytes { Puts (held self.old) (held self.new) piece.now result }
        ensures cause { PutHasCause (faults self.old) (faults self.new) result };
}

/// Named files.
pub trait Store {
    /// What each name holds, where the store tells it.
    ghost files: { Self → Option (List ℕ → Option (List ℕ)) };

    /// How many loads of a name failed. It stands still at 2^64 - 1.
    ghost load_faults: { Self → List ℕ → ℕ };

    /// How many saves of a name failed. It stands still at 2^64 - 1.
    ghost save_faults: { Self → List ℕ → ℕ };

    /// The bytes of the name, at most `limit` of them. `Failed` comes before `TooLong`, and a name that is
    /// missing is `Failed`.
    fn load(&mut self, alloc: Global, name: &str, limit: u64) -> Result<Vec<u8>, LoadFault>
        requires { limit < 2 ^ 63 }
        ensures bound { IfOk result (λ bytes. vec_len bytes ≤ limit) }
        ensures does { LoadDoes (files self.old) (files self.new) name.now limit result }
        ensures cause { LoadHasCause (load_faults self.old) (load_faults self.new) name.now result }
        ensures saves { SameCounts (save_faults self.old) (save_faults self.new) };

    /// Makes the name hold the bytes, and leaves every other name as it was. After a refusal the store is
    /// as before.
    fn save(&mut self, alloc: Global, name: &str, bytes: &[u8]) -> Result<(), SaveFault>
        ensures does { SaveDoes (files self.old) (files self.new) name.now bytes.now result }
        ensures cause { SaveHasCause (save_faults self.old) (save_faults self.new) name.now result }
        ensures loads { SameCounts (load_faults self.old) (load_faults self.new) };
}
