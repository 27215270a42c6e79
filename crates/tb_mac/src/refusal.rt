//! Why items are not assembled.
use std::alloc::{AllocError, AllocFailed};
use tb_prim::NoMemory;

/// Why items are not assembled.
#[derive(Clone, Copy, Debug, PartialEq, Eq)]
pub enum AsmRefusal {
    /// The first label that is named and stands nowhere: by an item, or else by the entry of a lambda.
    NoLabel(u32),
    /// The first label that stood before.
    TwiceLabel(u32),
    /// There is no memory left.
    NoMemory,
}

impl From<NoMemory> for AsmRefusal {
    ghost use Rattle.std.specs.Prelude.{◌≡◌};
    ghost use Rattle.tb_mac.specs.declared.refusal.AsmRefusal.TheVariants as refusal;

    ghost from_gives = { λ _ e. e ≡ refusal.NoMemory };

    fn from(_: NoMemory) -> AsmRefusal {
        AsmRefusal::NoMemory
    }
}

impl From<AllocError> for AsmRefusal {
    ghost use Rattle.std.specs.Prelude.{◌≡◌};
    ghost use Rattle.tb_mac.specs.declared.refusal.AsmRefusal.TheVariants as refusal;

    ghost from_gives = { λ _ e. e ≡ refusal.NoMemory };

    fn from(_: AllocError) -> AsmRefusal {
        AsmRefusal::NoMemory
    }
}

impl<T: Drop> From<AllocFailed<T>> for AsmRefusal {
    ghost use Rattle.std.specs.Prelude.{◌≡◌};
    ghost use Rattle.tb_mac.specs.declared.refusal.AsmRefusal.TheVariants as refusal;

    ghost from_gives = { λ _ e. e ≡ refusal.NoMemory };

    fn from(_: AllocFailed<T>) -> AsmRefusal {
        AsmRefusal::NoMemory
    }
}
