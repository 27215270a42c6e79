//! Why a text is not expanded.
use std::alloc::{AllocError, AllocFailed};
use tb_prim::{NoMemory, Place};

/// Why a text is not expanded, and where: each kind but want of memory is the first refusal of the text.
#[derive(Clone, Copy, Debug, PartialEq, Eq)]
pub enum ExpandRefusal {
    /// A form that has none of its shapes, or what is no expression.
    BadForm(Place),
    /// A macro use that no pattern matches.
    NoMatch(Place),
    /// A macro's rules that are none.
    BadRules(Place),
    /// A `define` at top level or a `set!` of a form's name or of an integrated one.
    Integrated(Place),
    /// The second of two equal variables that are bound together.
    Duplicate(Place),
    /// A limit on nodes, variables or static objects is passed.
    Budget(Place),
    /// An expression inside too many others.
    TooDeep(Place),
    /// A name that this profile of R5RS leaves out.
    NotInProfile(Place),
    /// A lawful form or name that is not built yet.
    NotBuilt(Place),
    /// There is no memory left.
    NoMemory,
}

impl From<NoMemory> for ExpandRefusal {
    ghost use Rattle.std.specs.Prelude.{◌≡◌};
    ghost use Rattle.tb_expand.specs.declared.refusal.ExpandRefusal.TheVariants as refusal;

    ghost from_gives = { λ _ e. e ≡ refusal.NoMemory };

    fn from(_: NoMemory) -> ExpandRefusal {
        ExpandRefusal::NoMemory
    }
}

impl From<AllocError> for ExpandRefusal {
    ghost use Rattle.std.specs.Prelude.{◌≡◌};
    ghost use Rattle.tb_expand.specs.declared.refusal.ExpandRefusal.TheVariants as refusal;

    ghost from_gives = { λ _ e. e ≡ refusal.NoMemory };

    fn from(_: AllocError) -> ExpandRefusal {
        ExpandRefusal::NoMemory
    }
}

impl<T: Drop> From<AllocFailed<T>> for ExpandRefusal {
    ghost use Rattle.std.specs.Prelude.{◌≡◌};
    ghost use Rattle.tb_expand.specs.declared.refusal.ExpandRefusal.TheVariants as refusal;

    ghost from_gives = { λ _ e. e ≡ refusal.NoMemory };

    fn from(_: AllocFailed<T>) -> ExpandRefusal {
        ExpandRefusal::NoMemory
    }
}
