//! Why a form has no rules.
use tb_prim::{NoMemory, Place};

/// Why a `syntax-rules` form is refused. `BadRules` comes before `NotInProfile`.
#[derive(Clone, Copy, Debug, PartialEq, Eq)]
pub enum RulesRefusal {
    /// The form, at this place, has no rules.
    BadRules(Place),
    /// The first vector in a pattern or a template.
    NotInProfile(Place),
    /// There is no memory left.
    NoMemory,
}

impl From<NoMemory> for RulesRefusal {
    ghost use Rattle.std.specs.Prelude.{◌≡◌};
    ghost use Rattle.tb_rules.specs.declared.refusal.RulesRefusal.TheVariants as refusal;

    ghost from_gives = { λ _ e. e ≡ refusal.NoMemory };

    fn from(_: NoMemory) -> RulesRefusal {
        RulesRefusal::NoMemory
    }
}
