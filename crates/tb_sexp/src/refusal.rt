use tb_prim::{NoMemory, Place};

/// Why a text was not read. `Unclosed` has the place of the list, vector or string that was opened last and is not
/// closed; the others have the place of what is wrong.
#[derive(Clone, Copy, Debug, PartialEq, Eq)]
pub enum ReadRefusal {
    Syntax(Place),
    Unclosed(Place),
    TooDeep(Place),
    TooLong(Place),
    TooBig(Place),
    NoMemory,
}

impl From<NoMemory> for ReadRefusal {
    ghost use Rattle.std.specs.Prelude.{◌≡◌};
    ghost use Rattle.tb_sexp.specs.declared.refusal.ReadRefusal.TheVariants as refusal;

    ghost from_gives = { λ _ e. e ≡ refusal.NoMemory };

    fn from(_: NoMemory) -> ReadRefusal {
        ReadRefusal::NoMemory
    }
}
