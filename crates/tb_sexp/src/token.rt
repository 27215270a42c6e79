use std::alloc::{AllocError, AllocFailed};
use tb_prim::{Bytes, NoMemory};

/// The abbreviations of lists of a name and a datum.
#[derive(Clone, Copy, Debug, PartialEq, Eq)]
pub enum Mark {
    Quote,
    Quasiquote,
    Unquote,
    UnquoteSplicing,
}

/// A token of a text. Letters of names are lower case.
#[derive(Debug, Drop)]
pub enum Token {
    Open,
    OpenVector,
    Close,
    Mark(Mark),
    Dot,
    Bool(bool),
    Fix(i32),
    Char(u8),
    Str(Bytes),
    Name(Bytes),
}

/// What is wrong where a token should begin. `BadEscape` has the number of the bytes of the string, its opening
/// quote included, that stand before the backslash.
#[derive(Clone, Copy, Debug, PartialEq, Eq)]
pub enum Fault {
    Syntax,
    LongName,
    BigNumber,
    LongString,
    BadEscape(usize),
    OpenString,
}

/// Why no token was read.
#[derive(Clone, Copy, Debug, PartialEq, Eq)]
pub enum TokenRefusal {
    Fault(Fault),
    NoMemory,
}

impl From<NoMemory> for TokenRefusal {
    ghost use Rattle.std.specs.Prelude.{◌≡◌};
    ghost use Rattle.tb_sexp.specs.declared.token.TokenRefusal.TheVariants as refusal;

    ghost from_gives = { λ _ e. e ≡ refusal.NoMemory };

    fn from(_: NoMemory) -> TokenRefusal {
        TokenRefusal::NoMemory
    }
}

impl From<AllocError> for TokenRefusal {
    ghost use Rattle.std.specs.Prelude.{◌≡◌};
    ghost use Rattle.tb_sexp.specs.declared.token.TokenRefusal.TheVariants as refusal;

    ghost from_gives = { λ _ e. e ≡ refusal.NoMemory };

    fn from(_: AllocError) -> TokenRefusal {
        TokenRefusal::NoMemory
    }
}

impl<T: Drop> From<AllocFailed<T>> for TokenRefusal {
    ghost use Rattle.std.specs.Prelude.{◌≡◌};
    ghost use Rattle.tb_sexp.specs.declared.token.TokenRefusal.TheVariants as refusal;

    ghost from_gives = { λ _ e. e ≡ refusal.NoMemory };

    fn from(_: AllocFailed<T>) -> TokenRefusal {
        TokenRefusal::NoMemory
    }
}

impl From<Fault> for TokenRefusal {
    ghost use Rattle.std.specs.Prelude.{◌≡◌};
    ghost use Rattle.tb_sexp.specs.declared.token.TokenRefusal.TheVariants as refusal;

    ghost from_gives = { λ fault e. e ≡ refusal.Fault fault };

    fn from(fault: Fault) -> TokenRefusal {
        TokenRefusal::Fault(fault)
    }
}
