//! Why a text is not compiled.

ghost use Rattle.std.specs.Prelude.{◌≡◌};
ghost use Rattle.tb_twobit.specs.calls.Compiling.{refused_at};

use tb_core::CoreRefusal;
use tb_expand::ExpandRefusal;
use tb_prim::{NoMemory, Place};
use tb_sexp::ReadRefusal;

/// The kinds of refusals, with their numbers in the lines that tell them.
#[derive(Clone, Copy, Debug, PartialEq, Eq)]
pub enum RefusalKind {
    /// Bytes or tokens that continue no text.
    Syntax = 101,
    /// A list, a vector or a string that is not closed.
    Unclosed = 102,
    /// More than 256 levels of lists, vectors and marks, or more than 1,000 levels of expressions.
    TooDeep = 103,
    /// A name of more than 255 bytes, or a string of more than 65,535 characters.
    TooLong = 104,
    /// A number past the range of fixnums.
    TooBig = 105,
    /// A form that has none of its shapes, or what is no expression.
    BadForm = 106,
    /// A macro use that no pattern matches.
    NoMatch = 107,
    /// A macro's rules that are none.
    BadRules = 108,
    /// A call of more than 12 operands, or a lambda expression of more than 12 parameters.
    TooManyArgs = 109,
    /// A `define` at top level or a `set!` of a form's name or of an integrated one.
    Integrated = 110,
    /// A body or form wider than 1,000, or the sum of the squared widths past 1,048,576.
    TooWide = 111,
    /// The second of two equal variables that are bound together.
    Duplicate = 112,
    /// A limit on nodes, variables or static objects is passed.
    Budget = 113,
    /// A name that this profile of R5RS leaves out.
    NotInProfile = 114,
    /// A lawful form or name that is not built yet.
    NotBuilt = 115,
}

impl RefusalKind {
    ghost use Rattle.std.specs.Prelude.{◌≡◌};
    ghost use Rattle.tb_twobit.specs.Statuses as statuses;

    /// The number of the kind, 101 to 115.
    pub fn number(self) -> u32
        ensures { result ≡ statuses.refusal_number self }
    {
        self as u32
    }
}

/// Why and where a text is refused.
#[derive(Clone, Copy, Debug, PartialEq, Eq)]
pub struct Refusal {
    pub kind: RefusalKind,
    pub place: Place,
}

/// Why a text was not compiled: it is refused, or there was no memory.
#[derive(Clone, Copy, Debug, PartialEq, Eq)]
pub enum CompileRefusal {
    Refused(Refusal),
    NoMemory,
}

fn refused(kind: RefusalKind, place: Place) -> CompileRefusal
    ensures { result ≡ refused_at kind place }
{
    CompileRefusal::Refused(Refusal { kind, place })
}

impl From<ReadRefusal> for CompileRefusal {
    ghost use Rattle.std.specs.Prelude.{◌≡◌};
    ghost use Rattle.tb_twobit.specs.calls.Compiling.{of_reading};

    ghost from_gives = { λ refusal made. made ≡ of_reading refusal };

    fn from(refusal: ReadRefusal) -> CompileRefusal {
        match refusal {
            ReadRefusal::Syntax(place) => refused(RefusalKind::Syntax, place),
            ReadRefusal::Unclosed(place) => refused(RefusalKind::Unclosed, place),
            ReadRefusal::TooDeep(place) => refused(RefusalKind::TooDeep, place),
            ReadRefusal::TooLong(place) => refused(RefusalKind::TooLong, place),
            ReadRefusal::TooBig(place) => refused(RefusalKind::TooBig, place),
            ReadRefusal::NoMemory => CompileRefusal::NoMemory,
        }
    }
}

impl From<ExpandRefusal> for CompileRefusal {
    ghost use Rattle.std.specs.Prelude.{◌≡◌};
    ghost use Rattle.tb_twobit.specs.calls.Compiling.{of_expansion};

    ghost from_gives = { λ refusal made. made ≡ of_expansion refusal };

    fn from(refusal: ExpandRefusal) -> CompileRefusal {
        match refusal {
            ExpandRefusal::BadForm(place) => refused(RefusalKind::BadForm, place),
            ExpandRefusal::NoMatch(place) => refused(RefusalKind::NoMatch, place),
            ExpandRefusal::BadRules(place) => refused(RefusalKind::BadRules, place),
            ExpandRefusal::Integrated(place) => refused(RefusalKind::Integrated, place),
            ExpandRefusal::Duplicate(place) => refused(RefusalKind::Duplicate, place),
            ExpandRefusal::Budget(place) => refused(RefusalKind::Budget, place),
            ExpandRefusal::TooDeep(place) => refused(RefusalKind::TooDeep, place),
            ExpandRefusal::NotInProfile(place) => refused(RefusalKind::NotInProfile, place),
            ExpandRefusal::NotBuilt(place) => refused(RefusalKind::NotBuilt, place),
            ExpandRefusal::NoMemory => CompileRefusal::NoMemory,
        }
    }
}

impl From<CoreRefusal> for CompileRefusal {
    ghost use Rattle.std.specs.Prelude.{◌≡◌};
    ghost use Rattle.tb_twobit.specs.calls.Compiling.{of_limit};

    ghost from_gives = { λ refusal made. made ≡ of_limit refusal };

    fn from(refusal: CoreRefusal) -> CompileRefusal {
        match refusal {
            CoreRefusal::TooDeep(place) => refused(RefusalKind::TooDeep, place),
            CoreRefusal::TooManyArgs(place) => refused(RefusalKind::TooManyArgs, place),
            CoreRefusal::TooWide(place) => refused(RefusalKind::TooWide, place),
        }
    }
}

impl From<NoMemory> for CompileRefusal {
    ghost use Rattle.std.specs.Prelude.{◌≡◌};
    ghost use Rattle.tb_twobit.specs.declared.refusal.CompileRefusal.TheVariants as refusal;

    ghost from_gives = { λ _ made. made ≡ refusal.NoMemory };

    fn from(_: NoMemory) -> CompileRefusal {
        CompileRefusal::NoMemory
    }
}
