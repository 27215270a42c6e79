//! Names in rules: the ellipsis, the literals, and variables.
ghost use Rattle.std.specs.Prelude.{◌≡◌, ◌+◌, ◌<◌, drop, length, map};
ghost use Rattle.tb_rules.specs.Names as names;
ghost use Rattle.tb_rules.specs.Patterns.{is_none};
ghost use Rattle.tb_rules.specs.View.{data_of, view_variable};
ghost use Rattle.tb_sexp.specs.View.{view};

use tb_sexp::{Datum, Node};

/// A variable of a pattern: its name, and how many ellipses it stands under.
#[derive(Clone, Copy, Debug)]
pub struct Variable<'a> {
    pub text: &'a [u8],
    pub alias: u32,
    pub depth: u32,
}

/// Whether the text is that of the ellipsis.
#[tactic(auto, unfolding(crate::specs::Names::is_dots))]
pub fn is_dots(text: &[u8]) -> bool
    ensures { result ≡ names.is_dots text.now }
{
    text == b"...".as_slice()
}

/// Whether two names are the same, alias and all.
#[tactic(auto, unfolding(crate::specs::Names::same_name))]
fn same_name(one: &[u8], alias: u32, other: &[u8], other_alias: u32) -> bool
    ensures { result ≡ names.same_name one.now alias other.now other_alias }
{
    one == other && alias == other_alias
}

/// Whether the datum is a name.
pub fn is_name(datum: &Datum) -> bool
    ensures { result ≡ names.is_name (view datum.now) }
{
    matches!(&datum.node, Node::Name(_, _))
}

/// Whether the data are all names.
pub fn are_names(datums: &[Datum]) -> bool
    ensures { result ≡ names.are_names (data_of datums.now) }
{
    for datum in datums {
        if !is_name(datum) {
            return false;
        }
    }
    true
}

/// Whether the datum is the ellipsis.
pub fn is_ellipsis(datum: &Datum) -> bool
    ensures { result ≡ names.is_ellipsis (view datum.now) }
{
    match &datum.node {
        Node::Name(text, _) => is_dots(text.as_slice()),
        _ => false,
    }
}

/// Whether an ellipsis stands behind the element of this number.
pub fn is_repeated(elements: &[Datum], index: usize) -> bool
    requires { index < length elements.now }
    ensures { result ≡ names.begin_with_ellipsis (data_of (drop (index + 1) elements.now)) }
{
    match elements.get(index + 1) {
        Some(next) => is_ellipsis(next),
        None => false,
    }
}

/// Whether no element stands behind the one of this number.
pub fn is_last(elements: &[Datum], index: usize) -> bool
    requires { index < length elements.now }
    ensures { result ≡ is_none (data_of (drop (index + 1) elements.now)) }
{
    elements.get(index + 1).is_none()
}

/// Whether the datum is this name.
fn is_this(text: &[u8], alias: u32, datum: &Datum) -> bool
    ensures { result ≡ names.is_this text.now alias (view datum.now) }
{
    match &datum.node {
        Node::Name(other, other_alias) => same_name(text, alias, other.as_slice(), *other_alias),
        _ => false,
    }
}

/// Whether the name is one of the literals.
pub fn is_literal(literals: &[Datum], text: &[u8], alias: u32) -> bool
    ensures { result ≡ names.is_literal (data_of literals.now) text.now alias }
{
    for literal in literals {
        if is_this(text, alias, literal) {
            return true;
        }
    }
    false
}

/// Whether the variable has this name.
pub fn is_named(text: &[u8], alias: u32, variable: Variable) -> bool
    ensures { result ≡ names.is_named text.now alias (view_variable variable.entry) }
{
    same_name(text, alias, variable.text, variable.alias)
}

/// Whether one of the variables has this name.
pub fn has_variable(variables: &[Variable], text: &[u8], alias: u32) -> bool
    ensures { result ≡ names.has_variable (map view_variable variables.now) text.now alias }
{
    for variable in variables {
        if is_named(text, alias, *variable) {
            return true;
        }
    }
    false
}

/// Whether no name stands twice.
pub fn are_apart(variables: &[Variable]) -> bool
    ensures { result ≡ names.are_apart (map view_variable variables.now) }
{
    for (i, variable) in variables.iter().enumerate() {
        if has_variable(&variables[i + 1..], variable.text, variable.alias) {
            return false;
        }
    }
    true
}
