//! What was made so far, and what a name means.
ghost use Rattle.std.specs.Prelude.{◌≡◌};
ghost use Rattle.tb_expand.specs.Scopes.{binding, meaning};
ghost use Rattle.tb_expand.specs.View.{older, view_meaning, view_name, view_option, view_state};
ghost use Rattle.tb_expand.specs.Words.{word_of as word_of_in};

use super::context::Context;
use super::form::{Form, form_of};
use super::name::{Name, Variable, is_among};
use tb_prim::{Prim, prim_of};

/// A scope: the number of the scope around it, and the names that it binds.
#[derive(Debug, Drop)]
pub struct Scope<'a> {
    pub around: usize,
    pub names: Vec<Name<'a>>,
}

/// What was made so far: the scopes, oldest first, with number 1 for the first; how many nodes, variables and static
/// objects, how many words these objects take; and the texts of the symbols among them.
#[derive(Debug, Drop)]
pub struct State<'a> {
    pub scopes: Vec<Scope<'a>>,
    pub nodes: usize,
    pub variables: usize,
    pub objects: usize,
    pub words: usize,
    pub symbols: Vec<&'a [u8]>,
}

/// What a name means.
#[derive(Clone, Copy, Debug)]
pub enum Meaning<'a> {
    Variable(Variable<'a>),
    Special(Form),
    Integrated(Prim),
    Plain(&'a [u8]),
}

/// The innermost binding of the name, from the scope of this number outwards.
pub fn find_binding<'a>(scopes: &[Scope<'a>], scope: usize, name: Name<'a>) -> Option<Variable<'a>>
    ensures { view_option result ≡ binding (older scopes.now) scope (view_name name.entry) }
{
    let mut limit = scopes.len();
    let mut number = scope;
    while 0 < number && number <= limit {
        let found = &scopes[number - 1];
        if is_among(name, found.names.as_slice()) {
            return Some(Variable {
                scope: number,
                name,
            });
        }
        limit = number - 1;
        number = found.around;
    }
    None
}

/// The form, the integrated primitive or the global of a text, in the library or in a program.
#[tactic(auto, unfolding(crate::specs::Words::word_of))]
pub fn word_of<'a>(library: bool, text: &'a [u8]) -> Meaning<'a>
    ensures { view_meaning result ≡ word_of_in library text.now }
{
    match form_of(text) {
        Some(form) => Meaning::Special(form),
        None => match prim_of(text, library) {
            Some(prim) => Meaning::Integrated(prim),
            None => Meaning::Plain(text),
        },
    }
}

/// What a name means in a context.
pub fn find_meaning<'a>(state: &State<'a>, context: Context, name: Name<'a>) -> Meaning<'a>
    ensures { view_meaning result ≡ meaning (view_state state.now) context (view_name name.entry) }
{
    match find_binding(state.scopes.as_slice(), context.scope, name) {
        Some(variable) => Meaning::Variable(variable),
        None => word_of(context.library, name.text),
    }
}
