//! The definitions at the head of a body.
ghost use Rattle.std.specs.Prelude.{◌≡◌, [], ◌∷◌, IfOk, MatchOption, MatchResult};
ghost use Rattle.tb_expand.specs.Bodies.{ScanRefuses};
ghost use Rattle.tb_expand.specs.Limits as limits;
ghost use Rattle.tb_expand.specs.Scopes.{enter, fresh};
ghost use Rattle.tb_expand.specs.View.{Defines, Fails, NoDefinition, data_of, view_lists, view_name, view_state};
ghost use Rattle.tb_expand.specs.calls.Scanned.{BeginRefuses, ItemRefuses, Passes, ScanGives, Stands};
ghost use Rattle.tb_sexp.specs.Tree as tree;
ghost use Rattle.tb_sexp.specs.View as data_view;

use super::context::Context;
use super::definition::{Defined, Definition, Kind, definition_of, item_kind};
use super::name::{Name, Variable};
use super::refusal::ExpandRefusal;
use super::shapes::{Binder, first_and_rest};
use super::state::{Scope, State};
use std::alloc::Global;
use tb_prim::{NoMemory, Place};
use tb_sexp::Datum;

/// The definitions found so far: the variables, the names as they stand there, and what they are defined as.
#[derive(Debug, Drop)]
pub struct Found<'a> {
    pub variables: Vec<Variable<'a>>,
    pub binders: Vec<Binder<'a>>,
    pub values: Vec<Defined<'a>>,
}

/// The same context in another scope.
fn within(context: Context, scope: usize) -> Context
    ensures { result ≡ limits.within scope context }
{
    Context {
        library: context.library,
        scope,
        levels: context.levels,
        is_value: context.is_value,
    }
}

/// A new scope in this one, of one name, and its number.
fn enter_one<'a>(
    alloc: Global,
    state: &mut State<'a>,
    around: usize,
    name: Name<'a>,
) -> Result<usize, NoMemory>
    ensures { IfOk result (λ s. (s ≡ fresh (view_state state.old)) × (view_state state.new ≡ enter (view_state state.old) around (view_name name.entry ∷ []))) }
{
    let mut names = Vec::new(alloc);
    names.push(name)?;
    state.scopes.push(Scope { around, names })?;
    Ok(state.scopes.len())
}

/// A definition with these parts: its scope.
fn scan_definition<'a>(
    alloc: Global,
    state: &mut State<'a>,
    context: Context,
    place: Place,
    rest: &'a [Datum],
    found: &mut Found<'a>,
) -> Result<usize, ExpandRefusal>
    ensures { MatchResult result (λ s. Defines (view_state state.old) context place (data_of rest.now) (view_lists found.old) s (view_state state.new) (view_lists found.new)) (λ e. Fails (NoDefinition place (data_of rest.now)) e) }
{
    let Some(definition) = definition_of(alloc, place, rest)? else {
        return Err(ExpandRefusal::BadForm(place));
    };
    let Definition { binder, value } = definition;
    let scope = enter_one(alloc, state, context.scope, binder.name)?;
    found.variables.push(Variable {
        scope,
        name: binder.name,
    })?;
    found.binders.push(binder)?;
    found.values.push(value)?;
    Ok(scope)
}

/// A `begin` of these items, which all define: the scope of their definitions.
#[cycle(scan)]
fn scan_begin<'a>(
    alloc: Global,
    state: &mut State<'a>,
    context: Context,
    place: Place,
    items: &'a [Datum],
    found: &mut Found<'a>,
) -> Result<usize, ExpandRefusal>
    ensures { MatchResult result (λ s. ScanGives (view_state state.old) context (data_of items.now) (view_lists found.old) (view_state state.new) s tree.none (view_lists found.new)) (λ e. Fails (BeginRefuses (view_state state.old) context place (data_of items.now)) e) }
{
    match scan_items(alloc, state, context, items, found) {
        Ok((scope, behind)) => match first_and_rest(behind) {
            None => Ok(scope),
            Some(_) => Err(ExpandRefusal::BadForm(place)),
        },
        Err(refusal) => Err(refusal),
    }
}

/// An item that defines: the scope of its definitions. None is the answer for an expression.
#[cycle(scan)]
fn scan_item<'a>(
    alloc: Global,
    state: &mut State<'a>,
    context: Context,
    item: &'a Datum,
    found: &mut Found<'a>,
) -> Result<Option<usize>, ExpandRefusal>
    ensures { MatchResult result (λ o. MatchOption o (Stands (view_state state.old) context (data_view.view item.now) (view_lists found.old) (view_state state.new) (view_lists found.new)) (λ s. Passes (view_state state.old) context (data_view.view item.now) (view_lists found.old) s (view_state state.new) (view_lists found.new))) (λ e. Fails (ItemRefuses (view_state state.old) context (data_view.view item.now)) e) }
{
    match item_kind(state, context, item) {
        Kind::Expression => Ok(None),
        Kind::Defining(place, rest) => {
            match scan_definition(alloc, state, context, place, rest, found) {
                Ok(scope) => Ok(Some(scope)),
                Err(refusal) => Err(refusal),
            }
        }
        Kind::Beginning(place, rest) => {
            match scan_begin(alloc, state, context, place, rest, found) {
                Ok(scope) => Ok(Some(scope)),
                Err(refusal) => Err(refusal),
            }
        }
    }
}

/// The items of a body from its front: the scope of all definitions, and the items from the first expression on. What
/// is found is added to `found`.
#[cycle(scan)]
pub fn scan_items<'a>(
    alloc: Global,
    state: &mut State<'a>,
    context: Context,
    items: &'a [Datum],
    found: &mut Found<'a>,
) -> Result<(usize, &'a [Datum]), ExpandRefusal>
    ensures { MatchResult result (λ r. ScanGives (view_state state.old) context (data_of items.now) (view_lists found.old) (view_state state.new) r.0 (data_of r.1.now) (view_lists found.new)) (λ e. Fails (ScanRefuses (view_state state.old) context (data_of items.now)) e) }
{
    let mut scope = context.scope;
    for i in 0..items.len() {
        match scan_item(alloc, state, within(context, scope), &items[i], found) {
            Ok(Some(inner)) => scope = inner,
            Ok(None) => return Ok((scope, &items[i..])),
            Err(refusal) => return Err(refusal),
        }
    }
    Ok((scope, &[]))
}
