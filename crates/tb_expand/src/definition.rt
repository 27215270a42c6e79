//! Definitions, and the items of bodies and texts that define.
ghost use Rattle.std.specs.Prelude.{◌≡◌, IfOk, MatchOption, None, Some};
ghost use Rattle.tb_expand.specs.Bodies as bodies;
ghost use Rattle.tb_expand.specs.Shapes as shapes;
ghost use Rattle.tb_expand.specs.Texts as texts;
ghost use Rattle.tb_expand.specs.View.{data_of, view_binder, view_definition, view_kind, view_state, view_target};
ghost use Rattle.tb_sexp.specs.View as data_view;

use super::context::Context;
use super::expression::{Head, read_head};
use super::form::Form;
use super::shapes::{
    Binder, Counted, Formals, behind as behind_of, binder_of, binders_of, elements_of,
    first_and_rest,
};
use super::state::State;
use std::alloc::Global;
use tb_prim::{NoMemory, Place};
use tb_sexp::{Datum, Node};

/// The name and the parameters of a procedure that is defined.
#[derive(Debug, Drop)]
pub struct Target<'a> {
    pub binder: Binder<'a>,
    pub formals: Formals<'a>,
}

/// What a name is defined as: an expression, or a lambda expression at the place of the definition.
#[derive(Debug, Drop)]
pub enum Defined<'a> {
    Value(&'a Datum),
    Procedure(Place, Formals<'a>, &'a [Datum]),
}

/// A definition.
#[derive(Debug, Drop)]
pub struct Definition<'a> {
    pub binder: Binder<'a>,
    pub value: Defined<'a>,
}

/// The name and the parameters in a list of these elements.
fn target_in<'a>(alloc: Global, elements: &'a [Datum]) -> Result<Option<Target<'a>>, NoMemory>
    ensures { IfOk result (λ o. MatchOption o (shapes.target_in (data_of elements.now) ≡ None) (λ t. shapes.target_in (data_of elements.now) ≡ Some (view_target t))) }
{
    let Some((name, parameters)) = first_and_rest(elements) else {
        return Ok(None);
    };
    let Some(binder) = binder_of(name) else {
        return Ok(None);
    };
    let Some(fixed) = binders_of(alloc, parameters)? else {
        return Ok(None);
    };
    let formals = Formals { fixed, rest: None };
    Ok(Some(Target { binder, formals }))
}

/// The same where a rest parameter stands behind them.
fn target_before<'a>(
    alloc: Global,
    elements: &'a [Datum],
    tail: &'a Datum,
) -> Result<Option<Target<'a>>, NoMemory>
    ensures { IfOk result (λ o. MatchOption o (shapes.target_before (data_of elements.now) (data_view.view tail.now) ≡ None) (λ t. shapes.target_before (data_of elements.now) (data_view.view tail.now) ≡ Some (view_target t))) }
{
    let Some((name, parameters)) = first_and_rest(elements) else {
        return Ok(None);
    };
    let Some(binder) = binder_of(name) else {
        return Ok(None);
    };
    let Some(fixed) = binders_of(alloc, parameters)? else {
        return Ok(None);
    };
    let Some(rest) = binder_of(tail) else {
        return Ok(None);
    };
    let formals = Formals {
        fixed,
        rest: Some(rest),
    };
    Ok(Some(Target { binder, formals }))
}

/// The name and the parameters in `(f . formals)`.
fn target_of<'a>(alloc: Global, datum: &'a Datum) -> Result<Option<Target<'a>>, NoMemory>
    ensures { IfOk result (λ o. MatchOption o (shapes.target_of (data_view.view datum.now) ≡ None) (λ t. shapes.target_of (data_view.view datum.now) ≡ Some (view_target t))) }
{
    match &datum.node {
        Node::List(elements, None) => target_in(alloc, elements.as_slice()),
        Node::List(elements, Some(tail)) => target_before(alloc, elements.as_slice(), tail.get()),
        _ => Ok(None),
    }
}

/// The definition at this place, from what stands behind `define` (R5RS 5.2).
pub fn definition_of<'a>(
    alloc: Global,
    place: Place,
    rest: &'a [Datum],
) -> Result<Option<Definition<'a>>, NoMemory>
    ensures { IfOk result (λ o. MatchOption o (shapes.definition_of place (data_of rest.now) ≡ None) (λ i. shapes.definition_of place (data_of rest.now) ≡ Some (view_definition i))) }
{
    let Some((first, behind)) = first_and_rest(rest) else {
        return Ok(None);
    };
    match binder_of(first) {
        Some(binder) => Ok(value_definition(binder, behind)),
        None => match target_of(alloc, first)? {
            Some(target) => Ok(procedure_definition(place, target, behind)),
            None => Ok(None),
        },
    }
}

fn value_definition<'a>(binder: Binder<'a>, behind: &'a [Datum]) -> Option<Definition<'a>>
    ensures { MatchOption result (shapes.value_definition (view_binder binder.entry) (data_of behind.now) ≡ None) (λ i. shapes.value_definition (view_binder binder.entry) (data_of behind.now) ≡ Some (view_definition i)) }
{
    match behind_of(behind) {
        Counted::One(value) => Some(Definition {
            binder,
            value: Defined::Value(value),
        }),
        _ => None,
    }
}

fn procedure_definition<'a>(
    place: Place,
    target: Target<'a>,
    body: &'a [Datum],
) -> Option<Definition<'a>>
    ensures { MatchOption result (shapes.procedure_definition place (Some (view_target target.entry)) (data_of body.now) ≡ None) (λ i. shapes.procedure_definition place (Some (view_target target.entry)) (data_of body.now) ≡ Some (view_definition i)) }
{
    let Target { binder, formals } = target;
    match first_and_rest(body) {
        Some(_) => Some(Definition {
            binder,
            value: Defined::Procedure(place, formals, body),
        }),
        None => None,
    }
}

/// Whether an item defines: a `define`, or a `begin` that is empty or whose first item defines.
#[cycle(defines)]
pub fn defines(state: &State, context: Context, datum: &Datum) -> bool
    ensures { result ≡ bodies.defines (view_state state.now) context (data_view.view datum.now) }
{
    match elements_of(datum) {
        Some(elements) => defines_in(state, context, elements),
        None => false,
    }
}

/// The same of a list of these elements.
#[cycle(defines)]
fn defines_in(state: &State, context: Context, elements: &[Datum]) -> bool
    ensures { result ≡ bodies.defines_in (view_state state.now) context (data_of elements.now) }
{
    let Some((first, rest)) = first_and_rest(elements) else {
        return false;
    };
    match read_head(state, context, first) {
        Head::Keyword(Form::Defining) => true,
        Head::Keyword(Form::Beginning) => match first_and_rest(rest) {
            Some((item, _)) => defines(state, context, item),
            None => true,
        },
        _ => false,
    }
}

/// What an item of a body or of a text is.
#[derive(Clone, Copy, Debug)]
pub enum Kind<'a> {
    Expression,
    Defining(Place, &'a [Datum]),
    Beginning(Place, &'a [Datum]),
}

/// What an item of a body is in a scope.
#[tactic(auto, using(crate::proofs::Reading::place_viewed), unfolding(crate::specs::Bodies::kind))]
pub fn item_kind<'a>(state: &State<'a>, context: Context, datum: &'a Datum) -> Kind<'a>
    ensures { view_kind result ≡ bodies.kind (view_state state.now) context (data_view.view datum.now) }
{
    let Some(elements) = elements_of(datum) else {
        return Kind::Expression;
    };
    let Some((first, rest)) = first_and_rest(elements) else {
        return Kind::Expression;
    };
    match read_head(state, context, first) {
        Head::Keyword(Form::Defining) => Kind::Defining(datum.place, rest),
        Head::Keyword(Form::Beginning) => {
            if begins(state, context, rest) {
                Kind::Beginning(datum.place, rest)
            } else {
                Kind::Expression
            }
        }
        _ => Kind::Expression,
    }
}

/// Whether there are no items, or the first defines.
fn begins(state: &State, context: Context, items: &[Datum]) -> bool
    ensures { result ≡ bodies.begins (view_state state.now) context (data_of items.now) }
{
    match first_and_rest(items) {
        Some((item, _)) => defines(state, context, item),
        None => true,
    }
}

/// What a form at top level is, where every `begin` stands for its forms.
#[tactic(auto, using(crate::proofs::Reading::place_viewed), unfolding(crate::specs::Texts::top_kind))]
pub fn form_kind<'a>(state: &State<'a>, context: Context, datum: &'a Datum) -> Kind<'a>
    ensures { view_kind result ≡ texts.top_kind (view_state state.now) context (data_view.view datum.now) }
{
    let Some(elements) = elements_of(datum) else {
        return Kind::Expression;
    };
    let Some((first, rest)) = first_and_rest(elements) else {
        return Kind::Expression;
    };
    match read_head(state, context, first) {
        Head::Keyword(Form::Defining) => Kind::Defining(datum.place, rest),
        Head::Keyword(Form::Beginning) => Kind::Beginning(datum.place, rest),
        _ => Kind::Expression,
    }
}
