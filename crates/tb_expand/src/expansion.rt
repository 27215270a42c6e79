//! The expansion of data: what a datum means in a context, or the first refusal in it.
ghost use Rattle.std.specs.Prelude.{◌≡◌, ◌≢◌, [], MatchResult, map};
ghost use Rattle.tb_expand.specs.Expressions as expressions;
ghost use Rattle.tb_expand.specs.Means.{Means, MeansAll, MeansBody, MeansDefined, MeansEach, MeansLambda, MeansSequence, Refuses, RefusesAll, RefusesBody, RefusesDefined, RefusesEach, RefusesLambda, RefusesSequence};
ghost use Rattle.tb_expand.specs.View.{Fails, data_of, nodes, view, view_build, view_defined, view_expression, view_formals, view_found, view_pairs, view_state};
ghost use Rattle.tb_expand.specs.calls.Expanded.{BodyDenies, BodyGives, Denies, Gives, IsSuited};
ghost use Rattle.tb_sexp.specs.Tree as tree;
ghost use Rattle.tb_sexp.specs.View as data_view;

use super::build::{build_core, follows};
use super::context::Context;
use super::definition::Defined;
use super::expression::{Build, Expression, read_expression};
use super::limits::{count_nodes, open_node};
use super::node::{
    bind_together, enter, inner, lambda_nodes, letrec_body, make_constant, make_global,
    make_lambda, make_let, make_local, make_sequence, of_values, open_definitions, rest_context,
    values_of, variables_of, within,
};
use super::refusal::ExpandRefusal;
use super::scan::{Found, scan_items};
use super::shapes::{Formals, Pair, bound_twice, pair_binders, parameters_of};
use super::splitting::finish_split;
use super::state::State;
use super::tree::Node;
use std::alloc::Global;
use tb_prim::Place;
use tb_sexp::Datum;

/// What a datum means.
#[cycle(expand)]
pub fn expand_datum<'a>(
    alloc: Global,
    state: &mut State<'a>,
    context: Context,
    datum: &'a Datum,
) -> Result<Node<'a>, ExpandRefusal>
    ensures { MatchResult result (λ e. Means (view_state state.old) context (data_view.view datum.now) (view e) (view_state state.new)) (λ r. Fails (Refuses (view_state state.old) context (data_view.view datum.now)) r) }
{
    match read_expression(alloc, state, context, datum) {
        Ok(expression) => {
            match expand_form(alloc, state, context, datum.place, expression) {
                Ok(node) => Ok(node),
                Err(refusal) => Err(refusal),
            }
        }
        Err(refusal) => Err(refusal),
    }
}

/// What an expression means at this place.
#[cycle(expand)]
fn expand_form<'a>(
    alloc: Global,
    state: &mut State<'a>,
    context: Context,
    place: Place,
    expression: Expression<'a>,
) -> Result<Node<'a>, ExpandRefusal>
    requires { IsSuited (view_expression expression) }
    ensures { MatchResult result (λ e. Gives (view_state state.old) context place (view_expression expression.entry) (view e) (view_state state.new)) (λ r. Fails (Denies (view_state state.old) context place (view_expression expression.entry)) r) }
{
    match expression {
        Expression::Constant(node) => make_constant(state, context, place, node),
        Expression::Local(variable) => make_local(state, context, place, variable),
        Expression::Global(text) => make_global(state, context, place, text),
        Expression::Operands(build, datums) => {
            expand_operands(alloc, state, context, place, build, datums)
        }
        Expression::Assignment(build, datum) => {
            expand_assignment(alloc, state, context, place, build, datum)
        }
        Expression::Sequence(datums) => {
            match expand_sequence(alloc, state, context, place, datums) {
                Ok(node) => Ok(node),
                Err(refusal) => Err(refusal),
            }
        }
        Expression::Procedure(formals, body) => {
            match expand_lambda(alloc, state, context, place, &formals, body) {
                Ok(node) => Ok(node),
                Err(refusal) => Err(refusal),
            }
        }
        Expression::Binding(pairs, body) => {
            expand_let(alloc, state, context, place, pairs.as_slice(), body)
        }
        Expression::Recursion(pairs, body) => {
            expand_letrec(alloc, state, context, place, pairs.as_slice(), body)
        }
    }
}

/// A form that has nothing but operands.
#[cycle(expand)]
fn expand_operands<'a>(
    alloc: Global,
    state: &mut State<'a>,
    context: Context,
    place: Place,
    build: Build<'a>,
    datums: &'a [Datum],
) -> Result<Node<'a>, ExpandRefusal>
    requires { IsSuited (expressions.Operands (view_build build) (data_of datums.now)) }
    ensures { MatchResult result (λ e. Gives (view_state state.old) context place (expressions.Operands (view_build build.entry) (data_of datums.now)) (view e) (view_state state.new)) (λ r. Fails (Denies (view_state state.old) context place (expressions.Operands (view_build build.entry) (data_of datums.now))) r) }
{
    match open_node(state, context, place, 1, 0) {
        Ok(()) => match expand_all(alloc, state, inner(context), datums) {
            Ok(parts) => match count_nodes(state, place, follows(&build), 0) {
                Ok(()) => Ok(Node {
                    place,
                    core: build_core(alloc, place, build, parts)?,
                }),
                Err(refusal) => Err(refusal),
            },
            Err(refusal) => Err(refusal),
        },
        Err(refusal) => Err(refusal),
    }
}

/// An assignment of the value of this datum.
#[cycle(expand)]
fn expand_assignment<'a>(
    alloc: Global,
    state: &mut State<'a>,
    context: Context,
    place: Place,
    build: Build<'a>,
    datum: &'a Datum,
) -> Result<Node<'a>, ExpandRefusal>
    requires { IsSuited (expressions.Operands (view_build build) (tree.more (data_view.view datum.now) tree.none)) }
    ensures { MatchResult result (λ e. Gives (view_state state.old) context place (expressions.Operands (view_build build.entry) (tree.more (data_view.view datum.now) tree.none)) (view e) (view_state state.new)) (λ r. Fails (Denies (view_state state.old) context place (expressions.Operands (view_build build.entry) (tree.more (data_view.view datum.now) tree.none))) r) }
{
    match open_node(state, context, place, 1, 0) {
        Ok(()) => match expand_datum(alloc, state, inner(context), datum) {
            Ok(value) => {
                let parts = vec![in alloc; value]?;
                match count_nodes(state, place, follows(&build), 0) {
                    Ok(()) => Ok(Node {
                        place,
                        core: build_core(alloc, place, build, parts)?,
                    }),
                    Err(refusal) => Err(refusal),
                }
            }
            Err(refusal) => Err(refusal),
        },
        Err(refusal) => Err(refusal),
    }
}

/// What data mean, one after another.
#[cycle(expand)]
pub fn expand_all<'a>(
    alloc: Global,
    state: &mut State<'a>,
    context: Context,
    datums: &'a [Datum],
) -> Result<Vec<Node<'a>>, ExpandRefusal>
    ensures { MatchResult result (λ es. MeansAll (view_state state.old) context (data_of datums.now) (nodes (map view es.items)) (view_state state.new)) (λ r. Fails (RefusesAll (view_state state.old) context (data_of datums.now)) r) }
{
    let mut parts = Vec::new(alloc);
    for i in 0..datums.len() {
        match expand_datum(alloc, state, context, &datums[i]) {
            Ok(node) => parts.push(node)?,
            Err(refusal) => return Err(refusal),
        }
    }
    Ok(parts)
}

/// Expressions in written order as one: a single one is itself.
#[cycle(expand)]
fn expand_sequence<'a>(
    alloc: Global,
    state: &mut State<'a>,
    context: Context,
    place: Place,
    datums: &'a [Datum],
) -> Result<Node<'a>, ExpandRefusal>
    ensures { MatchResult result (λ e. MeansSequence (view_state state.old) context place (data_of datums.now) (view e) (view_state state.new)) (λ r. Fails (RefusesSequence (view_state state.old) context place (data_of datums.now)) r) }
{
    if datums.is_empty() {
        return Err(ExpandRefusal::BadForm(place));
    }
    if datums.len() == 1 {
        return match expand_datum(alloc, state, context, &datums[0]) {
            Ok(node) => Ok(node),
            Err(refusal) => Err(refusal),
        };
    }
    match open_node(state, context, place, 1, 0) {
        Ok(()) => match expand_all(alloc, state, inner(context), datums) {
            Ok(parts) => Ok(make_sequence(place, parts)),
            Err(refusal) => Err(refusal),
        },
        Err(refusal) => Err(refusal),
    }
}

/// A lambda expression at this place.
#[cycle(expand)]
fn expand_lambda<'a>(
    alloc: Global,
    state: &mut State<'a>,
    context: Context,
    place: Place,
    formals: &Formals<'a>,
    body: &'a [Datum],
) -> Result<Node<'a>, ExpandRefusal>
    ensures { MatchResult result (λ e. MeansLambda (view_state state.old) context place (view_formals formals.now) (data_of body.now) (view e) (view_state state.new)) (λ r. Fails (RefusesLambda (view_state state.old) context place (view_formals formals.now) (data_of body.now)) r) }
{
    let parameters = parameters_of(alloc, formals)?;
    let binders = parameters.as_slice();
    match open_node(state, context, place, lambda_nodes(context), binders.len()) {
        Ok(()) => {
            let scope = enter(alloc, state, context.scope, binders)?;
            match expand_body(alloc, state, within(inner(context), scope), place, body) {
                Ok(node) => Ok(make_lambda(alloc, place, scope, formals, node)?),
                Err(refusal) => Err(refusal),
            }
        }
        Err(refusal) => Err(refusal),
    }
}

/// A `let` of these bindings.
#[cycle(expand)]
fn expand_let<'a>(
    alloc: Global,
    state: &mut State<'a>,
    context: Context,
    place: Place,
    pairs: &[Pair<'a>],
    body: &'a [Datum],
) -> Result<Node<'a>, ExpandRefusal>
    ensures { MatchResult result (λ e. Gives (view_state state.old) context place (expressions.Binding (view_pairs pairs.now) (data_of body.now)) (view e) (view_state state.new)) (λ r. Fails (Denies (view_state state.old) context place (expressions.Binding (view_pairs pairs.now) (data_of body.now))) r) }
{
    match open_node(state, context, place, 1, pairs.len()) {
        Ok(()) => {
            let values = values_of(alloc, pairs)?;
            match expand_each(alloc, state, inner(context), values.as_slice()) {
                Ok(values) => {
                    let bound = pair_binders(alloc, pairs)?;
                    let binders = bound.as_slice();
                    let scope = enter(alloc, state, context.scope, binders)?;
                    match expand_body(alloc, state, within(inner(context), scope), place, body) {
                        Ok(node) => {
                            let variables = variables_of(alloc, scope, binders)?;
                            Ok(make_let(alloc, place, variables, values, node)?)
                        }
                        Err(refusal) => Err(refusal),
                    }
                }
                Err(refusal) => Err(refusal),
            }
        }
        Err(refusal) => Err(refusal),
    }
}

/// A `letrec` of these bindings.
#[cycle(expand)]
fn expand_letrec<'a>(
    alloc: Global,
    state: &mut State<'a>,
    context: Context,
    place: Place,
    pairs: &[Pair<'a>],
    body: &'a [Datum],
) -> Result<Node<'a>, ExpandRefusal>
    ensures { MatchResult result (λ e. Gives (view_state state.old) context place (expressions.Recursion (view_pairs pairs.now) (data_of body.now)) (view e) (view_state state.new)) (λ r. Fails (Denies (view_state state.old) context place (expressions.Recursion (view_pairs pairs.now) (data_of body.now))) r) }
{
    match bind_together(state, context, place, pairs.len()) {
        Ok(()) => {
            let bound = pair_binders(alloc, pairs)?;
            let binders = bound.as_slice();
            let scope = enter(alloc, state, context.scope, binders)?;
            let values = values_of(alloc, pairs)?;
            match expand_each(
                alloc,
                state,
                of_values(within(context, scope)),
                values.as_slice(),
            ) {
                Ok(values) => {
                    let inside = letrec_body(context, scope, pairs);
                    match expand_body(alloc, state, inside, place, body) {
                        Ok(node) => {
                            let variables = variables_of(alloc, scope, binders)?;
                            let body = vec![in alloc; node]?;
                            match finish_split(
                                alloc, state, context, place, variables, values, body,
                            ) {
                                Ok(node) => Ok(node),
                                Err(refusal) => Err(refusal),
                            }
                        }
                        Err(refusal) => Err(refusal),
                    }
                }
                Err(refusal) => Err(refusal),
            }
        }
        Err(refusal) => Err(refusal),
    }
}

/// A body of the form at this place: its definitions are scanned first.
#[cycle(expand)]
fn expand_body<'a>(
    alloc: Global,
    state: &mut State<'a>,
    context: Context,
    place: Place,
    items: &'a [Datum],
) -> Result<Node<'a>, ExpandRefusal>
    ensures { MatchResult result (λ e. MeansBody (view_state state.old) context place (data_of items.now) (view e) (view_state state.new)) (λ r. Fails (RefusesBody (view_state state.old) context place (data_of items.now)) r) }
{
    let mut found = Found {
        variables: Vec::new(alloc),
        binders: Vec::new(alloc),
        values: Vec::new(alloc),
    };
    match scan_items(alloc, state, context, items, &mut found) {
        Ok((scope, rest)) => {
            match expand_found(alloc, state, context, place, &found, scope, rest) {
                Ok(node) => Ok(node),
                Err(refusal) => Err(refusal),
            }
        }
        Err(refusal) => Err(refusal),
    }
}

/// A body in which these definitions were found, with these items behind them.
#[cycle(expand)]
fn expand_found<'a>(
    alloc: Global,
    state: &mut State<'a>,
    context: Context,
    place: Place,
    found: &Found<'a>,
    scope: usize,
    rest: &'a [Datum],
) -> Result<Node<'a>, ExpandRefusal>
    ensures { MatchResult result (λ e. BodyGives (view_state state.old) context place (view_found found.now scope (data_of rest.now)) (view e) (view_state state.new)) (λ r. Fails (BodyDenies (view_state state.old) context place (view_found found.now scope (data_of rest.now))) r) }
{
    let defined = found.values.as_slice();
    if defined.is_empty() {
        return match expand_sequence(alloc, state, context, place, rest) {
            Ok(node) => Ok(node),
            Err(refusal) => Err(refusal),
        };
    }
    match open_definitions(alloc, state, context, place, found, rest) {
        Ok(()) => {
            let inside = of_values(within(context, scope));
            match expand_each(alloc, state, inside, defined) {
                Ok(values) => {
                    let behind = rest_context(context, found, scope, rest);
                    match expand_all(alloc, state, behind, rest) {
                        Ok(body) => {
                            let variables = Vec::from_slice(alloc, found.variables.as_slice())?;
                            match finish_split(
                                alloc, state, context, place, variables, values, body,
                            ) {
                                Ok(node) => Ok(node),
                                Err(refusal) => Err(refusal),
                            }
                        }
                        Err(refusal) => Err(refusal),
                    }
                }
                Err(refusal) => Err(refusal),
            }
        }
        Err(refusal) => Err(refusal),
    }
}

/// What names are defined as, one after another.
#[cycle(expand)]
fn expand_each<'a>(
    alloc: Global,
    state: &mut State<'a>,
    context: Context,
    values: &[Defined<'a>],
) -> Result<Vec<Node<'a>>, ExpandRefusal>
    ensures { MatchResult result (λ es. MeansEach (view_state state.old) context (map view_defined values.now) (nodes (map view es.items)) (view_state state.new)) (λ r. Fails (RefusesEach (view_state state.old) context (map view_defined values.now)) r) }
{
    let mut parts = Vec::new(alloc);
    for i in 0..values.len() {
        match expand_defined(alloc, state, context, &values[i]) {
            Ok(node) => parts.push(node)?,
            Err(refusal) => return Err(refusal),
        }
    }
    Ok(parts)
}

/// What a name is defined as; the parameters of a procedure are looked at when its turn comes.
#[cycle(expand)]
pub fn expand_defined<'a>(
    alloc: Global,
    state: &mut State<'a>,
    context: Context,
    value: &Defined<'a>,
) -> Result<Node<'a>, ExpandRefusal>
    ensures { MatchResult result (λ e. MeansDefined (view_state state.old) context (view_defined value.now) (view e) (view_state state.new)) (λ r. Fails (RefusesDefined (view_state state.old) context (view_defined value.now)) r) }
{
    match value {
        Defined::Value(datum) => match expand_datum(alloc, state, context, datum) {
            Ok(node) => Ok(node),
            Err(refusal) => Err(refusal),
        },
        Defined::Procedure(place, formals, body) => {
            let parameters = parameters_of(alloc, formals)?;
            match bound_twice(alloc, parameters.as_slice())? {
                Some(second) => Err(ExpandRefusal::Duplicate(second)),
                None => match expand_lambda(alloc, state, context, *place, formals, body) {
                    Ok(node) => Ok(node),
                    Err(refusal) => Err(refusal),
                },
            }
        }
    }
}
