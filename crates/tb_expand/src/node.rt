//! Nodes that are made within the limits, and scopes that are entered.
ghost use Rattle.std.specs.Prelude.{◌≡◌, ◌∷◌, [], IfOk, MatchOption, MatchResult, None, Some, map, true};
ghost use Rattle.tb_expand.specs.Expressions as expressions;
ghost use Rattle.tb_expand.specs.Limits as limits;
ghost use Rattle.tb_expand.specs.Means as means;
ghost use Rattle.tb_expand.specs.Names as names;
ghost use Rattle.tb_expand.specs.Scopes as scopes;
ghost use Rattle.tb_expand.specs.Shapes as shapes;
ghost use Rattle.tb_expand.specs.Trees as trees;
ghost use Rattle.tb_expand.specs.View.{Fails, IsLimited, data_of, nodes, view, view_binder, view_defined, view_formals, view_found, view_name, view_option, view_pairs, view_state, view_variable};
ghost use Rattle.tb_expand.specs.calls.Expanded.{DefinitionsDenied, DefinitionsOpen, Denies, Gives, as_values};
ghost use Rattle.tb_sexp.specs.View as data_view;

use super::context::Context;
use super::definition::Defined;
use super::expression::Build;
use super::limits::{count_constant, open_node};
use super::name::{Name, Variable};
use super::refusal::ExpandRefusal;
use super::scan::Found;
use super::shapes::{Binder, Formals, Pair, bound_twice};
use super::state::{Scope, State};
use super::tree::{Core, Node};
use sqlite_items::Boxed;
use std::alloc::Global;
use tb_prim::{NoMemory, Place, Row};
use tb_sexp::{Datum, Node as DatumNode};

/// The context of the parts of a node.
pub fn inner(context: Context) -> Context
    ensures { result ≡ limits.inner context }
{
    Context {
        library: context.library,
        scope: context.scope,
        levels: context.levels.saturating_sub(1),
        is_value: false,
    }
}

/// The same context in another scope.
pub fn within(context: Context, scope: usize) -> Context
    ensures { result ≡ limits.within scope context }
{
    Context {
        library: context.library,
        scope,
        levels: context.levels,
        is_value: context.is_value,
    }
}

/// The context of what a `letrec` or the definitions of a body bind.
pub fn of_values(context: Context) -> Context
    ensures { result ≡ limits.valued true context }
{
    Context {
        library: context.library,
        scope: context.scope,
        levels: context.levels,
        is_value: true,
    }
}

/// How many nodes a lambda expression makes.
pub fn lambda_nodes(context: Context) -> usize
    ensures { result ≡ means.lambda_nodes context }
{
    if context.is_value { 0 } else { 1 }
}

/// A level round variables that are bound together, if there are any.
pub fn bind_together(
    state: &mut State,
    context: Context,
    place: Place,
    count: usize,
) -> Result<(), ExpandRefusal>
    ensures { IsLimited (means.bound_together place count (view_state state.old) context) result (view_state state.new) }
{
    if count == 0 {
        Ok(())
    } else {
        open_node(state, context, place, 0, count)
    }
}

/// A constant.
pub fn make_constant<'a>(
    state: &mut State<'a>,
    context: Context,
    place: Place,
    node: &'a DatumNode,
) -> Result<Node<'a>, ExpandRefusal>
    ensures { MatchResult result (λ e. Gives (view_state state.old) context place (expressions.Constantly (data_view.view_node node.now)) (view e) (view_state state.new)) (λ r. Fails (Denies (view_state state.old) context place (expressions.Constantly (data_view.view_node node.now))) r) }
{
    match open_node(state, context, place, 1, 0) {
        Ok(()) => match count_constant(state, place, node) {
            Ok(()) => Ok(Node {
                place,
                core: Core::Constant(node),
            }),
            Err(refusal) => Err(refusal),
        },
        Err(refusal) => Err(refusal),
    }
}

/// A variable that is named.
pub fn make_local<'a>(
    state: &mut State<'a>,
    context: Context,
    place: Place,
    variable: Variable<'a>,
) -> Result<Node<'a>, ExpandRefusal>
    ensures { MatchResult result (λ e. Gives (view_state state.old) context place (expressions.Naming (trees.Local (view_variable variable.entry))) (view e) (view_state state.new)) (λ r. Fails (Denies (view_state state.old) context place (expressions.Naming (trees.Local (view_variable variable.entry)))) r) }
{
    match open_node(state, context, place, 1, 0) {
        Ok(()) => Ok(Node {
            place,
            core: Core::Local(variable),
        }),
        Err(refusal) => Err(refusal),
    }
}

/// A global that is named.
pub fn make_global<'a>(
    state: &mut State<'a>,
    context: Context,
    place: Place,
    text: &'a [u8],
) -> Result<Node<'a>, ExpandRefusal>
    ensures { MatchResult result (λ e. Gives (view_state state.old) context place (expressions.Naming (trees.Global text.now)) (view e) (view_state state.new)) (λ r. Fails (Denies (view_state state.old) context place (expressions.Naming (trees.Global text.now))) r) }
{
    match open_node(state, context, place, 1, 0) {
        Ok(()) => Ok(Node {
            place,
            core: Core::Global(text),
        }),
        Err(refusal) => Err(refusal),
    }
}

/// The names that are bound.
#[tactic(auto, using(crate::proofs::Expanding::names_mapped))]
pub fn names_of<'a>(alloc: Global, binders: &[Binder<'a>]) -> Result<Vec<Name<'a>>, NoMemory>
    ensures { IfOk result (λ ns. map view_name ns.items ≡ names.names (map view_binder binders.now)) }
{
    let mut names = Vec::new(alloc);
    for binder in binders {
        names.push(binder.name)?;
    }
    Ok(names)
}

/// The variables of names that are bound in this scope.
#[tactic(auto, using(crate::proofs::Expanding::variables_mapped))]
pub fn variables_of<'a>(
    alloc: Global,
    scope: usize,
    binders: &[Binder<'a>],
) -> Result<Vec<Variable<'a>>, NoMemory>
    ensures { IfOk result (λ xs. map view_variable xs.items ≡ trees.variables scope (names.names (map view_binder binders.now))) }
{
    let mut variables = Vec::new(alloc);
    for binder in binders {
        variables.push(Variable {
            scope,
            name: binder.name,
        })?;
    }
    Ok(variables)
}

/// The variable of a rest parameter in this scope.
pub fn rest_variable<'a>(scope: usize, formals: &Formals<'a>) -> Option<Variable<'a>>
    ensures { view_option result ≡ means.rest_variable scope (view_formals formals.now) }
{
    match formals.rest {
        Some(binder) => Some(Variable {
            scope,
            name: binder.name,
        }),
        None => None,
    }
}

/// A new scope in this one, of these names, and its number.
#[tactic(auto, using(crate::proofs::Scanning::older_pushed, crate::proofs::Scanning::older_counted))]
pub fn enter<'a>(
    alloc: Global,
    state: &mut State<'a>,
    around: usize,
    binders: &[Binder<'a>],
) -> Result<usize, NoMemory>
    ensures { IfOk result (λ s. (s ≡ scopes.fresh (view_state state.old)) × (view_state state.new ≡ scopes.enter (view_state state.old) around (names.names (map view_binder binders.now)))) }
{
    let names = names_of(alloc, binders)?;
    state.scopes.push(Scope { around, names })?;
    Ok(state.scopes.len())
}

/// A lambda expression with this body.
#[tactic(auto, using(crate::proofs::Views::viewing))]
pub fn make_lambda<'a>(
    alloc: Global,
    place: Place,
    scope: usize,
    formals: &Formals<'a>,
    body: Node<'a>,
) -> Result<Node<'a>, NoMemory>
    ensures { IfOk result (λ e. view e ≡ trees.At place (trees.Lambda (means.fixed_variables scope (view_formals formals.now)) (means.rest_variable scope (view_formals formals.now)) (view body.entry))) }
{
    let fixed = variables_of(alloc, scope, formals.fixed.as_slice())?;
    let rest = rest_variable(scope, formals);
    Ok(Node {
        place,
        core: Core::Lambda(Row::from_vec(fixed), rest, Boxed::new(alloc, body)?),
    })
}

/// A `let` of variables in this scope with these values and this body.
#[tactic(auto, using(crate::proofs::Views::viewing))]
pub fn make_let<'a>(
    alloc: Global,
    place: Place,
    variables: Vec<Variable<'a>>,
    values: Vec<Node<'a>>,
    body: Node<'a>,
) -> Result<Node<'a>, NoMemory>
    ensures { IfOk result (λ e. view e ≡ trees.At place (trees.Let (map view_variable variables.entry.items) (nodes (map view values.entry.items)) (view body.entry))) }
{
    Ok(Node {
        place,
        core: Core::Let(
            Row::from_vec(variables),
            Row::from_vec(values),
            Boxed::new(alloc, body)?,
        ),
    })
}

/// A sequence.
#[tactic(auto, using(crate::proofs::Views::viewing))]
pub fn make_sequence<'a>(place: Place, parts: Vec<Node<'a>>) -> Node<'a>
    ensures { view result ≡ trees.At place (trees.Seq (nodes (map view parts.entry.items))) }
{
    Node {
        place,
        core: Core::Seq(Row::from_vec(parts)),
    }
}

/// What the bindings give to their names.
pub fn values_of<'a>(alloc: Global, pairs: &[Pair<'a>]) -> Result<Vec<Defined<'a>>, NoMemory>
    ensures { IfOk result (λ vs. map view_defined vs.items ≡ as_values (view_pairs pairs.now).values) }
{
    let mut values = Vec::new(alloc);
    for pair in pairs {
        values.push(Defined::Value(pair.value))?;
    }
    Ok(values)
}

/// The context of the body of a `letrec` of so many bindings in this scope.
pub fn letrec_body(context: Context, scope: usize, pairs: &[Pair]) -> Context
    ensures { result ≡ means.letrec_body (view_pairs pairs.now) scope context }
{
    Context {
        library: context.library,
        scope,
        levels: context.levels,
        is_value: pairs.is_empty() && context.is_value,
    }
}

/// The context of the expressions behind the definitions of a body.
#[tactic(auto, using(crate::proofs::Reading::how_many))]
pub fn rest_context(context: Context, found: &Found, scope: usize, rest: &[Datum]) -> Context
    ensures { result ≡ means.rest_context (view_found found.now scope (data_of rest.now)) context }
{
    let levels = if rest.len() >= 2 {
        context.levels.saturating_sub(1)
    } else {
        context.levels
    };
    Context {
        library: context.library,
        scope,
        levels,
        is_value: false,
    }
}

/// The definitions of a body, which bind each name once and stand before an expression.
pub fn open_definitions<'a>(
    alloc: Global,
    state: &mut State<'a>,
    context: Context,
    place: Place,
    found: &Found<'a>,
    rest: &[Datum],
) -> Result<(), ExpandRefusal>
    ensures { MatchResult result (λ u. DefinitionsOpen (view_state state.old) context place (map view_binder found.now.binders.items) (data_of rest.now) (view_state state.new)) (λ r. Fails (DefinitionsDenied (view_state state.old) context place (map view_binder found.now.binders.items) (data_of rest.now)) r) }
{
    let binders = found.binders.as_slice();
    match bound_twice(alloc, binders)? {
        Some(second) => Err(ExpandRefusal::Duplicate(second)),
        None => {
            if rest.is_empty() {
                return Err(ExpandRefusal::BadForm(place));
            }
            match bind_together(state, context, place, binders.len()) {
                Ok(()) => Ok(()),
                Err(refusal) => Err(refusal),
            }
        }
    }
}
