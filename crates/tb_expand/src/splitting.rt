//! Variables that are bound in the scope of all of them: those that are bound together, and those that are assigned.
ghost use Rattle.std.specs.Prelude.{◌≡◌, ◌≤◌, ◌+◌, IfOk, MatchResult, cond, length, map, nat_le};
ghost use Rattle.tb_expand.specs.Limits as limits;
ghost use Rattle.tb_expand.specs.Means as means;
ghost use Rattle.tb_expand.specs.Splits as splits;
ghost use Rattle.tb_expand.specs.Trees as trees;
ghost use Rattle.tb_expand.specs.View.{Fails, IsLimited, nodes, view, view_bindings, view_state, view_variable};
ghost use Rattle.tb_expand.specs.calls.Expanded.{Finishes};
ghost use Rattle.tb_expand.specs.calls.Splitting as splitting;

use super::build::take_one;
use super::context::Context;
use super::limits::{MAX_NODES, count_nodes};
use super::name::{Variable, same_name};
use super::node::make_sequence;
use super::queue::Queue;
use super::refusal::ExpandRefusal;
use super::state::State;
use super::tree::{Core, Node};
use super::walks::{add_all_assigned, first_deep};
use sqlite_items::Boxed;
use std::alloc::Global;
use tb_prim::{NoMemory, Place, Row};

/// Variables, and as many values.
#[derive(Debug, Drop)]
pub struct Bindings<'a> {
    pub variables: Vec<Variable<'a>>,
    pub values: Vec<Node<'a>>,
}

/// Whether two variables are the same.
fn same_variable(one: Variable, other: Variable) -> bool
    ensures { result ≡ trees.same_var (view_variable one.entry) (view_variable other.entry) }
{
    one.scope == other.scope && same_name(one.name, other.name)
}

/// Whether the variable is one of these.
fn is_one(variable: Variable, variables: &[Variable]) -> bool
    ensures { result ≡ splitting.is_one (map view_variable variables.now) (view_variable variable.entry) }
{
    for other in variables {
        if same_variable(*other, variable) {
            return true;
        }
    }
    false
}

/// Whether a node is a lambda expression.
#[tactic(auto, using(crate::proofs::Views::viewing))]
fn is_lambda(node: &Node) -> bool
    ensures { result ≡ trees.is_lambda (view node.now) }
{
    match &node.core {
        Core::Lambda(_, _, _) => true,
        _ => false,
    }
}

/// One binding more.
#[tactic(auto, using(crate::proofs::Forms::nodes_pushed))]
fn add_binding<'a>(
    bindings: &mut Bindings<'a>,
    variable: Variable<'a>,
    value: Node<'a>,
) -> Result<(), NoMemory>
    ensures { IfOk result (λ _. view_bindings bindings.new ≡ splitting.with_binding (view_bindings bindings.old) (view_variable variable.entry) (view value.entry)) }
{
    bindings.variables.push(variable)?;
    bindings.values.push(value)?;
    Ok(())
}

/// A binding, where those that are assigned are these.
fn place_binding<'a>(
    assigned: &[Variable<'a>],
    variable: Variable<'a>,
    value: Node<'a>,
    together: &mut Bindings<'a>,
    others: &mut Bindings<'a>,
) -> Result<(), NoMemory>
    ensures { IfOk result (λ _. (view_bindings together.new ≡ cond (splitting.is_kept (map view_variable assigned.now) (view_variable variable.entry) (view value.entry)) (splitting.with_binding (view_bindings together.old) (view_variable variable.entry) (view value.entry)) (view_bindings together.old)) × (view_bindings others.new ≡ cond (splitting.is_kept (map view_variable assigned.now) (view_variable variable.entry) (view value.entry)) (view_bindings others.old) (splitting.with_binding (view_bindings others.old) (view_variable variable.entry) (view value.entry)))) }
{
    let is_kept = is_lambda(&value) && !is_one(variable, assigned);
    if is_kept {
        add_binding(together, variable, value)
    } else {
        add_binding(others, variable, value)
    }
}

/// Bindings one after another, where those that are assigned are these.
fn split_bindings<'a>(
    assigned: &[Variable<'a>],
    variables: Vec<Variable<'a>>,
    values: Vec<Node<'a>>,
    together: &mut Bindings<'a>,
    others: &mut Bindings<'a>,
) -> Result<(), NoMemory>
    ensures { IfOk result (λ _. splitting.split_from (map view_variable assigned.now) (view_bindings together.old) (view_bindings others.old) (map view_variable variables.entry.items) (nodes (map view values.entry.items)) ≡ splitting.halves (view_bindings together.new) (view_bindings others.new)) }
{
    let mut left = Queue::of(variables);
    let mut parts = Queue::of(values);
    while let Some(variable) = left.pop() {
        match parts.pop() {
            Some(value) => place_binding(assigned, variable, value, together, others)?,
            None => return Ok(()),
        }
    }
    Ok(())
}

/// The bindings whose variables are bound together, and the others.
fn split<'a>(
    alloc: Global,
    variables: Vec<Variable<'a>>,
    values: Vec<Node<'a>>,
    body: &[Node<'a>],
) -> Result<(Bindings<'a>, Bindings<'a>), NoMemory>
    ensures { IfOk result (λ r. let s = splits.split (map view_variable variables.entry.items) (nodes (map view values.entry.items)) (nodes (map view body.now)) in (view_bindings r.0 ≡ s.together) × (view_bindings r.1 ≡ s.others)) }
{
    let mut assigned = Vec::new(alloc);
    add_all_assigned(values.as_slice(), &mut assigned)?;
    add_all_assigned(body, &mut assigned)?;
    let mut together = Bindings {
        variables: Vec::new(alloc),
        values: Vec::new(alloc),
    };
    let mut others = Bindings {
        variables: Vec::new(alloc),
        values: Vec::new(alloc),
    };
    split_bindings(
        assigned.as_slice(),
        variables,
        values,
        &mut together,
        &mut others,
    )?;
    Ok((together, others))
}

/// The assignment of a variable, at this place.
#[tactic(auto, using(crate::proofs::Views::viewing))]
fn make_assignment<'a>(
    alloc: Global,
    place: Place,
    variable: Variable<'a>,
    value: Node<'a>,
) -> Result<Node<'a>, NoMemory>
    ensures { IfOk result (λ e. view e ≡ trees.At place (trees.SetLocal (view_variable variable.entry) (view value.entry))) }
{
    Ok(Node {
        place,
        core: Core::SetLocal(variable, Boxed::new(alloc, value)?),
    })
}

/// Adds an assignment for each variable, at this place.
fn add_assignments<'a>(
    alloc: Global,
    place: Place,
    bindings: Bindings<'a>,
    out: &mut Vec<Node<'a>>,
) -> Result<(), NoMemory>
    ensures { IfOk result (λ _. nodes (map view out.new.items) ≡ trees.joined (nodes (map view out.old.items)) (splitting.assignments place (view_bindings bindings.entry).variables (view_bindings bindings.entry).values)) }
{
    let Bindings { variables, values } = bindings;
    let mut left = Queue::of(variables);
    let mut parts = Queue::of(values);
    while let Some(variable) = left.pop() {
        match parts.pop() {
            Some(value) => out.push(make_assignment(alloc, place, variable, value)?)?,
            None => return Ok(()),
        }
    }
    Ok(())
}

/// A mark for each variable, at this place.
fn undefined_values<'a>(
    alloc: Global,
    place: Place,
    variables: &[Variable<'a>],
) -> Result<Vec<Node<'a>>, NoMemory>
    ensures { IfOk result (λ es. nodes (map view es.items) ≡ splits.undefined place (map view_variable variables.now)) }
{
    let mut marks = Vec::new(alloc);
    for _variable in variables {
        marks.push(undefined_value(place))?;
    }
    Ok(marks)
}

#[tactic(auto, using(crate::proofs::Views::viewing))]
fn undefined_value<'a>(place: Place) -> Node<'a>
    ensures { view result ≡ trees.At place trees.Undefined }
{
    Node {
        place,
        core: Core::Undefined,
    }
}

/// Expressions in order: one is itself.
fn in_order<'a>(place: Place, parts: Vec<Node<'a>>) -> Node<'a>
    ensures { view result ≡ splits.in_order place (nodes (map view parts.entry.items)) }
{
    if parts.as_slice().len() == 1 {
        match take_one(parts) {
            Some(only) => only,
            None => unreachable!(),
        }
    } else {
        make_sequence(place, parts)
    }
}

/// A `letrec` of these bindings round a node, if there are any.
#[tactic(auto, using(crate::proofs::Views::viewing))]
fn letrec_round<'a>(
    alloc: Global,
    place: Place,
    bindings: Bindings<'a>,
    node: Node<'a>,
) -> Result<Node<'a>, NoMemory>
    ensures { IfOk result (λ e. view e ≡ splits.letrec_round place (view_bindings bindings.entry).variables (view_bindings bindings.entry).values (view node.entry)) }
{
    let Bindings { variables, values } = bindings;
    if variables.as_slice().is_empty() {
        return Ok(node);
    }
    Ok(Node {
        place,
        core: Core::Letrec(
            Row::from_vec(variables),
            Row::from_vec(values),
            Boxed::new(alloc, node)?,
        ),
    })
}

/// A `let` of marks for these variables round a node, if there are any.
#[tactic(auto, using(crate::proofs::Views::viewing))]
fn let_round<'a>(
    alloc: Global,
    place: Place,
    variables: Vec<Variable<'a>>,
    node: Node<'a>,
) -> Result<Node<'a>, NoMemory>
    ensures { IfOk result (λ e. view e ≡ splits.let_round place (map view_variable variables.entry.items) (view node.entry)) }
{
    if variables.as_slice().is_empty() {
        return Ok(node);
    }
    let marks = undefined_values(alloc, place, variables.as_slice())?;
    Ok(Node {
        place,
        core: Core::Let(
            Row::from_vec(variables),
            Row::from_vec(marks),
            Boxed::new(alloc, node)?,
        ),
    })
}

/// The node of a split; what it inserts has this place.
fn split_node<'a>(
    alloc: Global,
    place: Place,
    together: Bindings<'a>,
    others: Bindings<'a>,
    body: Vec<Node<'a>>,
) -> Result<Node<'a>, NoMemory>
    ensures { IfOk result (λ e. view e ≡ splits.node_of place (record { together = view_bindings together.entry; others = view_bindings others.entry; body = nodes (map view body.entry.items) })) }
{
    let variables = Vec::from_slice(alloc, others.variables.as_slice())?;
    let mut parts = Vec::new(alloc);
    add_assignments(alloc, place, others, &mut parts)?;
    let mut body = body;
    parts.append(&mut body)?;
    let node = letrec_round(alloc, place, together, in_order(place, parts))?;
    Ok(let_round(alloc, place, variables, node)?)
}

/// How many of the values are lambda expressions.
fn count_lambdas(values: &[Node]) -> usize
    ensures { result ≡ splits.lambdas_among (nodes (map view values.now)) }
{
    let mut count = 0;
    for value in values {
        if is_lambda(value) {
            count += 1;
        }
    }
    count
}

/// The nodes that a split inserts: of so many variables that are assigned, so many lambda expressions among their
/// values, so many variables that are bound together, and so many expressions.
fn count_inserted(state: &mut State, place: Place, sizes: Sizes) -> Result<(), ExpandRefusal>
    ensures { IsLimited (limits.counted place (splitting.inserted_by sizes.others sizes.lambdas sizes.together sizes.body) 0 (view_state state.old)) result (view_state state.new) }
{
    if sizes.others > MAX_NODES || sizes.lambdas > MAX_NODES {
        return Err(ExpandRefusal::Budget(place));
    }
    let mut count = sizes.others + sizes.others + sizes.lambdas;
    if sizes.others > 0 {
        count += 1;
    }
    if sizes.together > 0 {
        count += 1;
    }
    if sizes.body >= 2 || sizes.others + sizes.body >= 2 {
        count += 1;
    }
    count_nodes(state, place, count, 0)
}

/// How many variables are assigned, lambda expressions are among their values, variables are bound together, and
/// expressions there are.
#[derive(Clone, Copy, Debug)]
struct Sizes {
    others: usize,
    lambdas: usize,
    together: usize,
    body: usize,
}

/// The node of variables with their values, and of the expressions of the body, where it is within the limits.
pub fn finish_split<'a>(
    alloc: Global,
    state: &mut State<'a>,
    context: Context,
    place: Place,
    variables: Vec<Variable<'a>>,
    values: Vec<Node<'a>>,
    body: Vec<Node<'a>>,
) -> Result<Node<'a>, ExpandRefusal>
    ensures { MatchResult result (λ e. Finishes place (splits.split (map view_variable variables.entry.items) (nodes (map view values.entry.items)) (nodes (map view body.entry.items))) context (view_state state.old) (view e) (view_state state.new)) (λ r. Fails (λ q. means.finished place (splits.split (map view_variable variables.entry.items) (nodes (map view values.entry.items)) (nodes (map view body.entry.items))) context (view_state state.old) ≡ limits.Past q) r) }
{
    let (together, others) = split(alloc, variables, values, body.as_slice())?;
    let sizes = Sizes {
        others: others.variables.as_slice().len(),
        lambdas: count_lambdas(others.values.as_slice()),
        together: together.variables.as_slice().len(),
        body: body.as_slice().len(),
    };
    let node = split_node(alloc, place, together, others, body)?;
    match first_deep(context.levels, &node) {
        Some(deep) => Err(ExpandRefusal::TooDeep(deep)),
        None => match count_inserted(state, place, sizes) {
            Ok(()) => Ok(node),
            Err(refusal) => Err(refusal),
        },
    }
}
