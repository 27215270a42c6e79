//! What a datum is as an expression.
ghost use Rattle.std.specs.Prelude.{◌≡◌, IfOk, MatchOption, None, Some};
ghost use Rattle.tb_expand.specs.Expressions as expressions;
ghost use Rattle.tb_expand.specs.Shapes as shapes;
ghost use Rattle.tb_expand.specs.View.{IsRead, data_of, view_binder, view_formals, view_head, view_meaning, view_pairs, view_state};
ghost use Rattle.tb_expand.specs.Words as words;
ghost use Rattle.tb_sexp.specs.View as data_view;

use super::constants::node_has_fixnums;
use super::context::Context;
use super::form::Form;
use super::name::{Name, Variable};
use super::refusal::ExpandRefusal;
use super::shapes::{
    Binder, Counted, Formals, Pair, behind, binder_of, bound_twice, elements_of, first_and_body,
    formals_of, pair_binders, pairs_of, parameters_of,
};
use super::state::{Meaning, State, find_meaning};
use std::alloc::Global;
use tb_prim::{NoMemory, Place, Prim, arity};
use tb_sexp::{Datum, Node as DatumNode};

/// What a node is made of that has nothing but its operands.
#[derive(Clone, Copy, Debug)]
pub enum Build<'a> {
    Choosing,
    ChoosingOne,
    AssigningLocal(Variable<'a>),
    AssigningGlobal(Place, &'a [u8]),
    Using(Prim),
    ApplyingTo,
    Calling,
}

/// What a datum is as an expression.
#[derive(Debug, Drop)]
pub enum Expression<'a> {
    Constant(&'a DatumNode),
    Local(Variable<'a>),
    Global(&'a [u8]),
    Operands(Build<'a>, &'a [Datum]),
    Assignment(Build<'a>, &'a Datum),
    Sequence(&'a [Datum]),
    Procedure(Formals<'a>, &'a [Datum]),
    Binding(Vec<Pair<'a>>, &'a [Datum]),
    Recursion(Vec<Pair<'a>>, &'a [Datum]),
}

/// A constant of the form at this place.
fn read_constant<'a>(place: Place, node: &'a DatumNode) -> Result<Expression<'a>, ExpandRefusal>
    ensures { IsRead (expressions.constantly place (data_view.view_node node.now)) result }
{
    if node_has_fixnums(node) {
        Ok(Expression::Constant(node))
    } else {
        Err(ExpandRefusal::BadForm(place))
    }
}

/// A name alone.
fn read_named<'a>(place: Place, meaning: Meaning<'a>) -> Result<Expression<'a>, ExpandRefusal>
    ensures { IsRead (expressions.named place (view_meaning meaning.entry)) result }
{
    match meaning {
        Meaning::Variable(variable) => Ok(Expression::Local(variable)),
        Meaning::Special(Form::Applying) => Err(ExpandRefusal::NotBuilt(place)),
        Meaning::Special(_) => Err(ExpandRefusal::BadForm(place)),
        Meaning::Integrated(_) => Err(ExpandRefusal::NotBuilt(place)),
        Meaning::Plain(text) => Ok(Expression::Global(text)),
    }
}

/// A `quote` with these parts.
fn read_quote<'a>(
    _state: &State<'a>,
    context: Context,
    place: Place,
    rest: &'a [Datum],
) -> Result<Expression<'a>, ExpandRefusal>
    ensures { IsRead (expressions.of_parts (view_state _state.now) context place (shapes.quote_parts (data_of rest.now))) result }
{
    match behind(rest) {
        Counted::One(datum) => read_constant(place, &datum.node),
        _ => Err(ExpandRefusal::BadForm(place)),
    }
}

/// An `if` with these parts.
fn read_if<'a>(
    _state: &State<'a>,
    context: Context,
    place: Place,
    rest: &'a [Datum],
) -> Result<Expression<'a>, ExpandRefusal>
    ensures { IsRead (expressions.of_parts (view_state _state.now) context place (shapes.if_parts (data_of rest.now))) result }
{
    match behind(rest) {
        Counted::Two(_, _) => Ok(Expression::Operands(Build::ChoosingOne, rest)),
        Counted::Three(_, _, _) => Ok(Expression::Operands(Build::Choosing, rest)),
        _ => Err(ExpandRefusal::BadForm(place)),
    }
}

/// An `apply` with these parts.
fn read_apply<'a>(
    _state: &State<'a>,
    context: Context,
    place: Place,
    rest: &'a [Datum],
) -> Result<Expression<'a>, ExpandRefusal>
    ensures { IsRead (expressions.of_parts (view_state _state.now) context place (shapes.apply_parts (data_of rest.now))) result }
{
    match behind(rest) {
        Counted::Nothing | Counted::One(_) => Err(ExpandRefusal::BadForm(place)),
        Counted::Two(_, _) => Ok(Expression::Operands(Build::ApplyingTo, rest)),
        Counted::Three(_, _, _) | Counted::More => Err(ExpandRefusal::NotBuilt(place)),
    }
}

/// A `lambda` with these parts.
fn read_lambda<'a>(
    alloc: Global,
    _state: &State<'a>,
    context: Context,
    place: Place,
    rest: &'a [Datum],
) -> Result<Expression<'a>, ExpandRefusal>
    ensures { IsRead (expressions.of_parts (view_state _state.now) context place (shapes.lambda_parts (data_of rest.now))) result }
{
    let Some((first, body)) = first_and_body(rest) else {
        return Err(ExpandRefusal::BadForm(place));
    };
    let Some(formals) = formals_of(alloc, first)? else {
        return Err(ExpandRefusal::BadForm(place));
    };
    let parameters = parameters_of(alloc, &formals)?;
    match bound_twice(alloc, parameters.as_slice())? {
        Some(second) => Err(ExpandRefusal::Duplicate(second)),
        None => Ok(Expression::Procedure(formals, body)),
    }
}

/// A `let` with these parts.
fn read_let<'a>(
    alloc: Global,
    _state: &State<'a>,
    context: Context,
    place: Place,
    rest: &'a [Datum],
) -> Result<Expression<'a>, ExpandRefusal>
    ensures { IsRead (expressions.of_parts (view_state _state.now) context place (shapes.let_parts (data_of rest.now))) result }
{
    let Some((first, body)) = first_and_body(rest) else {
        return Err(ExpandRefusal::BadForm(place));
    };
    if binder_of(first).is_some() {
        return Err(ExpandRefusal::NotBuilt(place));
    }
    let Some(pairs) = read_pairs(alloc, first)? else {
        return Err(ExpandRefusal::BadForm(place));
    };
    let binders = pair_binders(alloc, pairs.as_slice())?;
    match bound_twice(alloc, binders.as_slice())? {
        Some(second) => Err(ExpandRefusal::Duplicate(second)),
        None => Ok(Expression::Binding(pairs, body)),
    }
}

/// A `letrec` with these parts.
fn read_letrec<'a>(
    alloc: Global,
    _state: &State<'a>,
    context: Context,
    place: Place,
    rest: &'a [Datum],
) -> Result<Expression<'a>, ExpandRefusal>
    ensures { IsRead (expressions.of_parts (view_state _state.now) context place (shapes.letrec_parts (data_of rest.now))) result }
{
    let Some((first, body)) = first_and_body(rest) else {
        return Err(ExpandRefusal::BadForm(place));
    };
    let Some(pairs) = read_pairs(alloc, first)? else {
        return Err(ExpandRefusal::BadForm(place));
    };
    let binders = pair_binders(alloc, pairs.as_slice())?;
    match bound_twice(alloc, binders.as_slice())? {
        Some(second) => Err(ExpandRefusal::Duplicate(second)),
        None => Ok(Expression::Recursion(pairs, body)),
    }
}

/// The bindings in a list.
fn read_pairs<'a>(alloc: Global, datum: &'a Datum) -> Result<Option<Vec<Pair<'a>>>, NoMemory>
    ensures { IfOk result (λ o. MatchOption o (shapes.pairs_in (shapes.elements_of (data_view.view datum.now)) ≡ None) (λ ps. shapes.pairs_in (shapes.elements_of (data_view.view datum.now)) ≡ Some (view_pairs ps.items))) }
{
    match elements_of(datum) {
        Some(elements) => pairs_of(alloc, elements),
        None => Ok(None),
    }
}

/// A `set!` with these parts.
fn read_set<'a>(
    state: &State<'a>,
    context: Context,
    place: Place,
    rest: &'a [Datum],
) -> Result<Expression<'a>, ExpandRefusal>
    ensures { IsRead (expressions.of_parts (view_state state.now) context place (shapes.set_parts (data_of rest.now))) result }
{
    match behind(rest) {
        Counted::Two(name, value) => match binder_of(name) {
            Some(binder) => {
                let meaning = find_meaning(state, context, binder.name);
                read_assigned(binder, value, meaning)
            }
            None => Err(ExpandRefusal::BadForm(place)),
        },
        _ => Err(ExpandRefusal::BadForm(place)),
    }
}

/// An assignment of what a name means to the value of a datum.
fn read_assigned<'a>(
    binder: Binder<'a>,
    value: &'a Datum,
    meaning: Meaning<'a>,
) -> Result<Expression<'a>, ExpandRefusal>
    ensures { IsRead (expressions.assigned (view_binder binder.entry) (data_view.view value.now) (view_meaning meaning.entry)) result }
{
    match meaning {
        Meaning::Variable(variable) => Ok(Expression::Assignment(
            Build::AssigningLocal(variable),
            value,
        )),
        Meaning::Special(_) | Meaning::Integrated(_) => {
            Err(ExpandRefusal::Integrated(binder.place))
        }
        Meaning::Plain(text) => Ok(Expression::Assignment(
            Build::AssigningGlobal(binder.place, text),
            value,
        )),
    }
}

/// A form with these parts, where it is an expression.
fn read_form<'a>(
    alloc: Global,
    state: &State<'a>,
    context: Context,
    place: Place,
    form: Form,
    rest: &'a [Datum],
) -> Result<Expression<'a>, ExpandRefusal>
    ensures { IsRead (expressions.of_parts (view_state state.now) context place (shapes.parts_of form (data_of rest.now))) result }
{
    match form {
        Form::Quoting => read_quote(state, context, place, rest),
        Form::Closure => read_lambda(alloc, state, context, place, rest),
        Form::Choice => read_if(state, context, place, rest),
        Form::Assigning => read_set(state, context, place, rest),
        Form::Defining => Err(ExpandRefusal::BadForm(place)),
        Form::Beginning => read_begin(state, context, place, rest),
        Form::Binding => read_let(alloc, state, context, place, rest),
        Form::Recursive => read_letrec(alloc, state, context, place, rest),
        Form::Applying => read_apply(state, context, place, rest),
        Form::Later => Err(ExpandRefusal::NotBuilt(place)),
    }
}

/// A `begin` with these parts.
fn read_begin<'a>(
    _state: &State<'a>,
    context: Context,
    place: Place,
    rest: &'a [Datum],
) -> Result<Expression<'a>, ExpandRefusal>
    ensures { IsRead (expressions.of_parts (view_state _state.now) context place (shapes.begin_parts (data_of rest.now))) result }
{
    if rest.is_empty() {
        Err(ExpandRefusal::BadForm(place))
    } else {
        Ok(Expression::Sequence(rest))
    }
}

/// The use of a primitive with these operands, in the list with this first element.
fn read_use<'a>(
    place: Place,
    first: &Datum,
    rest: &'a [Datum],
    prim: Prim,
) -> Result<Expression<'a>, ExpandRefusal>
    ensures { IsRead (expressions.primitive_use place (data_view.view first.now) (data_of rest.now) prim) result }
{
    if rest.len() == usize::from(arity(prim)) {
        Ok(Expression::Operands(Build::Using(prim), rest))
    } else if is_of_many(prim) {
        Err(ExpandRefusal::NotBuilt(place))
    } else {
        Err(ExpandRefusal::NotBuilt(first.place))
    }
}

/// Whether R5RS lets the primitive's name take other numbers of operands than two.
fn is_of_many(prim: Prim) -> bool
    ensures { result ≡ words.is_of_many prim }
{
    match prim {
        Prim::Add
        | Prim::Sub
        | Prim::Mul
        | Prim::NumEq
        | Prim::Less
        | Prim::Greater
        | Prim::LessEq
        | Prim::GreaterEq => true,
        _ => false,
    }
}

/// What the first element of a list is.
#[derive(Clone, Copy, Debug)]
pub enum Head {
    Operator,
    Keyword(Form),
    Primitively(Prim),
}

/// What a list with this first element is.
pub fn read_head(state: &State, context: Context, datum: &Datum) -> Head
    ensures { view_head result ≡ expressions.head (view_state state.now) context (data_view.view datum.now) }
{
    match binder_of(datum) {
        Some(binder) => match find_meaning(state, context, binder.name) {
            Meaning::Variable(_) | Meaning::Plain(_) => Head::Operator,
            Meaning::Special(form) => Head::Keyword(form),
            Meaning::Integrated(prim) => Head::Primitively(prim),
        },
        None => Head::Operator,
    }
}

/// A list with this first element, of these elements behind it.
fn read_list<'a>(
    alloc: Global,
    state: &State<'a>,
    context: Context,
    place: Place,
    elements: &'a [Datum],
) -> Result<Expression<'a>, ExpandRefusal>
    ensures { IsRead (expressions.list_expression (view_state state.now) context place (data_of elements.now)) result }
{
    if elements.is_empty() {
        return Err(ExpandRefusal::BadForm(place));
    }
    let first = &elements[0];
    let rest = &elements[1..];
    match read_head(state, context, first) {
        Head::Operator => Ok(Expression::Operands(Build::Calling, elements)),
        Head::Keyword(form) => read_form(alloc, state, context, place, form, rest),
        Head::Primitively(prim) => read_use(place, first, rest, prim),
    }
}

/// What a datum is as an expression.
#[tactic(auto, unfolding(crate::specs::Expressions::expression))]
pub fn read_expression<'a>(
    alloc: Global,
    state: &State<'a>,
    context: Context,
    datum: &'a Datum,
) -> Result<Expression<'a>, ExpandRefusal>
    ensures { IsRead (expressions.expression (view_state state.now) context (data_view.view datum.now)) result }
{
    match &datum.node {
        DatumNode::Bool(_) | DatumNode::Fix(_) | DatumNode::Char(_) | DatumNode::Str(_) => {
            read_constant(datum.place, &datum.node)
        }
        DatumNode::Name(text, alias) => {
            let name = Name {
                text: text.as_slice(),
                alias: *alias,
            };
            read_named(datum.place, find_meaning(state, context, name))
        }
        DatumNode::List(elements, None) => {
            read_list(alloc, state, context, datum.place, elements.as_slice())
        }
        DatumNode::Nil | DatumNode::List(_, Some(_)) | DatumNode::Vector(_) => {
            Err(ExpandRefusal::BadForm(datum.place))
        }
    }
}
