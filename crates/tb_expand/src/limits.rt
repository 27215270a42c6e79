//! The limits while expanding: nodes, levels, variables, static objects and their words.
ghost use Rattle.std.specs.List.{list_any};
ghost use Rattle.std.specs.Prelude.{◌≡◌, ◌+◌, IfOk, bytes_eq, map};
ghost use Rattle.tb_expand.specs.Limits as limits;
ghost use Rattle.tb_expand.specs.View.{IsCounted, IsLimited, data_of, text_of, view_state};
ghost use Rattle.tb_sexp.specs.Tree as tree;
ghost use Rattle.tb_sexp.specs.View as data_view;

use super::context::Context;
use super::refusal::ExpandRefusal;
use super::state::State;
use tb_prim::{NoMemory, Place};
use tb_sexp::{Datum, Node};

/// The most nodes of a program.
pub const MAX_NODES: usize = 1_000_000;

/// The most variables of a program.
const MAX_VARIABLES: usize = 16_777_216;

/// The most static objects of a program.
const MAX_OBJECTS: usize = 1_000_000;

/// The most words of the static objects of a program, padding included.
const MAX_WORDS: usize = 4_194_304;

/// So many nodes and variables more, at this place.
#[tactic(auto, unfolding(crate::specs::Limits::counted))]
pub fn count_nodes(
    state: &mut State,
    place: Place,
    nodes: usize,
    variables: usize,
) -> Result<(), ExpandRefusal>
    ensures { IsLimited (limits.counted place nodes variables (view_state state.old)) result (view_state state.new) }
{
    if nodes > MAX_NODES
        || state.nodes > MAX_NODES - nodes
        || variables > MAX_VARIABLES
        || state.variables > MAX_VARIABLES - variables
    {
        return Err(ExpandRefusal::Budget(place));
    }
    state.nodes += nodes;
    state.variables += variables;
    Ok(())
}

/// The same at an expression that makes a node, so that a level is needed.
#[tactic(auto, unfolding(crate::specs::Limits::opened))]
pub fn open_node(
    state: &mut State,
    context: Context,
    place: Place,
    nodes: usize,
    variables: usize,
) -> Result<(), ExpandRefusal>
    ensures { IsLimited (limits.opened place nodes variables (view_state state.old) context) result (view_state state.new) }
{
    if context.levels == 0 {
        return Err(ExpandRefusal::TooDeep(place));
    }
    count_nodes(state, place, nodes, variables)
}

/// One static object more, of so many words; false where the limits have no room for it.
fn add_object(state: &mut State, words: usize) -> bool
    ensures { IsCounted result (limits.one_object words (view_state state.old)) (view_state state.new) }
{
    if state.objects >= MAX_OBJECTS || words > MAX_WORDS || state.words > MAX_WORDS - words {
        return false;
    }
    state.objects += 1;
    state.words += words;
    true
}

/// The words of a string or a symbol.
fn byte_words(bytes: &[u8]) -> usize
    ensures { result ≡ limits.byte_words bytes.now }
{
    let words = 1 + (bytes.len() + 3) / 4;
    words + words % 2
}

/// The words of a vector of these elements.
#[tactic(auto, using(crate::proofs::Reading::how_many))]
fn vector_words(elements: &[Datum]) -> usize
    ensures { result ≡ limits.even (1 + limits.how_many_data (data_of elements.now)) }
{
    let words = 1 + elements.len();
    words + words % 2
}

/// A symbol, which is an object once.
fn add_symbol<'a>(state: &mut State<'a>, text: &'a [u8]) -> Result<bool, NoMemory>
    ensures { IfOk result (λ b. IsCounted b (limits.with_objects_of (tree.Name text.now 0) (view_state state.old)) (view_state state.new)) }
{
    if is_known(state.symbols.as_slice(), text) {
        return Ok(true);
    }
    if !add_object(state, byte_words(text)) {
        return Ok(false);
    }
    state.symbols.push(text)?;
    Ok(true)
}

/// Whether a text is one of these.
pub fn is_known(symbols: &[&[u8]], text: &[u8]) -> bool
    ensures { result ≡ list_any (bytes_eq text.now) (map text_of symbols.now) }
{
    for symbol in symbols {
        if text == *symbol {
            return true;
        }
    }
    false
}

/// The static objects of a quoted datum; false where the limits have no room for them. The recursion is as deep as
/// the datum nests.
#[cycle(objects)]
fn add_datum<'a>(state: &mut State<'a>, datum: &'a Datum) -> Result<bool, NoMemory>
    ensures { IfOk result (λ b. IsCounted b (limits.with_objects (data_view.view datum.now) (view_state state.old)) (view_state state.new)) }
{
    add_node(state, &datum.node)
}

#[cycle(objects)]
fn add_node<'a>(state: &mut State<'a>, node: &'a Node) -> Result<bool, NoMemory>
    ensures { IfOk result (λ b. IsCounted b (limits.with_objects_of (data_view.view_node node.now) (view_state state.old)) (view_state state.new)) }
{
    match node {
        Node::Nil | Node::Bool(_) | Node::Fix(_) | Node::Char(_) => Ok(true),
        Node::Str(text) => Ok(add_object(state, byte_words(text.as_slice()))),
        Node::Name(text, _) => add_symbol(state, text.as_slice()),
        Node::List(elements, tail) => match tail {
            None => add_pairs(state, elements.as_slice()),
            Some(tail) => {
                if add_pairs(state, elements.as_slice())? {
                    add_datum(state, tail.get())
                } else {
                    Ok(false)
                }
            }
        },
        Node::Vector(elements) => add_vector(state, elements.as_slice()),
    }
}

#[cycle(objects)]
fn add_vector<'a>(state: &mut State<'a>, elements: &'a [Datum]) -> Result<bool, NoMemory>
    ensures { IfOk result (λ b. IsCounted b (limits.with_each (data_of elements.now) (limits.one_object (limits.even (1 + limits.how_many_data (data_of elements.now))) (view_state state.old))) (view_state state.new)) }
{
    if !add_object(state, vector_words(elements)) {
        return Ok(false);
    }
    add_data(state, elements)
}

/// A pair for each element.
#[cycle(objects)]
fn add_pairs<'a>(state: &mut State<'a>, datums: &'a [Datum]) -> Result<bool, NoMemory>
    ensures { IfOk result (λ b. IsCounted b (limits.with_pairs (data_of datums.now) (view_state state.old)) (view_state state.new)) }
{
    for datum in datums {
        if !add_object(state, 2) {
            return Ok(false);
        }
        if !add_datum(state, datum)? {
            return Ok(false);
        }
    }
    Ok(true)
}

#[cycle(objects)]
fn add_data<'a>(state: &mut State<'a>, datums: &'a [Datum]) -> Result<bool, NoMemory>
    ensures { IfOk result (λ b. IsCounted b (limits.with_each (data_of datums.now) (view_state state.old)) (view_state state.new)) }
{
    for datum in datums {
        if !add_datum(state, datum)? {
            return Ok(false);
        }
    }
    Ok(true)
}

/// The static objects of a constant at this place.
#[tactic(auto, unfolding(crate::specs::Limits::with_constant))]
pub fn count_constant<'a>(
    state: &mut State<'a>,
    place: Place,
    node: &'a Node,
) -> Result<(), ExpandRefusal>
    ensures { IsLimited (limits.with_constant place (data_view.view_node node.now) (view_state state.old)) result (view_state state.new) }
{
    if add_node(state, node)? && state.objects <= MAX_OBJECTS && state.words <= MAX_WORDS {
        Ok(())
    } else {
        Err(ExpandRefusal::Budget(place))
    }
}
