//! The forms of a text, one after another, at top level.
ghost use Rattle.std.specs.Prelude.{◌≡◌, ◌≢◌, ℕ, List, IfOk, MatchOption, MatchResult, map};
ghost use Rattle.tb_expand.specs.Trees as trees;
ghost use Rattle.tb_expand.specs.Texts.{MeansText, RefusesForm, RefusesForms, RefusesText};
ghost use Rattle.tb_expand.specs.Words as words;
ghost use Rattle.tb_expand.specs.View.{Fails, data_of, nodes, view, view_defined, view_state};
ghost use Rattle.tb_expand.specs.calls.Forms.{DefinitionGives, DefinitionRefuses, FormGives, FormsGive, GlobalGives, GlobalRefuses};
ghost use Rattle.tb_sexp.specs.View as data_view;

use super::context::Context;
use super::definition::{Defined, Definition, Kind, definition_of, form_kind};
use super::expansion::{expand_datum, expand_defined};
use super::limits::open_node;
use super::node::inner;
use super::outside::{defined_by, first_outside_of};
use super::refusal::ExpandRefusal;
use super::state::{Meaning, State, word_of};
use super::tree::{Core, Node};
use sqlite_items::Boxed;
use std::alloc::Global;
use tb_prim::{NoMemory, Place};
use tb_sexp::Datum;

/// The most levels of nodes round an expression, its own included.
const MAX_LEVELS: usize = 1_000;

/// The definition of a global.
#[tactic(auto, using(crate::proofs::Views::viewing))]
fn make_definition<'a>(
    alloc: Global,
    place: Place,
    name: &'a [u8],
    value: Node<'a>,
) -> Result<Node<'a>, NoMemory>
    ensures { IfOk result (λ e. view e ≡ trees.At place (trees.DefGlobal name.now (view value.entry))) }
{
    Ok(Node {
        place,
        core: Core::DefGlobal(name, Boxed::new(alloc, value)?),
    })
}

/// The definition of a global as this.
fn expand_global<'a>(
    alloc: Global,
    state: &mut State<'a>,
    context: Context,
    place: Place,
    name: &'a [u8],
    value: &Defined<'a>,
) -> Result<Node<'a>, ExpandRefusal>
    ensures { MatchResult result (λ e. GlobalGives (view_state state.old) context place name.now (view_defined value.now) (view e) (view_state state.new)) (λ r. Fails (GlobalRefuses (view_state state.old) context place (view_defined value.now)) r) }
{
    match open_node(state, context, place, 1, 0) {
        Ok(()) => match expand_defined(alloc, state, inner(context), value) {
            Ok(node) => Ok(make_definition(alloc, place, name, node)?),
            Err(refusal) => Err(refusal),
        },
        Err(refusal) => Err(refusal),
    }
}

/// The global of a name, which is no form's name and not integrated.
fn plain_name<'a>(library: bool, name: &'a [u8]) -> Option<&'a [u8]>
    ensures { MatchOption result ((g : List ℕ) → words.word_of library name.now ≢ words.Plain g) (λ g. words.word_of library name.now ≡ words.Plain g.now) }
{
    match word_of(library, name) {
        Meaning::Plain(global) => Some(global),
        Meaning::Variable(_) => None,
        Meaning::Special(_) => None,
        Meaning::Integrated(_) => None,
    }
}

/// Adds the definition at this place, of what stands behind `define`.
fn expand_definition<'a>(
    alloc: Global,
    state: &mut State<'a>,
    context: Context,
    place: Place,
    rest: &'a [Datum],
    out: &mut Vec<Node<'a>>,
) -> Result<(), ExpandRefusal>
    ensures { MatchResult result (λ _. DefinitionGives (view_state state.old) context place (data_of rest.now) (view_state state.new) (nodes (map view out.old.items)) (nodes (map view out.new.items))) (λ r. Fails (DefinitionRefuses (view_state state.old) context place (data_of rest.now)) r) }
{
    match definition_of(alloc, place, rest)? {
        Some(definition) => {
            let Definition { binder, value } = definition;
            match plain_name(context.library, binder.name.text) {
                Some(name) => {
                    match expand_global(alloc, state, context, place, name, &value) {
                        Ok(node) => {
                            out.push(node)?;
                            Ok(())
                        }
                        Err(refusal) => Err(refusal),
                    }
                }
                None => Err(ExpandRefusal::Integrated(binder.place)),
            }
        }
        None => Err(ExpandRefusal::BadForm(place)),
    }
}

/// Adds the nodes that a form at top level stands for.
#[cycle(text)]
fn expand_form<'a>(
    alloc: Global,
    state: &mut State<'a>,
    context: Context,
    datum: &'a Datum,
    out: &mut Vec<Node<'a>>,
) -> Result<(), ExpandRefusal>
    ensures { MatchResult result (λ _. FormGives (view_state state.old) context (data_view.view datum.now) (view_state state.new) (nodes (map view out.old.items)) (nodes (map view out.new.items))) (λ r. Fails (RefusesForm (view_state state.old) context (data_view.view datum.now)) r) }
{
    match form_kind(state, context, datum) {
        Kind::Expression => match expand_datum(alloc, state, context, datum) {
            Ok(node) => {
                out.push(node)?;
                Ok(())
            }
            Err(refusal) => Err(refusal),
        },
        Kind::Defining(place, rest) => {
            match expand_definition(alloc, state, context, place, rest, out) {
                Ok(()) => Ok(()),
                Err(refusal) => Err(refusal),
            }
        }
        Kind::Beginning(_, rest) => match expand_forms(alloc, state, context, rest, out) {
            Ok(()) => Ok(()),
            Err(refusal) => Err(refusal),
        },
    }
}

/// Adds the nodes that forms at top level stand for.
#[cycle(text)]
fn expand_forms<'a>(
    alloc: Global,
    state: &mut State<'a>,
    context: Context,
    datums: &'a [Datum],
    out: &mut Vec<Node<'a>>,
) -> Result<(), ExpandRefusal>
    ensures { MatchResult result (λ _. FormsGive (view_state state.old) context (data_of datums.now) (view_state state.new) (nodes (map view out.old.items)) (nodes (map view out.new.items))) (λ r. Fails (RefusesForms (view_state state.old) context (data_of datums.now)) r) }
{
    for i in 0..datums.len() {
        match expand_form(alloc, state, context, &datums[i], out) {
            Ok(()) => {}
            Err(refusal) => return Err(refusal),
        }
    }
    Ok(())
}

/// The nodes that a whole text means.
pub fn expand_text<'a>(
    alloc: Global,
    forms: &'a [Datum],
    library: bool,
) -> Result<Vec<Node<'a>>, ExpandRefusal>
    ensures { MatchResult result (λ es. MeansText library (data_of forms.now) (nodes (map view es.items))) (λ r. Fails (RefusesText library (data_of forms.now)) r) }
{
    let mut state = State {
        scopes: Vec::new(alloc),
        nodes: 0,
        variables: 0,
        objects: 0,
        words: 0,
        symbols: Vec::new(alloc),
    };
    let context = Context {
        library,
        scope: 0,
        levels: MAX_LEVELS,
        is_value: false,
    };
    let mut parts = Vec::new(alloc);
    match expand_forms(alloc, &mut state, context, forms, &mut parts) {
        Ok(()) => {
            let defined = defined_by(alloc, parts.as_slice())?;
            match first_outside_of(defined.as_slice(), parts.as_slice()) {
                Some(place) => Err(ExpandRefusal::NotBuilt(place)),
                None => Ok(parts),
            }
        }
        Err(refusal) => Err(refusal),
    }
}
