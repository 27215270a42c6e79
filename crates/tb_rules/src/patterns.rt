//! Whether patterns have their ellipses where they may stand.
ghost use Rattle.std.specs.Prelude.{◌≡◌, ◌&&◌, ◌||◌, false};
ghost use Rattle.tb_rules.specs.Names.{is_ellipsis as is_ellipsis_in};
ghost use Rattle.tb_rules.specs.Patterns as patterns;
ghost use Rattle.tb_rules.specs.View.{data_of, view_rest};
ghost use Rattle.tb_sexp.specs.View.{view};

use super::names::{is_dots, is_ellipsis, is_last};
use super::parts::RestParts;
use tb_sexp::{Datum, Node};

/// Whether the datum is a pattern. The recursion is as deep as the datum nests.
#[cycle(patterns)]
fn is_pattern(datum: &Datum) -> bool
    ensures { result ≡ patterns.is_pattern (view datum.now) }
{
    match &datum.node {
        Node::Nil | Node::Bool(_) | Node::Fix(_) | Node::Char(_) | Node::Str(_) | Node::Vector(_) =>
            true,
        Node::Name(text, _) => !is_dots(text.as_slice()),
        Node::List(elements, None) => are_patterns(elements.as_slice()),
        Node::List(elements, Some(tail)) => {
            all_patterns(elements.as_slice()) && is_pattern(tail.get())
        }
    }
}

/// Whether the elements of a list are patterns, of which the last may have an ellipsis.
#[cycle(patterns)]
fn are_patterns(elements: &[Datum]) -> bool
    ensures { result ≡ patterns.are_patterns false (data_of elements.now) }
{
    let mut behind = false;
    for (i, datum) in elements.iter().enumerate() {
        if !is_element(behind, is_last(elements, i), datum) {
            return false;
        }
        behind = true;
    }
    true
}

/// Whether the datum is a pattern, or the ellipsis behind the last pattern of a list.
#[cycle(patterns)]
fn is_element(behind: bool, last: bool, datum: &Datum) -> bool
    ensures { result ≡ (patterns.is_pattern (view datum.now) || (behind && (last && is_ellipsis_in (view datum.now)))) }
{
    is_pattern(datum) || (behind && (last && is_ellipsis(datum)))
}

/// Whether the data are patterns without ellipses after them.
#[cycle(patterns)]
fn all_patterns(datums: &[Datum]) -> bool
    ensures { result ≡ patterns.all_patterns (data_of datums.now) }
{
    for datum in datums {
        if !is_pattern(datum) {
            return false;
        }
    }
    true
}

/// Whether what stands behind the first name of a rule's pattern are patterns.
pub fn are_rest_patterns(rest: RestParts) -> bool
    ensures { result ≡ patterns.are_rest_patterns (view_rest rest.entry).elements (view_rest rest.entry).tail }
{
    match rest.tail {
        None => are_patterns(rest.elements),
        Some(tail) => all_patterns(rest.elements) && is_pattern(tail),
    }
}
