//! The parts of forms, rules and patterns.
ghost use Rattle.std.specs.Prelude.{◌≡◌, MatchOption, None, Some};
ghost use Rattle.tb_rules.specs.Compiled as compiled;
ghost use Rattle.tb_rules.specs.Patterns as patterns;
ghost use Rattle.tb_rules.specs.Rules as rules;
ghost use Rattle.tb_rules.specs.View.{data_of, view_form, view_rest, view_rule_parts, view_tail};
ghost use Rattle.tb_sexp.specs.View.{view};

use super::names::{is_ellipsis, is_name};
use tb_sexp::{Datum, Node};

/// The literals and the rules of a form.
#[derive(Clone, Copy, Debug)]
pub struct FormParts<'a> {
    pub literals: &'a [Datum],
    pub rules: &'a [Datum],
}

/// The pattern and the template of a rule.
#[derive(Clone, Copy, Debug)]
pub struct RuleParts<'a> {
    pub pattern: &'a Datum,
    pub template: &'a Datum,
}

/// What stands behind the first name of a pattern: the elements, and the tail of a dotted list.
#[derive(Clone, Copy, Debug)]
pub struct RestParts<'a> {
    pub elements: &'a [Datum],
    pub tail: Option<&'a Datum>,
}

/// The elements, where the datum is a list that is not dotted.
pub fn elements_of<'a>(datum: &'a Datum) -> Option<&'a [Datum]>
    ensures { MatchOption result (rules.elements_of (view datum.now) ≡ None) (λ ds. rules.elements_of (view datum.now) ≡ Some (data_of ds.now)) }
{
    match &datum.node {
        Node::Nil => Some(&[]),
        Node::List(elements, None) => Some(elements.as_slice()),
        _ => None,
    }
}

/// The rule that a list of these elements is.
fn rule_in<'a>(elements: &'a [Datum]) -> Option<RuleParts<'a>>
    ensures { MatchOption result (rules.rule_in (Some (data_of elements.now)) ≡ None) (λ r. rules.rule_in (Some (data_of elements.now)) ≡ Some (view_rule_parts r)) }
{
    if elements.len() == 2 {
        Some(RuleParts {
            pattern: &elements[0],
            template: &elements[1],
        })
    } else {
        None
    }
}

/// The rule that a datum is.
pub fn rule_of<'a>(datum: &'a Datum) -> Option<RuleParts<'a>>
    ensures { MatchOption result (rules.rule_of (view datum.now) ≡ None) (λ r. rules.rule_of (view datum.now) ≡ Some (view_rule_parts r)) }
{
    match elements_of(datum) {
        Some(elements) => rule_in(elements),
        None => None,
    }
}

/// The literals and the rules of a form with these elements.
fn form_in<'a>(elements: &'a [Datum]) -> Option<FormParts<'a>>
    ensures { MatchOption result (compiled.parts_in (Some (data_of elements.now)) ≡ None) (λ f. compiled.parts_in (Some (data_of elements.now)) ≡ Some (view_form f)) }
{
    if elements.len() < 2 {
        return None;
    }
    match elements_of(&elements[1]) {
        Some(literals) => Some(FormParts {
            literals,
            rules: &elements[2..],
        }),
        None => None,
    }
}

/// The literals and the rules of a form.
pub fn form_of<'a>(datum: &'a Datum) -> Option<FormParts<'a>>
    ensures { MatchOption result (compiled.parts_of (view datum.now) ≡ None) (λ f. compiled.parts_of (view datum.now) ≡ Some (view_form f)) }
{
    match elements_of(datum) {
        Some(elements) => form_in(elements),
        None => None,
    }
}

/// What stands behind the first element, where that is a name and no ellipsis.
fn rest_in<'a>(elements: &'a [Datum], tail: Option<&'a Datum>) -> Option<RestParts<'a>>
    ensures { MatchOption result (patterns.rest_in (data_of elements.now) (view_tail tail.entry) ≡ None) (λ r. patterns.rest_in (data_of elements.now) (view_tail tail.entry) ≡ Some (view_rest r)) }
{
    match elements.split_first() {
        Some((first, others)) if is_name(first) && !is_ellipsis(first) => Some(RestParts {
            elements: others,
            tail,
        }),
        _ => None,
    }
}

/// What stands behind the first name of a rule's pattern.
pub fn rest_of<'a>(pattern: &'a Datum) -> Option<RestParts<'a>>
    ensures { MatchOption result (patterns.rest_of (view pattern.now) ≡ None) (λ r. patterns.rest_of (view pattern.now) ≡ Some (view_rest r)) }
{
    match &pattern.node {
        Node::List(elements, None) => rest_in(elements.as_slice(), None),
        Node::List(elements, Some(tail)) => rest_in(elements.as_slice(), Some(tail.get())),
        _ => None,
    }
}
