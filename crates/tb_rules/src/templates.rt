//! Whether templates fit the variables of their patterns.
ghost use Rattle.std.specs.Prelude.{◌≡◌, ◌+◌, ◌&&◌, ◌||◌, IfOk, cond, false, map, not};
ghost use Rattle.tb_rules.specs.Templates as templates;
ghost use Rattle.tb_rules.specs.View.{data_of, view_variable};
ghost use Rattle.tb_sexp.specs.View.{view};

use super::names::{Variable, has_variable, is_dots, is_ellipsis, is_named, is_repeated};
use super::variables::depth_under;
use tb_prim::NoMemory;
use tb_sexp::{Datum, Node};

/// Whether a name that is a variable stands under as many ellipses as in its pattern.
fn stands_under(variables: &[Variable], depth: u32, text: &[u8], alias: u32) -> bool
    ensures { result ≡ templates.stands_under (map view_variable variables.now) depth text.now alias }
{
    for variable in variables {
        if is_named(text, alias, *variable) {
            return variable.depth == depth;
        }
    }
    true
}

/// Whether a variable stands in the template. The recursion is as deep as the template nests.
#[cycle(uses)]
fn uses_variable(variables: &[Variable], template: &Datum) -> bool
    ensures { result ≡ templates.uses_variable (map view_variable variables.now) (view template.now) }
{
    match &template.node {
        Node::Nil | Node::Bool(_) | Node::Fix(_) | Node::Char(_) | Node::Str(_) | Node::Vector(_) =>
            false,
        Node::Name(text, alias) => has_variable(variables, text.as_slice(), *alias),
        Node::List(elements, None) => some_use(variables, elements.as_slice()),
        Node::List(elements, Some(tail)) => {
            some_use(variables, elements.as_slice()) || uses_variable(variables, tail.get())
        }
    }
}

#[cycle(uses)]
fn some_use(variables: &[Variable], datums: &[Datum]) -> bool
    ensures { result ≡ templates.some_use (map view_variable variables.now) (data_of datums.now) }
{
    for datum in datums {
        if uses_variable(variables, datum) {
            return true;
        }
    }
    false
}

/// Whether the datum is a template under `depth` ellipses. The recursion is as deep as the datum nests.
#[cycle(templates)]
pub fn is_template(variables: &[Variable], depth: u32, datum: &Datum) -> Result<bool, NoMemory>
    ensures { IfOk result (λ b. b ≡ templates.is_template (map view_variable variables.now) depth (view datum.now)) }
{
    match &datum.node {
        Node::Nil | Node::Bool(_) | Node::Fix(_) | Node::Char(_) | Node::Str(_) | Node::Vector(_) =>
            Ok(true),
        Node::Name(text, alias) => {
            let text = text.as_slice();
            Ok(!is_dots(text) && stands_under(variables, depth, text, *alias))
        }
        Node::List(elements, None) => are_templates(variables, depth, elements.as_slice()),
        Node::List(elements, Some(tail)) => {
            Ok(
                are_templates(variables, depth, elements.as_slice())?
                    && is_template(variables, depth, tail.get())?,
            )
        }
    }
}

/// Whether the elements of a list are templates, each with at most one ellipsis after it.
#[cycle(templates)]
fn are_templates(variables: &[Variable], depth: u32, elements: &[Datum]) -> Result<bool, NoMemory>
    ensures { IfOk result (λ b. b ≡ templates.are_templates (map view_variable variables.now) depth false (data_of elements.now)) }
{
    let mut behind = false;
    for (i, datum) in elements.iter().enumerate() {
        let is_dots = is_ellipsis(datum);
        if is_dots && !behind {
            return Ok(false);
        }
        if !is_dots && !is_element(variables, depth, is_repeated(elements, i), datum)? {
            return Ok(false);
        }
        behind = !is_dots;
    }
    Ok(true)
}

/// Whether the datum may be an element of a list under `depth` ellipses, and be repeated.
#[cycle(templates)]
fn is_element(
    variables: &[Variable],
    depth: u32,
    repeated: bool,
    datum: &Datum,
) -> Result<bool, NoMemory>
    ensures { IfOk result (λ b. b ≡ ((not repeated || templates.uses_variable (map view_variable variables.now) (view datum.now)) && templates.is_template (map view_variable variables.now) (cond repeated (depth + 1) depth) (view datum.now))) }
{
    if repeated && !uses_variable(variables, datum) {
        return Ok(false);
    }
    is_template(variables, depth_under(depth, repeated)?, datum)
}
