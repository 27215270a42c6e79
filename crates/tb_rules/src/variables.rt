//! The variables of patterns.
ghost use Rattle.std.specs.Prelude.{◌≡◌, ◌+◌, ◌++◌, IfOk, OnOk, cond, map};
ghost use Rattle.tb_rules.specs.Patterns as patterns;
ghost use Rattle.tb_rules.specs.View.{data_of, view_rest, view_variable};
ghost use Rattle.tb_sexp.specs.View.{view};

use super::names::{Variable, is_dots, is_literal, is_repeated};
use super::parts::RestParts;
use std::alloc::Global;
use tb_prim::NoMemory;
use tb_sexp::{Datum, Node};

/// Where a pattern stands: the literals of its form, and the ellipses over it.
#[derive(Clone, Copy, Debug)]
struct Under<'l> {
    literals: &'l [Datum],
    depth: u32,
}

/// Adds a name that is a variable.
fn add_name<'a>(
    out: &mut Vec<Variable<'a>>,
    under: Under,
    text: &'a [u8],
    alias: u32,
) -> Result<(), NoMemory>
    ensures { OnOk result (map view_variable out.new.items ≡ map view_variable out.old.items ++ patterns.name_variables (data_of under.entry.literals.now) under.entry.depth text.now alias) }
{
    if is_dots(text) || is_literal(under.literals, text, alias) {
        return Ok(());
    }
    out.push(Variable {
        text,
        alias,
        depth: under.depth,
    })?;
    Ok(())
}

/// Adds the variables of a pattern. The recursion is as deep as the pattern nests.
#[cycle(variables)]
fn add_variables<'a>(
    out: &mut Vec<Variable<'a>>,
    under: Under,
    pattern: &'a Datum,
) -> Result<(), NoMemory>
    ensures { OnOk result (map view_variable out.new.items ≡ map view_variable out.old.items ++ patterns.variables_in (data_of under.entry.literals.now) under.entry.depth (view pattern.now)) }
{
    match &pattern.node {
        Node::Name(text, alias) => add_name(out, under, text.as_slice(), *alias),
        Node::List(elements, None) => add_all(out, under, elements.as_slice()),
        Node::List(elements, Some(tail)) => {
            add_all(out, under, elements.as_slice())?;
            add_variables(out, under, tail.get())
        }
        Node::Nil | Node::Bool(_) | Node::Fix(_) | Node::Char(_) | Node::Str(_) | Node::Vector(_) =>
            Ok(()),
    }
}

/// Adds the variables of the elements of a list.
#[cycle(variables)]
fn add_all<'a>(
    out: &mut Vec<Variable<'a>>,
    under: Under,
    elements: &'a [Datum],
) -> Result<(), NoMemory>
    ensures { OnOk result (map view_variable out.new.items ≡ map view_variable out.old.items ++ patterns.list_variables (data_of under.entry.literals.now) under.entry.depth (data_of elements.now)) }
{
    for (i, datum) in elements.iter().enumerate() {
        let depth = depth_under(under.depth, is_repeated(elements, i))?;
        let literals = under.literals;
        add_variables(out, Under { literals, depth }, datum)?;
    }
    Ok(())
}

/// The ellipses over an element of a list that stands under `depth` of them.
pub fn depth_under(depth: u32, repeated: bool) -> Result<u32, NoMemory>
    ensures { IfOk result (λ n. n ≡ cond repeated (depth + 1) depth) }
{
    if repeated {
        depth.checked_add(1).ok_or(NoMemory)
    } else {
        Ok(depth)
    }
}

/// The variables behind the first name of a rule's pattern.
pub fn variables_of<'a>(
    alloc: Global,
    literals: &[Datum],
    rest: RestParts<'a>,
) -> Result<Vec<Variable<'a>>, NoMemory>
    ensures { IfOk result (λ vs. map view_variable vs.items ≡ patterns.rest_variables (data_of literals.now) (view_rest rest.entry).elements (view_rest rest.entry).tail) }
{
    let mut out = Vec::new(alloc);
    let under = Under { literals, depth: 0 };
    add_all(&mut out, under, rest.elements)?;
    if let Some(tail) = rest.tail {
        add_variables(&mut out, under, tail)?;
    }
    Ok(out)
}
