//! Walks over nodes: the variables that they assign, and the first that is too deep.
ghost use Rattle.std.specs.Prelude.{◌≡◌, ◌<◌, ◌-◌, ◌++◌, IfOk, map};
ghost use Rattle.tb_expand.specs.Splits as splits;
ghost use Rattle.tb_expand.specs.View.{nodes, view, view_core, view_variable};
ghost use Rattle.tb_expand.specs.calls.Splitting as splitting;

use super::name::Variable;
use super::tree::{Core, Node};
use tb_prim::{NoMemory, Place};

/// Adds the variables that a `set!` in the node names.
#[cycle(assigned)]
#[tactic(auto, using(crate::proofs::Views::viewing))]
pub fn add_assigned<'a>(node: &Node<'a>, out: &mut Vec<Variable<'a>>) -> Result<(), NoMemory>
    ensures { IfOk result (λ _. map view_variable out.new.items ≡ map view_variable out.old.items ++ splitting.assigned_of (view node.now)) }
{
    add_assigned_in(&node.core, out)
}

#[cycle(assigned)]
#[tactic(auto, using(crate::proofs::Views::viewing))]
fn add_assigned_in<'a>(core: &Core<'a>, out: &mut Vec<Variable<'a>>) -> Result<(), NoMemory>
    ensures { IfOk result (λ _. map view_variable out.new.items ≡ map view_variable out.old.items ++ splitting.assigned_in (view_core core.now)) }
{
    match core {
        Core::Constant(_)
        | Core::Unspecified
        | Core::Undefined
        | Core::Local(_)
        | Core::Global(_) => Ok(()),
        Core::Lambda(_, _, body) => add_assigned(body.get(), out),
        Core::If(test, first, second) => {
            add_assigned(test.get(), out)?;
            add_assigned(first.get(), out)?;
            add_assigned(second.get(), out)
        }
        Core::SetLocal(variable, value) => {
            out.push(*variable)?;
            add_assigned(value.get(), out)
        }
        Core::SetGlobal(_, _, value) => add_assigned(value.get(), out),
        Core::DefGlobal(_, value) => add_assigned(value.get(), out),
        Core::Let(_, values, body) => {
            add_all_assigned(values.as_slice(), out)?;
            add_assigned(body.get(), out)
        }
        Core::Letrec(_, values, body) => {
            add_all_assigned(values.as_slice(), out)?;
            add_assigned(body.get(), out)
        }
        Core::Seq(parts) => add_all_assigned(parts.as_slice(), out),
        Core::Call(operator, operands) => {
            add_assigned(operator.get(), out)?;
            add_all_assigned(operands.as_slice(), out)
        }
        Core::Prim(_, operands) => add_all_assigned(operands.as_slice(), out),
        Core::Apply(procedure, list) => {
            add_assigned(procedure.get(), out)?;
            add_assigned(list.get(), out)
        }
    }
}

/// The same of nodes one after another.
#[cycle(assigned)]
#[tactic(auto, using(crate::proofs::Views::viewing))]
pub fn add_all_assigned<'a>(parts: &[Node<'a>], out: &mut Vec<Variable<'a>>) -> Result<(), NoMemory>
    ensures { IfOk result (λ _. map view_variable out.new.items ≡ map view_variable out.old.items ++ splitting.assigned_all (nodes (map view parts.now))) }
{
    for part in parts {
        add_assigned(part, out)?;
    }
    Ok(())
}

/// The place of the first node, in written order, that has so many nodes around it or more.
#[cycle(deep)]
#[tactic(auto, using(crate::proofs::Views::viewing, crate::proofs::Levels::deep_here, crate::proofs::Levels::deep_below))]
pub fn first_deep(levels: usize, node: &Node) -> Option<Place>
    ensures { result ≡ splits.first_deep levels (view node.now) }
{
    if levels == 0 {
        Some(node.place)
    } else {
        first_deep_in(levels, &node.core)
    }
}

#[cycle(deep)]
#[tactic(auto, using(crate::proofs::Views::viewing, crate::proofs::Levels::one_level))]
fn first_deep_in(levels: usize, core: &Core) -> Option<Place>
    requires { 0 < levels }
    ensures { result ≡ splits.first_deep_in (levels - 1) (view_core core.now) }
{
    let below = levels - 1;
    match core {
        Core::Constant(_)
        | Core::Unspecified
        | Core::Undefined
        | Core::Local(_)
        | Core::Global(_) => None,
        Core::Lambda(_, _, body) => first_deep(below, body.get()),
        Core::If(test, first, second) => match first_deep(below, test.get()) {
            Some(place) => Some(place),
            None => match first_deep(below, first.get()) {
                Some(place) => Some(place),
                None => first_deep(below, second.get()),
            },
        },
        Core::SetLocal(_, value) => first_deep(below, value.get()),
        Core::SetGlobal(_, _, value) => first_deep(below, value.get()),
        Core::DefGlobal(_, value) => first_deep(below, value.get()),
        Core::Let(_, values, body) => match first_deep_of(below, values.as_slice()) {
            Some(place) => Some(place),
            None => first_deep(below, body.get()),
        },
        Core::Letrec(_, values, body) => match first_deep_of(levels, values.as_slice()) {
            Some(place) => Some(place),
            None => first_deep(below, body.get()),
        },
        Core::Seq(parts) => first_deep_of(below, parts.as_slice()),
        Core::Call(operator, operands) => match first_deep(below, operator.get()) {
            Some(place) => Some(place),
            None => first_deep_of(below, operands.as_slice()),
        },
        Core::Prim(_, operands) => first_deep_of(below, operands.as_slice()),
        Core::Apply(procedure, list) => match first_deep(below, procedure.get()) {
            Some(place) => Some(place),
            None => first_deep(below, list.get()),
        },
    }
}

/// The same of nodes one after another.
#[cycle(deep)]
#[tactic(auto, using(crate::proofs::Views::viewing))]
fn first_deep_of(levels: usize, parts: &[Node]) -> Option<Place>
    ensures { result ≡ splits.first_deep_of levels (nodes (map view parts.now)) }
{
    for part in parts {
        if let Some(place) = first_deep(levels, part) {
            return Some(place);
        }
    }
    None
}
