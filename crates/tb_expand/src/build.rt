//! What a node is made of that has nothing but its operands.
ghost use Rattle.std.specs.Prelude.{◌≡◌, ◌≢◌, ◌≤◌, ◌∷◌, [], IfOk, MatchOption, None, Some, length, map};
ghost use Rattle.tb_expand.specs.Expressions as expressions;
ghost use Rattle.tb_expand.specs.Trees as trees;
ghost use Rattle.tb_expand.specs.View.{nodes, view, view_build, view_core, view_variable};
ghost use Rattle.tb_expand.specs.calls.Expanded.{Suits};

use super::expression::Build;
use super::name::Variable;
use super::tree::{Core, Node};
use sqlite_items::Boxed;
use std::alloc::Global;
use tb_prim::{NoMemory, Place, Row};

/// The first of the elements, where there is only one.
pub fn take_one<T: Drop>(mut elements: Vec<T>) -> Option<T>
    ensures { MatchOption result (length elements.items ≢ 1) (λ x. elements.items ≡ x ∷ []) }
{
    match elements.pop() {
        Some(one) => if elements.is_empty() { Some(one) } else { None },
        None => None,
    }
}

/// Two elements, where there are so many.
fn take_two<T: Drop>(mut elements: Vec<T>) -> Option<(T, T)>
    ensures { MatchOption result (length elements.items ≢ 2) (λ r. elements.items ≡ r.0 ∷ r.1 ∷ []) }
{
    match elements.pop() {
        Some(two) => match take_one(elements) {
            Some(one) => Some((one, two)),
            None => None,
        },
        None => None,
    }
}

/// Three elements, where there are so many.
fn take_three<T: Drop>(mut elements: Vec<T>) -> Option<(T, T, T)>
    ensures { MatchOption result (length elements.items ≢ 3) (λ r. elements.items ≡ r.0 ∷ r.1 ∷ r.2 ∷ []) }
{
    match elements.pop() {
        Some(three) => match take_two(elements) {
            Some((one, two)) => Some((one, two, three)),
            None => None,
        },
        None => None,
    }
}

/// An `if` with both arms.
#[tactic(auto, using(crate::proofs::Views::viewing))]
fn build_choice<'a>(alloc: Global, place: Place, parts: Vec<Node<'a>>) -> Result<Core<'a>, NoMemory>
    requires { length parts.items ≡ 3 }
    ensures { IfOk result (λ core. expressions.built place (expressions.Choosing) (nodes (map view parts.entry.items)) ≡ Some (view_core core)) }
{
    match take_three(parts) {
        Some((test, first, second)) => Ok(Core::If(
            Boxed::new(alloc, test)?,
            Boxed::new(alloc, first)?,
            Boxed::new(alloc, second)?,
        )),
        None => unreachable!(),
    }
}

/// An `if` without its second arm, which gives the unspecified value.
#[tactic(auto, using(crate::proofs::Views::viewing))]
fn build_short_choice<'a>(
    alloc: Global,
    place: Place,
    parts: Vec<Node<'a>>,
) -> Result<Core<'a>, NoMemory>
    requires { length parts.items ≡ 2 }
    ensures { IfOk result (λ core. expressions.built place (expressions.ChoosingOne) (nodes (map view parts.entry.items)) ≡ Some (view_core core)) }
{
    match take_two(parts) {
        Some((test, first)) => {
            let second = Node {
                place,
                core: Core::Unspecified,
            };
            Ok(Core::If(
                Boxed::new(alloc, test)?,
                Boxed::new(alloc, first)?,
                Boxed::new(alloc, second)?,
            ))
        }
        None => unreachable!(),
    }
}

/// An assignment of a variable.
#[tactic(auto, using(crate::proofs::Views::viewing))]
fn build_local_assignment<'a>(
    alloc: Global,
    place: Place,
    variable: Variable<'a>,
    parts: Vec<Node<'a>>,
) -> Result<Core<'a>, NoMemory>
    requires { length parts.items ≡ 1 }
    ensures { IfOk result (λ core. expressions.built place (expressions.AssigningLocal (view_variable variable.entry)) (nodes (map view parts.entry.items)) ≡ Some (view_core core)) }
{
    match take_one(parts) {
        Some(value) => Ok(Core::SetLocal(variable, Boxed::new(alloc, value)?)),
        None => unreachable!(),
    }
}

/// An assignment of a global, whose name stands at this place.
#[tactic(auto, using(crate::proofs::Views::viewing))]
fn build_global_assignment<'a>(
    alloc: Global,
    place: Place,
    target: Place,
    text: &'a [u8],
    parts: Vec<Node<'a>>,
) -> Result<Core<'a>, NoMemory>
    requires { length parts.items ≡ 1 }
    ensures { IfOk result (λ core. expressions.built place (expressions.AssigningGlobal target text.now) (nodes (map view parts.entry.items)) ≡ Some (view_core core)) }
{
    match take_one(parts) {
        Some(value) => Ok(Core::SetGlobal(target, text, Boxed::new(alloc, value)?)),
        None => unreachable!(),
    }
}

/// An `apply` of a procedure to a list.
#[tactic(auto, using(crate::proofs::Views::viewing))]
fn build_apply<'a>(alloc: Global, place: Place, parts: Vec<Node<'a>>) -> Result<Core<'a>, NoMemory>
    requires { length parts.items ≡ 2 }
    ensures { IfOk result (λ core. expressions.built place (expressions.ApplyingTo) (nodes (map view parts.entry.items)) ≡ Some (view_core core)) }
{
    match take_two(parts) {
        Some((procedure, list)) => Ok(Core::Apply(
            Boxed::new(alloc, procedure)?,
            Boxed::new(alloc, list)?,
        )),
        None => unreachable!(),
    }
}

/// A call of the first of the parts with the others.
#[tactic(auto, using(crate::proofs::Views::viewing))]
fn build_call<'a>(alloc: Global, place: Place, parts: Vec<Node<'a>>) -> Result<Core<'a>, NoMemory>
    requires { 1 ≤ length parts.items }
    ensures { IfOk result (λ core. expressions.built place (expressions.Calling) (nodes (map view parts.entry.items)) ≡ Some (view_core core)) }
{
    let mut operands = parts;
    let operator = operands.remove(0);
    Ok(Core::Call(Boxed::new(alloc, operator)?, Row::from_vec(operands)))
}

/// The node of these operands, of which there are as many as it has.
#[tactic(auto, using(crate::proofs::Views::viewing))]
pub fn build_core<'a>(
    alloc: Global,
    place: Place,
    build: Build<'a>,
    parts: Vec<Node<'a>>,
) -> Result<Core<'a>, NoMemory>
    requires { Suits (view_build build) (length parts.items) }
    ensures { IfOk result (λ core. expressions.built place (view_build build.entry) (nodes (map view parts.entry.items)) ≡ Some (view_core core)) }
{
    match build {
        Build::Choosing => build_choice(alloc, place, parts),
        Build::ChoosingOne => build_short_choice(alloc, place, parts),
        Build::AssigningLocal(variable) => build_local_assignment(alloc, place, variable, parts),
        Build::AssigningGlobal(target, text) => {
            build_global_assignment(alloc, place, target, text, parts)
        }
        Build::Using(prim) => Ok(Core::Prim(prim, Row::from_vec(parts))),
        Build::ApplyingTo => build_apply(alloc, place, parts),
        Build::Calling => build_call(alloc, place, parts),
    }
}

/// How many nodes follow the operands: the one of an `if` without its second arm.
pub fn follows(build: &Build) -> usize
    ensures { result ≡ expressions.follows (view_build build.now) }
{
    match build {
        Build::ChoosingOne => 1,
        _ => 0,
    }
}
