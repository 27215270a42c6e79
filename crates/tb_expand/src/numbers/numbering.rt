//! What was numbered so far: nodes, lambda expressions and static objects.
ghost use Rattle.std.specs.Prelude.{◌≡◌, ◌<◌, [], IfOk, OnOk, length};
ghost use Rattle.tb_core.specs.Plain.{view_lambda};
ghost use Rattle.tb_expand.specs.calls.Numbering as calls;
ghost use Rattle.tb_expand.specs.calls.Numbering.{constant_of, open_lambda as opened, so_far, with_constant, with_lambda, with_lambda_at, with_node};
ghost use Rattle.tb_sexp.specs.View as data_view;

use super::statics::{Statics, no_statics, place_constant};
use std::alloc::Global;
use tb_core::{Core, Expr, Lambda, LambdaId, Site};
use tb_prim::{Const, NoMemory, Place, Row};
use tb_sexp::Node as DatumNode;

/// How many nodes were numbered, the lambda expressions in the order of their numbers, and the static objects.
#[derive(Debug, Drop)]
pub struct Numbering<'a> {
    pub nodes: u32,
    pub lambdas: Vec<Lambda>,
    pub statics: Statics<'a>,
}

/// The number of the next node, which is one more from now on.
#[tactic(auto, unfolding(crate::specs::calls::Numbering::so_far, crate::specs::calls::Numbering::next_node, crate::specs::calls::Numbering::with_node))]
pub fn next_node<'a>(state: &mut Numbering<'a>) -> Result<Site, NoMemory>
    ensures site { IfOk result (λ n. n ≡ calls.next_node (so_far state.old)) }
    ensures state { OnOk result (so_far state.new ≡ with_node (so_far state.old)) }
{
    let site = state.nodes;
    state.nodes = site.checked_add(1).ok_or(NoMemory)?;
    Ok(site)
}

/// The number of the next lambda expression.
#[tactic(auto, unfolding(crate::specs::calls::Numbering::so_far, crate::specs::calls::Numbering::next_lambda))]
pub fn next_lambda(state: &Numbering) -> Result<LambdaId, NoMemory>
    ensures { IfOk result (λ n. n ≡ calls.next_lambda (so_far state.now)) }
{
    u32::try_from(state.lambdas.len()).map_err(|_| NoMemory)
}

/// The constant of a quoted datum.
#[tactic(auto, unfolding(crate::specs::calls::Numbering::so_far, crate::specs::calls::Numbering::constant_of, crate::specs::calls::Numbering::with_constant))]
pub fn place<'a>(
    alloc: Global,
    state: &mut Numbering<'a>,
    node: &'a DatumNode,
) -> Result<Const, NoMemory>
    ensures constant { IfOk result (λ c. c ≡ constant_of (so_far state.old) (data_view.view_node node.now)) }
    ensures state { OnOk result (so_far state.new ≡ with_constant (so_far state.old) (data_view.view_node node.now)) }
{
    place_constant(alloc, &mut state.statics, node)
}

/// The number of a lambda expression at this place, whose body is not numbered yet.
pub fn open_lambda<'a>(
    alloc: Global,
    state: &mut Numbering<'a>,
    place: Place,
) -> Result<LambdaId, NoMemory>
    ensures number { IfOk result (λ n. n ≡ calls.next_lambda (so_far state.old)) }
    ensures state { OnOk result (so_far state.new ≡ with_lambda (so_far state.old) (opened place)) }
{
    let number = next_lambda(state)?;
    let body = Expr {
        place,
        site: 0,
        core: Core::Quote(Const::Unspecified),
    };
    state.lambdas.push(Lambda {
        place,
        formals: Row::from_vec(Vec::new(alloc)),
        rest: None,
        body,
    })?;
    Ok(number)
}

/// The lambda expression of this number.
pub fn close_lambda<'a>(state: &mut Numbering<'a>, number: LambdaId, lambda: Lambda)
    requires { number < length state.old.lambdas.items }
    ensures { so_far state.new ≡ with_lambda_at (so_far state.old) number (view_lambda lambda) }
{
    state.lambdas[number as usize] = lambda;
}

/// Nothing numbered.
pub fn nothing_numbered<'a>(alloc: Global) -> Numbering<'a>
    ensures { so_far result ≡ calls.nothing_made }
{
    Numbering {
        nodes: 0,
        lambdas: Vec::new(alloc),
        statics: no_statics(alloc),
    }
}
