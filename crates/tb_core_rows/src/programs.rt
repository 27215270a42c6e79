ghost use Rattle.std.specs.Prelude.{◌≤◌, ◌≡◌, ℕ, List, [], length, IfOk, IfSome};
ghost use Rattle.tb_semantics.specs.Graph.{IsApart};
ghost use Rattle.tb_core.specs.Rules.{Every};
ghost use Rattle.tb_core.specs.View.{view};
ghost use Rattle.tb_core_rows.specs.Quiet.{IsQuiet, IsPlain};

use super::trees::{
    alone, call, constant, empty_let, lambda, lambda_node, nested, of_one, sequence,
};
use std::alloc::Global;
use tb_core::{Expr, Program};
use tb_prim::NoMemory;

/// An empty `let`, at 1, with a sequence of so many constants.
pub fn wide_let(alloc: Global, count: usize) -> Result<Program, NoMemory>
    requires some { 1 ≤ count }
    requires few { count ≤ 2000 }
{
    let form = empty_let(alloc, 1, sequence(alloc, 2, count)?)?;
    of_one(alloc, Vec::new(alloc), Vec::new(alloc), form)
}

/// A call, at 1, with so many operands.
pub fn call_of(alloc: Global, count: usize) -> Result<Program, NoMemory>
    requires { count ≤ 2000 }
{
    let form = call(alloc, 1, count)?;
    of_one(alloc, Vec::new(alloc), Vec::new(alloc), form)
}

/// A lambda expression, at 2, with so many parameters before the rest one, and a sequence of so many constants as
/// its body.
pub fn lambda_of(
    alloc: Global,
    count: u32,
    has_rest: bool,
    constants: usize,
) -> Result<Program, NoMemory>
    requires parameters { count ≤ 20 }
    requires some { 1 ≤ constants }
    requires few { constants ≤ 2000 }
{
    let body = sequence(alloc, 3, constants)?;
    let lambda = lambda(alloc, 2, count, has_rest, body)?;
    of_one(
        alloc,
        Vec::new(alloc),
        vec![in alloc; lambda]?,
        lambda_node(1),
    )
}

/// The innermost node, at 4: a constant, or a call with so many operands.
fn innermost(alloc: Global, operands: Option<usize>) -> Result<Expr, NoMemory>
    requires { IfSome operands (λ n. n ≤ 20) }
    ensures { IfOk result (λ e. (ss : List ℕ) × IsApart ss × ((within : List ℕ) → IsQuiet within [] ss 30 (view e))) }
{
    match operands {
        None => Ok(constant(4)),
        Some(count) => call(alloc, 4, count),
    }
}

/// So many sequences around the lambda expression 0, at 2, with so many sequences around the innermost node. That one
/// is at the depth of all sequences and 2.
pub fn deep(
    alloc: Global,
    outer: usize,
    inner: usize,
    operands: Option<usize>,
) -> Result<Program, NoMemory>
    requires operands { IfSome operands (λ n. n ≤ 20) }
    requires outer { outer ≤ 2000 }
    requires inner { inner ≤ 2000 }
    ensures { IfOk result (λ p. length p.lambdas ≡ 1) }
{
    let body = nested(alloc, 3, inner, innermost(alloc, operands)?)?;
    let lambda = lambda(alloc, 2, 0, false, body)?;
    let form = nested(alloc, 1, outer, lambda_node(1))?;
    of_one(alloc, Vec::new(alloc), vec![in alloc; lambda]?, form)
}

/// So many forms of equal width, each a sequence at the number of the form from 1.
fn equal_forms(alloc: Global, count: u32, width: usize) -> Result<Vec<Expr>, NoMemory>
    requires count { count ≤ 20 }
    requires width { 2 ≤ width }
    ensures count { IfOk result (λ all. length all.items ≡ count) }
    ensures plain { IfOk result (λ all. Every (λ e. IsPlain width (view e)) all.items) }
{
    let mut all = Vec::new(alloc);
    for index in 0..count {
        all.push(sequence(alloc, index + 1, width - 1)?)?;
    }
    Ok(all)
}

/// A program of these forms, and a last one of one node where that is asked for.
pub fn forms_of(
    alloc: Global,
    count: u32,
    width: usize,
    has_last: bool,
) -> Result<Program, NoMemory>
    requires count { count ≤ 20 }
    requires some { 2 ≤ width }
    requires few { width ≤ 2000 }
{
    let mut forms = equal_forms(alloc, count, width)?;
    if has_last {
        forms.push(constant(count + 1))?;
    }
    Ok(alone(alloc, forms))
}
