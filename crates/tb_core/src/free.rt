ghost use Rattle.std.specs.Prelude.{◌≡◌, ◌+◌, ◌<◌, ◌≤◌, ◌++◌, ℕ, [], ◌∷◌, length, map, drop, nat_eq, IfOk, OnOk};
ghost use Rattle.indexmap.specs.IndexSet.{contains};
ghost use Rattle.tb_core.specs.FreeVariables as spec;
ghost use Rattle.tb_core.specs.FreeVariables.{lambdas_free, of_lambdas};
ghost use Rattle.tb_core.specs.FirstUses.{first_of, free_in_order};
ghost use Rattle.tb_core.specs.Tree as tree;
ghost use Rattle.tb_core.specs.View.{view, trees, view_lambda, view_program};

use super::limits::{MAX_DEPTH, after, levels_below};
use super::{Core, Expr, Lambda, LambdaId, Program, VarId, VarRow};
use indexmap::IndexSet;
use std::alloc::Global;
use tb_prim::{NoMemory, Row};

fn put(out: &mut Vec<VarId>, variable: VarId) -> Result<(), NoMemory>
    ensures { OnOk result (out.new.items ≡ out.old.items ++ variable ∷ []) }
{
    out.push(variable)?;
    Ok(())
}

/// The set of these variables, in the order of their first places.
fn set_of(alloc: Global, variables: &[VarId]) -> Result<IndexSet<VarId>, NoMemory>
    ensures keys { IfOk result (λ set. set.keys ≡ first_of [] variables.now) }
    ensures members { IfOk result (λ set. (x : ℕ) → contains nat_eq set x ≡ spec.is_in variables.now x) }
{
    let mut set = IndexSet::new(alloc);
    for variable in variables {
        set.insert(*variable)?;
    }
    Ok(set)
}

/// Puts those of the second list that are not in the first.
fn put_without(
    alloc: Global,
    out: &mut Vec<VarId>,
    bound: &[VarId],
    variables: &[VarId],
) -> Result<(), NoMemory>
    ensures { OnOk result (out.new.items ≡ out.old.items ++ spec.without bound.now variables.now) }
{
    let bound = set_of(alloc, bound)?;
    for variable in variables {
        if !bound.contains(variable) {
            put(out, *variable)?;
        }
    }
    Ok(())
}

/// The parameters of a lambda expression, the rest one last.
fn parameters(alloc: Global, lambda: &Lambda) -> Result<Vec<VarId>, NoMemory>
    ensures { IfOk result (λ all. all.items ≡ tree.parameters (view_lambda lambda.now)) }
{
    let mut all = Vec::from_slice(alloc, lambda.formals.as_slice())?;
    if let Some(rest) = lambda.rest {
        all.push(rest)?;
    }
    Ok(all)
}

/// Puts the free variables of an expression, as often as they stand in it, in written order. The number of the
/// first of the lambda expressions is `first`, and those in the expression are among them. Goes no deeper than `levels`
/// nodes, and answers want of memory at a node below.
#[cycle(free)]
#[tactic(auto, using(crate::proofs::Views::viewing))]
fn put_free(
    alloc: Global,
    lambdas: &[Lambda],
    first: usize,
    levels: u32,
    out: &mut Vec<VarId>,
    expr: &Expr,
) -> Result<(), NoMemory>
    requires { levels ≤ 1000 }
    ensures { OnOk result (out.new.items ≡ out.old.items ++ spec.free (lambdas_free (map view_lambda lambdas.now) first) (view expr.now)) }
{
    let levels = levels_below(levels)?;
    match &expr.core {
        Core::Quote(_) | Core::Global(_) => Ok(()),
        Core::Local(variable) => put(out, *variable),
        Core::Lambda(number) => put_lambda(alloc, lambdas, first, levels, out, *number),
        Core::If(test, then, other) => {
            put_free(alloc, lambdas, first, levels, out, test.get())?;
            put_free(alloc, lambdas, first, levels, out, then.get())?;
            put_free(alloc, lambdas, first, levels, out, other.get())
        }
        Core::SetLocal(variable, value) => {
            put(out, *variable)?;
            put_free(alloc, lambdas, first, levels, out, value.get())
        }
        Core::SetGlobal(_, value) => put_free(alloc, lambdas, first, levels, out, value.get()),
        Core::DefGlobal(_, value) => put_free(alloc, lambdas, first, levels, out, value.get()),
        Core::Let(variables, values, body) => {
            put_free_of_all(alloc, lambdas, first, levels, out, values.as_slice())?;
            put_outer(
                alloc,
                lambdas,
                first,
                levels,
                out,
                variables.as_slice(),
                &[],
                body.get(),
            )
        }
        Core::Letrec(variables, numbers, body) => put_outer(
            alloc,
            lambdas,
            first,
            levels,
            out,
            variables.as_slice(),
            numbers.as_slice(),
            body.get(),
        ),
        Core::Seq(exprs) => put_free_of_all(alloc, lambdas, first, levels, out, exprs.as_slice()),
        Core::Call(operator, operands) => {
            put_free(alloc, lambdas, first, levels, out, operator.get())?;
            put_free_of_all(alloc, lambdas, first, levels, out, operands.as_slice())
        }
        Core::Prim(_, operands) => put_free_of_all(
            alloc,
            lambdas,
            first,
            levels,
            out,
            operands.as_slice(),
        ),
        Core::Apply(procedure, list) => {
            put_free(alloc, lambdas, first, levels, out, procedure.get())?;
            put_free(alloc, lambdas, first, levels, out, list.get())
        }
    }
}

/// The same of these expressions, one after another.
#[cycle(free)]
#[tactic(auto, using(crate::proofs::Views::viewing))]
fn put_free_of_all(
    alloc: Global,
    lambdas: &[Lambda],
    first: usize,
    levels: u32,
    out: &mut Vec<VarId>,
    exprs: &[Expr],
) -> Result<(), NoMemory>
    requires { levels ≤ 1000 }
    ensures { OnOk result (out.new.items ≡ out.old.items ++ spec.free_all (lambdas_free (map view_lambda lambdas.now) first) (trees (map view exprs.now))) }
{
    for expr in exprs {
        put_free(alloc, lambdas, first, levels, out, expr)?;
    }
    Ok(())
}

/// The same of some lambda expressions and a body, but those that are bound.
#[cycle(free)]
#[tactic(auto, using(crate::proofs::Views::viewing))]
fn put_outer(
    alloc: Global,
    lambdas: &[Lambda],
    first: usize,
    levels: u32,
    out: &mut Vec<VarId>,
    bound: &[VarId],
    numbers: &[LambdaId],
    body: &Expr,
) -> Result<(), NoMemory>
    requires { levels ≤ 1000 }
    ensures { OnOk result (out.new.items ≡ out.old.items ++ spec.without bound.now (of_lambdas (lambdas_free (map view_lambda lambdas.now) first) numbers.now ++ spec.free (lambdas_free (map view_lambda lambdas.now) first) (view body.now))) }
{
    let mut inside = Vec::new(alloc);
    for number in numbers {
        put_lambda(alloc, lambdas, first, levels, &mut inside, *number)?;
    }
    put_free(alloc, lambdas, first, levels, &mut inside, body)?;
    put_without(alloc, out, bound, inside.as_slice())
}

/// The same of a lambda expression by its number.
#[cycle(free)]
#[tactic(auto, using(crate::proofs::Views::viewing))]
fn put_lambda(
    alloc: Global,
    lambdas: &[Lambda],
    first: usize,
    levels: u32,
    out: &mut Vec<VarId>,
    number: LambdaId,
) -> Result<(), NoMemory>
    requires { levels ≤ 1000 }
    ensures { OnOk result (out.new.items ≡ out.old.items ++ lambdas_free (map view_lambda lambdas.now) first number) }
{
    let number = number as usize;
    if number < first || lambdas.len() <= number - first {
        return Ok(());
    }
    let index = number - first;
    let lambda = &lambdas[index];
    let bound = parameters(alloc, lambda)?;
    let mut inside = Vec::new(alloc);
    put_free(
        alloc,
        after(lambdas, index),
        number + 1,
        levels,
        &mut inside,
        &lambda.body,
    )?;
    put_without(alloc, out, bound.as_slice(), inside.as_slice())
}

/// The list with each variable at its first place alone.
fn first_uses(alloc: Global, variables: &[VarId]) -> Result<Vec<VarId>, NoMemory>
    ensures { IfOk result (λ out. out.items ≡ first_of [] variables.now) }
{
    let set = set_of(alloc, variables)?;
    Ok(Vec::from_slice(alloc, set.as_slice())?)
}

/// The free variables of a lambda expression of the program, each once, in the order of their first use. Want of
/// memory is also the answer where nodes of its body nest deeper than 1,000, which `check` refuses.
pub fn free_vars(alloc: Global, program: &Program, lambda: LambdaId) -> Result<VarRow, NoMemory>
    requires { lambda < length program.now.lambdas }
    ensures { IfOk result (λ row. row ≡ free_in_order (view_program program.now) lambda) }
{
    let mut all = Vec::new(alloc);
    put_lambda(
        alloc,
        program.lambdas.as_slice(),
        0,
        MAX_DEPTH,
        &mut all,
        lambda,
    )?;
    Ok(Row::from_vec(first_uses(alloc, all.as_slice())?))
}
