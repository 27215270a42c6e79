//! What the closures of the lambda expressions of a program capture.
ghost use Rattle.std.specs.Prelude.{◌≡◌, ◌+◌, ◌≤◌, ◌++◌, ℕ, [], ◌∷◌, length, map, nat_eq, is_some, IfOk, OnOk};
ghost use Rattle.indexmap.specs.IndexMap.{get};
ghost use Rattle.indexmap.specs.IndexSet.{contains};
ghost use Rattle.tb_core.specs.FirstUses.{first_of};
ghost use Rattle.tb_core.specs.FreeVariables as core;
ghost use Rattle.tb_core.specs.FreeVariables.{of_lambdas, without};
ghost use Rattle.tb_core.specs.Lifting.{Lifted, view_lifted};
ghost use Rattle.tb_ir.specs.FreeVariables as spec;
ghost use Rattle.tb_ir.specs.FreeVariables.{added_to, lambdas_free};
ghost use Rattle.tb_ir.specs.Plain.{trees, view, view_lambda};
ghost use Rattle.tb_anf.specs.calls.Captures.{added_in, captured_in, known, row_at};

use super::steps::{levels_below, number_of};
use indexmap::{IndexMap, IndexSet};
use std::alloc::Global;
use tb_core::{LambdaId, LiftLine, VarId, VarRow};
use tb_ir::{CellCore, CellExpr, CellLambda};
use tb_prim::{NoMemory, Row};

/// The greatest depth of nodes: a form has depth 1.
pub(crate) const MAX_DEPTH: u32 = 1000;

/// What the closures of the lambda expressions capture, by their numbers, where that is known.
#[derive(Clone, Copy)]
struct Captures<'a> {
    alloc: Global,
    rows: &'a [VarRow],
}

/// Where the first line of each lambda expression that is lifted is.
pub(crate) fn lift_index(
    alloc: Global,
    set: &[LiftLine],
) -> Result<IndexMap<LambdaId, usize>, NoMemory>
    ensures added { IfOk result (λ index. (l : ℕ) → added_in set.now (get nat_eq index l) ≡ added_to (map view_lifted set.now) l) }
    ensures lifted { IfOk result (λ index. (l : ℕ) → is_some (get nat_eq index l) ≡ core.is_in (map (λ (m : Lifted). m.lambda) (map view_lifted set.now)) l) }
{
    let mut index = IndexMap::new(alloc);
    for at in (0..set.len()).rev() {
        index.insert(set[at].lambda, at)?;
    }
    Ok(index)
}

/// The set of these variables, in the order of their first places.
fn set_of(alloc: Global, variables: &[VarId]) -> Result<IndexSet<VarId>, NoMemory>
    ensures keys { IfOk result (λ set. set.keys ≡ first_of [] variables.now) }
    ensures members { IfOk result (λ set. (x : ℕ) → contains nat_eq set x ≡ core.is_in variables.now x) }
{
    let mut set = IndexSet::new(alloc);
    for variable in variables {
        set.insert(*variable)?;
    }
    Ok(set)
}

/// Puts a variable.
fn put(out: &mut Vec<VarId>, variable: VarId) -> Result<(), NoMemory>
    ensures { OnOk result (out.new.items ≡ out.old.items ++ variable ∷ []) }
{
    out.push(variable)?;
    Ok(())
}

/// Puts those of the second list that are not in the first.
fn put_without(
    alloc: Global,
    out: &mut Vec<VarId>,
    bound: &[VarId],
    variables: &[VarId],
) -> Result<(), NoMemory>
    ensures { OnOk result (out.new.items ≡ out.old.items ++ without bound.now variables.now) }
{
    let bound = set_of(alloc, bound)?;
    for variable in variables {
        if !bound.contains(variable) {
            put(out, *variable)?;
        }
    }
    Ok(())
}

/// Puts what the closures of a lambda expression capture.
fn put_captured(captures: Captures, out: &mut Vec<VarId>, lambda: LambdaId) -> Result<(), NoMemory>
    ensures { OnOk result (out.new.items ≡ out.old.items ++ known captures.entry lambda) }
{
    if let Some(row) = captures.rows.get(lambda as usize) {
        out.extend_from_slice(row.as_slice())?;
    }
    Ok(())
}

/// Puts the free variables of an expression, as often as they stand in it, in written order, with what a closure
/// captures where one is made. Goes no deeper than `levels` nodes, and answers want of memory at a node below.
#[cycle(free)]
#[tactic(auto, using(crate::proofs::code::Views::viewing))]
fn put_free(
    captures: Captures,
    levels: u32,
    out: &mut Vec<VarId>,
    expr: &CellExpr,
) -> Result<(), NoMemory>
    requires { levels ≤ 1000 }
    ensures { OnOk result (out.new.items ≡ out.old.items ++ spec.free (known captures.entry) (view expr.now)) }
{
    let levels = levels_below(levels)?;
    match &expr.core {
        CellCore::Quote(_) | CellCore::Global(_) => Ok(()),
        CellCore::Local(variable) => put(out, *variable),
        CellCore::Lambda(lambda) => put_captured(captures, out, *lambda),
        CellCore::If(test, then, other) => {
            put_free(captures, levels, out, test.get())?;
            put_free(captures, levels, out, then.get())?;
            put_free(captures, levels, out, other.get())
        }
        CellCore::NewCell(value) | CellCore::CellGet(value) => {
            put_free(captures, levels, out, value.get())
        }
        CellCore::CellSet(cell, value) => {
            put_free(captures, levels, out, cell.get())?;
            put_free(captures, levels, out, value.get())
        }
        CellCore::SetGlobal(_, value) | CellCore::DefGlobal(_, value) => {
            put_free(captures, levels, out, value.get())
        }
        CellCore::Let(variables, values, body) => {
            put_free_of_all(captures, levels, out, values.as_slice())?;
            put_outer(captures, levels, out, variables.as_slice(), &[], body.get())
        }
        CellCore::Letrec(variables, lambdas, body) => put_outer(
            captures,
            levels,
            out,
            variables.as_slice(),
            lambdas.as_slice(),
            body.get(),
        ),
        CellCore::Seq(exprs) | CellCore::Direct(_, exprs) | CellCore::Prim(_, exprs) => {
            put_free_of_all(captures, levels, out, exprs.as_slice())
        }
        CellCore::Call(operator, operands) => {
            put_free(captures, levels, out, operator.get())?;
            put_free_of_all(captures, levels, out, operands.as_slice())
        }
        CellCore::Apply(procedure, list) => {
            put_free(captures, levels, out, procedure.get())?;
            put_free(captures, levels, out, list.get())
        }
    }
}

/// The same of these expressions, one after another.
#[cycle(free)]
#[tactic(auto, using(crate::proofs::code::Views::viewing))]
fn put_free_of_all(
    captures: Captures,
    levels: u32,
    out: &mut Vec<VarId>,
    exprs: &[CellExpr],
) -> Result<(), NoMemory>
    requires { levels ≤ 1000 }
    ensures { OnOk result (out.new.items ≡ out.old.items ++ spec.free_all (known captures.entry) (trees (map view exprs.now))) }
{
    for expr in exprs {
        put_free(captures, levels, out, expr)?;
    }
    Ok(())
}

/// The same of some lambda expressions and a body, but those that are bound.
#[cycle(free)]
#[tactic(auto, using(crate::proofs::code::Views::viewing))]
fn put_outer(
    captures: Captures,
    levels: u32,
    out: &mut Vec<VarId>,
    bound: &[VarId],
    lambdas: &[LambdaId],
    body: &CellExpr,
) -> Result<(), NoMemory>
    requires { levels ≤ 1000 }
    ensures { OnOk result (out.new.items ≡ out.old.items ++ without bound.now (of_lambdas (known captures.entry) lambdas.now ++ spec.free (known captures.entry) (view body.now))) }
{
    let mut inside = Vec::new(captures.alloc);
    for lambda in lambdas {
        put_captured(captures, &mut inside, *lambda)?;
    }
    put_free(captures, levels, &mut inside, body)?;
    put_without(captures.alloc, out, bound, inside.as_slice())
}

/// The parameters of a lambda expression, the rest one behind the others, and then those that are added.
pub(crate) fn all_parameters(
    alloc: Global,
    lambda: &CellLambda,
    added: &[VarId],
) -> Result<Vec<VarId>, NoMemory>
    ensures { IfOk result (λ all. all.items ≡ spec.parameters (view_lambda lambda.now) ++ added.now) }
{
    let mut all = Vec::from_slice(alloc, lambda.formals.as_slice())?;
    if let Some(rest) = lambda.rest {
        all.push(rest)?;
    }
    all.extend_from_slice(added)?;
    Ok(all)
}

/// The variables that are added to a lambda expression.
pub(crate) fn added<'a>(
    set: &'a [LiftLine],
    index: &IndexMap<LambdaId, usize>,
    lambda: LambdaId,
) -> &'a [VarId]
    ensures { result.now ≡ added_in set.now (get nat_eq index.now lambda) }
{
    match index.get(&lambda).copied() {
        None => &[],
        Some(at) => match set.get(at) {
            None => &[],
            Some(line) => line.added.as_slice(),
        },
    }
}

/// What the closures of a lambda expression capture: its free variables, each once, in the order of first use.
fn captured(captures: Captures, lambda: &CellLambda, added: &[VarId]) -> Result<VarRow, NoMemory>
    ensures { IfOk result (λ row. row ≡ captured_in (known captures.entry) (view_lambda lambda.now) added.now) }
{
    let alloc = captures.alloc;
    let bound = all_parameters(alloc, lambda, added)?;
    let mut uses = Vec::new(alloc);
    put_free(captures, MAX_DEPTH, &mut uses, &lambda.body)?;
    let mut free = Vec::new(alloc);
    put_without(alloc, &mut free, bound.as_slice(), uses.as_slice())?;
    let set = set_of(alloc, free.as_slice())?;
    Ok(Row::from_vec(Vec::from_slice(alloc, set.as_slice())?))
}

/// So many empty rows.
fn empty_rows(alloc: Global, count: usize) -> Result<Vec<VarRow>, NoMemory>
    ensures rows { IfOk result (λ rows. (l : ℕ) → row_at rows.items l ≡ []) }
    ensures long { IfOk result (λ rows. length rows.items ≡ count) }
{
    let mut rows = Vec::new(alloc);
    for at in 0..count {
        rows.push(Row::from_vec(Vec::new(alloc)))?;
    }
    Ok(rows)
}

/// What the closures of each lambda expression capture, by its number. Each body is gone over once.
pub(crate) fn captured_rows(
    alloc: Global,
    lambdas: &[CellLambda],
    set: &[LiftLine],
    index: &IndexMap<LambdaId, usize>,
) -> Result<Vec<VarRow>, NoMemory>
    requires { (l : ℕ) → added_in set.now (get nat_eq index.now l) ≡ added_to (map view_lifted set.now) l }
    ensures { IfOk result (λ rows. (l : ℕ) → row_at rows.items l ≡ first_of [] (lambdas_free (map view_lifted set.now) (map view_lambda lambdas.now) 0 l)) }
{
    let mut rows = empty_rows(alloc, lambdas.len())?;
    for at in (0..lambdas.len()).rev() {
        let number = number_of(at)?;
        let captures = Captures {
            alloc,
            rows: rows.as_slice(),
        };
        rows[at] = captured(captures, &lambdas[at], added(set, index, number))?;
    }
    Ok(rows)
}
