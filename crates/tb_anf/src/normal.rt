//! The procs of a program in A-normal form.
ghost use Rattle.std.specs.Prelude.{◌≡◌, ◌+◌, ◌≤◌, ◌++◌, ℕ, map, IfOk, OnOk};
ghost use Rattle.tb_core.specs.Order.{view_line};
ghost use Rattle.tb_ir.specs.AnfPlain.{view_proc};
ghost use Rattle.tb_ir.specs.Plain.{trees, view, view_lambda};
ghost use Rattle.tb_ir.specs.View.{view_lifted};
ghost use Rattle.tb_anf.specs.NormalForm as normal;
ghost use Rattle.tb_anf.specs.NormalForm.{normal_form, size, size_all};
ghost use Rattle.tb_anf.specs.calls.Captures.{row_at};
ghost use Rattle.tb_anf.specs.calls.Lines.{line_at};
ghost use Rattle.tb_anf.specs.calls.Procs.{AreMade, proc_by, procs_by};

use super::captures::{MAX_DEPTH, added, all_parameters, captured_rows, lift_index};
use super::lines::{Walk, line_index};
use super::pass::block;
use super::steps::number_of;
use indexmap::IndexMap;
use std::alloc::Global;
use tb_core::{LambdaId, LiftLine, Order, VarRow};
use tb_ir::{AnfProc, CellExpr, CellLambda, Lifted, ProcRow};
use tb_prim::{NoMemory, Row};

/// The lambda expressions that are lifted, where the line of each is, and what the closures of all capture.
#[derive(Clone, Copy)]
struct Tables<'a> {
    set: &'a [LiftLine],
    index: &'a IndexMap<LambdaId, usize>,
    rows: &'a [VarRow],
}

/// The proc of a top-level form, whose node has this number. Sets the number to the next one.
fn form_proc(walk: Walk, number: &mut u32, form: &CellExpr) -> Result<AnfProc, NoMemory>
    ensures number { OnOk result (number.new ≡ number.old + size (view form.now)) }
    ensures proc { IfOk result (λ q. view_proc q ≡ normal.form_proc (line_at walk.entry) number.old (view form.now)) }
{
    Ok(AnfProc {
        lambda: None,
        lifted: false,
        place: form.place,
        params: Row::from_vec(Vec::new(walk.alloc)),
        rest: false,
        captured: Row::from_vec(Vec::new(walk.alloc)),
        body: block(walk, MAX_DEPTH, number, form)?,
    })
}

/// The procs of these forms in written order.
fn form_procs(walk: Walk, number: &mut u32, forms: &[CellExpr]) -> Result<Vec<AnfProc>, NoMemory>
    ensures number { OnOk result (number.new ≡ number.old + size_all (trees (map view forms.now))) }
    ensures procs { IfOk result (λ qs. map view_proc qs.items ≡ normal.form_procs (line_at walk.entry) number.old (trees (map view forms.now))) }
{
    let mut out = Vec::new(walk.alloc);
    for form in forms {
        out.push(form_proc(walk, number, form)?)?;
    }
    Ok(out)
}

/// The row of a lambda expression, or an empty one where it has none.
fn row_of(alloc: Global, rows: &[VarRow], index: usize) -> Result<VarRow, NoMemory>
    ensures { IfOk result (λ row. row ≡ row_at rows.now index) }
{
    match rows.get(index) {
        None => Ok(Row::from_vec(Vec::new(alloc))),
        Some(row) => Ok(Row::from_vec(Vec::from_slice(alloc, row.as_slice())?)),
    }
}

/// The proc of a lambda expression, whose body has this number.
fn lambda_proc(
    walk: Walk,
    tables: Tables,
    number: &mut u32,
    index: usize,
    lambda: &CellLambda,
) -> Result<AnfProc, NoMemory>
    ensures number { OnOk result (number.new ≡ number.old + size (view_lambda lambda.now).body) }
    ensures proc { IfOk result (λ q. view_proc q ≡ proc_by (line_at walk.entry) tables.entry index number.old (view_lambda lambda.now)) }
{
    let alloc = walk.alloc;
    let own = number_of(index)?;
    let added = added(tables.set, tables.index, own);
    Ok(AnfProc {
        lambda: Some(own),
        lifted: tables.index.contains_key(&own),
        place: lambda.place,
        params: Row::from_vec(all_parameters(alloc, lambda, added)?),
        rest: lambda.rest.is_some(),
        captured: row_of(alloc, tables.rows, index)?,
        body: block(walk, MAX_DEPTH, number, &lambda.body)?,
    })
}

/// The procs of the lambda expressions in the order of their numbers.
fn lambda_procs(
    walk: Walk,
    tables: Tables,
    number: &mut u32,
    lambdas: &[CellLambda],
) -> Result<Vec<AnfProc>, NoMemory>
    ensures { IfOk result (λ qs. map view_proc qs.items ≡ procs_by (line_at walk.entry) tables.entry 0 number.old (map view_lambda lambdas.now)) }
{
    let mut out = Vec::new(walk.alloc);
    for (index, lambda) in lambdas.iter().enumerate() {
        out.push(lambda_proc(walk, tables, number, index, lambda)?)?;
    }
    Ok(out)
}

/// The procs of these forms, and then those of the lambda expressions.
fn all_procs(
    walk: Walk,
    tables: Tables,
    forms: &[CellExpr],
    lambdas: &[CellLambda],
) -> Result<ProcRow, NoMemory>
    ensures { IfOk result (λ procs. AreMade walk.entry tables.entry (trees (map view forms.now)) (map view_lambda lambdas.now) procs) }
{
    let mut number = 0;
    let mut procs = form_procs(walk, &mut number, forms)?;
    let mut others = lambda_procs(walk, tables, &mut number, lambdas)?;
    procs.append(&mut others)?;
    Ok(Row::from_vec(procs))
}

/// The procs of a program in A-normal form, under an order of its operands: linear in the nodes, but for what closures
/// capture. Want of memory is also the answer where nodes nest deeper than 1,000, where a `let` has not as many
/// variables as values, and where a line names an operand twice or none. A block is a chain as long as its body has
/// operations, which to drop or to walk takes as many levels: at most 1,000 in a body that `check` lets through.
pub fn normal_procs(alloc: Global, lifted: &Lifted, order: &Order) -> Result<ProcRow, NoMemory>
    ensures { IfOk result (λ procs. map view_proc procs ≡ (normal_form (view_lifted lifted.now) (map view_line order.now)).procs) }
{
    let index = line_index(alloc, order.as_slice())?;
    let walk = Walk {
        alloc,
        order: order.as_slice(),
        index: &index,
    };
    let set = lifted.set.as_slice();
    let lambdas = lifted.lambdas.as_slice();
    let lifts = lift_index(alloc, set)?;
    let rows = captured_rows(alloc, lambdas, set, &lifts)?;
    let tables = Tables {
        set,
        index: &lifts,
        rows: rows.as_slice(),
    };
    all_procs(walk, tables, lifted.forms.as_slice(), lambdas)
}
