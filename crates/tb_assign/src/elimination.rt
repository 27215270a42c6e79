//! Bodies in which each variable that is assigned is a cell.
ghost use Rattle.std.specs.Prelude.{◌≡◌, ◌+◌, ◌≤◌, ◌^◌, ℕ, List, map, if◌then◌else◌, IfOk};
ghost use Rattle.tb_semantics.specs.Keeps.{Keeps};
ghost use Rattle.tb_core.specs.FreeVariables.{is_assigned};
ghost use Rattle.tb_core.specs.Measures.{reference_measured};
ghost use Rattle.tb_core.specs.OperandOrder.{order_of};
ghost use Rattle.tb_core.specs.Order.{view_line};
ghost use Rattle.tb_core.specs.Plain as core;
ghost use Rattle.tb_core.specs.Tree.{parameters};
ghost use Rattle.tb_core.specs.View.{view_program};
ghost use Rattle.tb_core.specs.Width as core_width;
ghost use Rattle.tb_core.specs.calls.Marks.{is_marked};
ghost use Rattle.tb_ir.specs.Measures.{tree_measured};
ghost use Rattle.tb_ir.specs.Plain.{trees, view, view_core, view_lambda};
ghost use Rattle.tb_ir.specs.Rules.{IsOrderOf};
ghost use Rattle.tb_ir.specs.Tree as tree;
ghost use Rattle.tb_ir.specs.View.{view_cells};
ghost use Rattle.tb_ir.specs.Width.{all_widths};
ghost use Rattle.tb_assign.specs.Eliminate as spec;
ghost use Rattle.tb_assign.specs.calls.Cells.{made};

use super::targets::{MAX_DEPTH, assigned_table, levels_below};
use sqlite_items::Boxed;
use std::alloc::Global;
use tb_core::{Core, Expr, Lambda, LambdaId, Order, Program, Site, VarId};
use tb_ir::{CellCore, CellExpr, CellExprRow, CellLambda, CellLambdaRow, CellProgram};
use tb_prim::{NoMemory, Place, Row, copy_names, copy_statics};

/// The first number of a fresh variable, and of the site of a new `let`: all numbers of a program are below.
const FRESH: u32 = 0x100_0000;

/// The first site of a new `let` at the head of the body of a lambda expression.
const BODY_SITE: u32 = 0x200_0000;

/// The first site of the name of a cell that is read or set.
const NAME_SITE: u32 = 0x300_0000;

/// The first site of a new cell.
const CELL_SITE: u32 = 0x400_0000;

/// The first site of the operand of a new cell.
const OPERAND_SITE: u32 = 0x500_0000;

/// A number that is new, or want of memory where it does not fit, which numbers of a program do.
fn new_number(first: u32, number: u32) -> Result<u32, NoMemory>
    ensures { IfOk result (λ n. n ≡ first + number) }
{
    first.checked_add(number).ok_or(NoMemory)
}

/// Whether the table has a mark at the variable.
fn is_cell(assigned: &[bool], variable: VarId) -> bool
    ensures { result ≡ is_marked assigned.now variable }
{
    assigned.get(variable as usize).copied().unwrap_or(false)
}

/// A variable, or its fresh one where it is assigned.
fn renamed_variable(assigned: &[bool], variable: VarId) -> Result<VarId, NoMemory>
    ensures { IfOk result (λ x. x ≡ if is_marked assigned.now variable then spec.fresh variable else variable) }
{
    if is_cell(assigned, variable) {
        new_number(FRESH, variable)
    } else {
        Ok(variable)
    }
}

/// A list of variables with fresh ones for those that are assigned.
fn renamed(alloc: Global, assigned: &[bool], variables: &[VarId]) -> Result<Vec<VarId>, NoMemory>
    ensures { IfOk result (λ out. out.items ≡ spec.renamed (is_marked assigned.now) variables.now) }
{
    let mut out = Vec::new(alloc);
    for variable in variables {
        out.push(renamed_variable(assigned, *variable)?)?;
    }
    Ok(out)
}

/// The variables that are assigned.
fn celled(alloc: Global, assigned: &[bool], variables: &[VarId]) -> Result<Vec<VarId>, NoMemory>
    ensures { IfOk result (λ out. out.items ≡ spec.celled (is_marked assigned.now) variables.now) }
{
    let mut out = Vec::new(alloc);
    for variable in variables {
        if is_cell(assigned, *variable) {
            out.push(*variable)?;
        }
    }
    Ok(out)
}

/// A new cell for a variable, made of its fresh one.
#[tactic(auto, using(crate::proofs::Views::viewing))]
fn new_cell(alloc: Global, place: Place, variable: VarId) -> Result<CellExpr, NoMemory>
    ensures { IfOk result (λ e. view e ≡ made place variable) }
{
    let operand = CellExpr {
        place,
        site: new_number(OPERAND_SITE, variable)?,
        core: CellCore::Local(new_number(FRESH, variable)?),
    };
    Ok(CellExpr {
        place,
        site: new_number(CELL_SITE, variable)?,
        core: CellCore::NewCell(Boxed::new(alloc, operand)?),
    })
}

/// A new cell for each of the variables.
fn new_cells(alloc: Global, place: Place, variables: &[VarId]) -> Result<Vec<CellExpr>, NoMemory>
    ensures { IfOk result (λ out. map view out.items ≡ map (made place) variables.now) }
{
    let mut out = Vec::new(alloc);
    for variable in variables {
        out.push(new_cell(alloc, place, *variable)?)?;
    }
    Ok(out)
}

/// A body in which those of the variables that are assigned are cells.
#[tactic(auto, using(crate::proofs::CodeLists::making))]
fn with_cells(
    alloc: Global,
    assigned: &[bool],
    place: Place,
    site: Site,
    variables: &[VarId],
    body: CellExpr,
) -> Result<CellExpr, NoMemory>
    ensures { IfOk result (λ e. view e ≡ spec.with_cells (is_marked assigned.now) place site variables.now (view body)) }
{
    let variables = celled(alloc, assigned, variables)?;
    if variables.is_empty() {
        return Ok(body);
    }
    let cells = new_cells(alloc, place, variables.as_slice())?;
    Ok(CellExpr {
        place,
        site,
        core: CellCore::Let(
            Row::from_vec(variables),
            Row::from_vec(cells),
            Boxed::new(alloc, body)?,
        ),
    })
}

/// The name of a variable that is a cell.
#[tactic(auto, using(crate::proofs::Views::viewing))]
fn cell_name(
    alloc: Global,
    place: Place,
    site: Site,
    variable: VarId,
) -> Result<Boxed<CellExpr>, NoMemory>
    ensures { IfOk result (λ e. view e ≡ tree.Node place (spec.name_site site) (tree.Local variable)) }
{
    let name = CellExpr {
        place,
        site: new_number(NAME_SITE, site)?,
        core: CellCore::Local(variable),
    };
    Ok(Boxed::new(alloc, name)?)
}

/// The value of a variable.
#[tactic(auto, using(crate::proofs::Views::viewing))]
fn read_variable(
    alloc: Global,
    assigned: &[bool],
    place: Place,
    site: Site,
    variable: VarId,
) -> Result<CellCore, NoMemory>
    ensures { IfOk result (λ core. view_core core ≡ spec.read_variable (is_marked assigned.now) place site variable (is_marked assigned.now variable)) }
{
    if is_cell(assigned, variable) {
        Ok(CellCore::CellGet(cell_name(alloc, place, site, variable)?))
    } else {
        Ok(CellCore::Local(variable))
    }
}

/// A copy of these numbers.
fn copy(alloc: Global, numbers: &[u32]) -> Result<Row<u32>, NoMemory>
    ensures { IfOk result (λ row. row ≡ numbers.now) }
{
    Ok(Row::from_vec(Vec::from_slice(alloc, numbers)?))
}

/// A `let` with these values and this body, where those of its variables that are assigned are cells.
#[tactic(auto, using(crate::proofs::Views::viewing))]
fn bind(
    alloc: Global,
    assigned: &[bool],
    place: Place,
    site: Site,
    variables: &[VarId],
    values: CellExprRow,
    body: CellExpr,
) -> Result<CellCore, NoMemory>
    ensures { IfOk result (λ core. view_core core ≡ tree.Let (spec.renamed (is_marked assigned.now) variables.now) (trees (map view values)) (spec.with_cells (is_marked assigned.now) place site variables.now (view body))) }
{
    let body = with_cells(alloc, assigned, place, site, variables, body)?;
    let fresh = renamed(alloc, assigned, variables)?;
    Ok(CellCore::Let(Row::from_vec(fresh), values, Boxed::new(alloc, body)?))
}

/// What an expression is where each variable that is assigned is a cell. Goes no deeper than `levels` nodes, and
/// answers want of memory at a node below.
#[cycle(eliminate)]
#[tactic(auto, using(crate::proofs::Views::viewing))]
fn eliminate_core(
    alloc: Global,
    assigned: &[bool],
    levels: u32,
    expr: &Expr,
) -> Result<CellCore, NoMemory>
    requires { levels ≤ 1000 }
    ensures { IfOk result (λ c. view_core c ≡ spec.eliminate_form (is_marked assigned.now) expr.now.place expr.now.site (core.view_core expr.now.core)) }
{
    let levels = levels_below(levels)?;
    match &expr.core {
        Core::Quote(constant) => Ok(CellCore::Quote(*constant)),
        Core::Local(variable) => read_variable(alloc, assigned, expr.place, expr.site, *variable),
        Core::Global(global) => Ok(CellCore::Global(*global)),
        Core::Lambda(number) => Ok(CellCore::Lambda(*number)),
        Core::If(test, then, other) => {
            let test = eliminate_part(alloc, assigned, levels, test.get())?;
            let then = eliminate_part(alloc, assigned, levels, then.get())?;
            let other = eliminate_part(alloc, assigned, levels, other.get())?;
            Ok(CellCore::If(test, then, other))
        }
        Core::SetLocal(variable, value) => {
            let name = cell_name(alloc, expr.place, expr.site, *variable)?;
            let value = eliminate_part(alloc, assigned, levels, value.get())?;
            Ok(CellCore::CellSet(name, value))
        }
        Core::SetGlobal(global, value) => {
            let value = eliminate_part(alloc, assigned, levels, value.get())?;
            Ok(CellCore::SetGlobal(*global, value))
        }
        Core::DefGlobal(global, value) => {
            let value = eliminate_part(alloc, assigned, levels, value.get())?;
            Ok(CellCore::DefGlobal(*global, value))
        }
        Core::Let(variables, values, body) => {
            let body = eliminate_expr(alloc, assigned, levels, body.get())?;
            let values = eliminate_all(alloc, assigned, levels, values.as_slice())?;
            let site = new_number(FRESH, expr.site)?;
            bind(
                alloc,
                assigned,
                expr.place,
                site,
                variables.as_slice(),
                values,
                body,
            )
        }
        Core::Letrec(variables, numbers, body) => {
            let variables = copy(alloc, variables.as_slice())?;
            let numbers = copy(alloc, numbers.as_slice())?;
            let body = eliminate_part(alloc, assigned, levels, body.get())?;
            Ok(CellCore::Letrec(variables, numbers, body))
        }
        Core::Seq(exprs) => {
            let exprs = eliminate_all(alloc, assigned, levels, exprs.as_slice())?;
            Ok(CellCore::Seq(exprs))
        }
        Core::Call(operator, operands) => {
            let operator = eliminate_part(alloc, assigned, levels, operator.get())?;
            let operands = eliminate_all(alloc, assigned, levels, operands.as_slice())?;
            Ok(CellCore::Call(operator, operands))
        }
        Core::Prim(prim, operands) => {
            let operands = eliminate_all(alloc, assigned, levels, operands.as_slice())?;
            Ok(CellCore::Prim(*prim, operands))
        }
        Core::Apply(procedure, list) => {
            let procedure = eliminate_part(alloc, assigned, levels, procedure.get())?;
            let list = eliminate_part(alloc, assigned, levels, list.get())?;
            Ok(CellCore::Apply(procedure, list))
        }
    }
}

/// An expression in which each variable that is assigned is a cell.
#[cycle(eliminate)]
#[tactic(auto, using(crate::proofs::Views::viewing))]
fn eliminate_expr(
    alloc: Global,
    assigned: &[bool],
    levels: u32,
    expr: &Expr,
) -> Result<CellExpr, NoMemory>
    requires { levels ≤ 1000 }
    ensures { IfOk result (λ e. view e ≡ spec.eliminate (is_marked assigned.now) (core.view expr.now)) }
{
    Ok(CellExpr {
        place: expr.place,
        site: expr.site,
        core: eliminate_core(alloc, assigned, levels, expr)?,
    })
}

/// The same as a part of another.
#[cycle(eliminate)]
#[tactic(auto, using(crate::proofs::Views::viewing))]
fn eliminate_part(
    alloc: Global,
    assigned: &[bool],
    levels: u32,
    expr: &Expr,
) -> Result<Boxed<CellExpr>, NoMemory>
    requires { levels ≤ 1000 }
    ensures { IfOk result (λ e. view e ≡ spec.eliminate (is_marked assigned.now) (core.view expr.now)) }
{
    Ok(Boxed::new(alloc, eliminate_expr(alloc, assigned, levels, expr)?)?)
}

/// The same of these expressions, one after another.
#[cycle(eliminate)]
#[tactic(auto, using(crate::proofs::CodeLists::making))]
fn eliminate_all(
    alloc: Global,
    assigned: &[bool],
    levels: u32,
    exprs: &[Expr],
) -> Result<CellExprRow, NoMemory>
    requires { levels ≤ 1000 }
    ensures { IfOk result (λ row. trees (map view row) ≡ spec.eliminate_all (is_marked assigned.now) (core.trees (map core.view exprs.now))) }
{
    let mut out = Vec::new(alloc);
    for expr in exprs {
        out.push(eliminate_expr(alloc, assigned, levels, expr)?)?;
    }
    Ok(Row::from_vec(out))
}

/// The parameters of a lambda expression, the rest one last.
fn parameters_of(alloc: Global, lambda: &Lambda) -> Result<Vec<VarId>, NoMemory>
    ensures { IfOk result (λ all. all.items ≡ parameters (core.view_lambda lambda.now)) }
{
    let mut all = Vec::from_slice(alloc, lambda.formals.as_slice())?;
    if let Some(rest) = lambda.rest {
        all.push(rest)?;
    }
    Ok(all)
}

/// A rest parameter, or its fresh variable where it is assigned.
fn renamed_rest(assigned: &[bool], rest: Option<VarId>) -> Result<Option<VarId>, NoMemory>
    ensures { IfOk result (λ o. o ≡ spec.renamed_rest (is_marked assigned.now) rest) }
{
    match rest {
        None => Ok(None),
        Some(variable) => Ok(Some(renamed_variable(assigned, variable)?)),
    }
}

/// A lambda expression in which each variable that is assigned is a cell.
#[tactic(auto, using(crate::proofs::Views::viewing))]
fn eliminate_lambda(
    alloc: Global,
    assigned: &[bool],
    number: LambdaId,
    lambda: &Lambda,
) -> Result<CellLambda, NoMemory>
    ensures { IfOk result (λ l. view_lambda l ≡ spec.eliminate_lambda (is_marked assigned.now) number (core.view_lambda lambda.now)) }
{
    let all = parameters_of(alloc, lambda)?;
    let inside = eliminate_expr(alloc, assigned, MAX_DEPTH, &lambda.body)?;
    let site = new_number(BODY_SITE, number)?;
    Ok(CellLambda {
        place: lambda.place,
        formals: Row::from_vec(renamed(alloc, assigned, lambda.formals.as_slice())?),
        rest: renamed_rest(assigned, lambda.rest)?,
        body: with_cells(alloc, assigned, lambda.place, site, all.as_slice(), inside)?,
    })
}

/// The lambda expressions, in the order of their numbers.
fn eliminate_lambdas(
    alloc: Global,
    assigned: &[bool],
    lambdas: &[Lambda],
) -> Result<CellLambdaRow, NoMemory>
    ensures { IfOk result (λ row. map view_lambda row ≡ spec.eliminate_lambdas (is_marked assigned.now) 0 (map core.view_lambda lambdas.now)) }
{
    let mut out = Vec::new(alloc);
    for (index, lambda) in lambdas.iter().enumerate() {
        let number = u32::try_from(index).map_err(|_| NoMemory)?;
        out.push(eliminate_lambda(alloc, assigned, number, lambda)?)?;
    }
    Ok(Row::from_vec(out))
}

/// The program in which each variable that is assigned is a cell, for a program and its own order. Linear in the
/// nodes. Want of memory is also the answer where nodes nest deeper than 1,000, which `check` refuses.
pub fn eliminate(alloc: Global, program: &Program, order: &Order) -> Result<CellProgram, NoMemory>
    requires { map view_line order.now ≡ order_of (view_program program.now) }
    ensures cells { IfOk result (λ cells. view_cells cells ≡ spec.cells_of (view_program program.now)) }
    ensures keeps { IfOk result (λ cells. (input : List ℕ) → Keeps (tree_measured (view_cells cells) (map view_line order.now) input) (reference_measured (view_program program.now) (map view_line order.now) input) 0) }
    ensures is_order { IfOk result (λ cells. IsOrderOf (view_cells cells) (map view_line order.now)) }
    ensures no_wider { IfOk result (λ cells. all_widths (view_cells cells) (map view_line order.now) ≡ core_width.all_widths (view_program program.now)) }
{
    let assigned = assigned_table(alloc, program)?;
    let assigned = assigned.as_slice();
    let lambdas = eliminate_lambdas(alloc, assigned, program.lambdas.as_slice())?;
    let forms = eliminate_all(alloc, assigned, MAX_DEPTH, program.forms.as_slice())?;
    Ok(CellProgram {
        globals: copy_names(alloc, program.globals.as_slice())?,
        statics: copy_statics(alloc, program.statics.as_slice())?,
        lambdas,
        forms,
    })
}
