//! The expressions of a program as steps, in the order in which operands are evaluated.
ghost use Rattle.std.specs.Prelude.{◌≡◌, ◌+◌, ◌≤◌, map, length, IfOk, OnOk, MatchOption, Some, None, [], ◌∷◌, ◌++◌};
ghost use Rattle.tb_ir.specs.AnfPlain.{view_atom, view_block};
ghost use Rattle.tb_ir.specs.TreeMachine.{direct_line, line_or_written};
ghost use Rattle.tb_ir.specs.Plain.{trees, view, view_core};
ghost use Rattle.tb_anf.specs.NormalForm as normal;
ghost use Rattle.tb_anf.specs.NormalForm.{size, size_all, size_form};
ghost use Rattle.tb_anf.specs.calls.Lines.{line_at};
ghost use Rattle.tb_anf.specs.calls.Steps.{Arranges, Binds, BindsAll, BindsNamed, Evaluates, FormEvaluates, StandsInFront, simple_of};

use super::lines::{Walk, direct_numbers, line, operand_numbers};
use super::steps::{Evaluation, Operand, Operands, Step, arranged, levels_below, wrapped};
use sqlite_items::Boxed;
use std::alloc::Global;
use tb_core::{Site, VarId};
use tb_ir::{Atom, Block, CellCore, CellExpr, Op};
use tb_prim::{Const, NoMemory, Place, Row};

/// The first number of a variable that is bound to the value of a node.
const FIRST_VALUE: u32 = 0x8000_0000;

/// The groups of a block nest no deeper than the nodes of its expression.
const MAX_GROUPS: u32 = 1001;

/// The next number, or want of memory where there is none.
fn next(number: u32) -> Result<u32, NoMemory>
    ensures { IfOk result (λ n. n ≡ number + 1) }
{
    number.checked_add(1).ok_or(NoMemory)
}

/// The variable that is bound to the value of a node, or want of memory where there is none.
fn value_name(number: u32) -> Result<VarId, NoMemory>
    ensures { IfOk result (λ x. x ≡ normal.value_name number) }
{
    FIRST_VALUE.checked_add(number).ok_or(NoMemory)
}

/// The atom of an operand that is simple.
#[tactic(auto, using(crate::proofs::code::Views::viewing))]
fn simple_atom(core: &CellCore) -> Option<Atom>
    ensures { MatchOption result (simple_of (view_core core.now) ≡ None) (λ a. simple_of (view_core core.now) ≡ Some (view_atom a)) }
{
    match core {
        CellCore::Quote(constant) => Some(Atom::Quote(*constant)),
        CellCore::Local(variable) => Some(Atom::Var(*variable)),
        CellCore::Global(_) | CellCore::Lambda(_) | CellCore::If(_, _, _) => None,
        CellCore::NewCell(_) | CellCore::CellGet(_) | CellCore::CellSet(_, _) => None,
        CellCore::SetGlobal(_, _) | CellCore::DefGlobal(_, _) | CellCore::Let(_, _, _) => None,
        CellCore::Letrec(_, _, _) | CellCore::Seq(_) | CellCore::Call(_, _) => None,
        CellCore::Direct(_, _) | CellCore::Prim(_, _) | CellCore::Apply(_, _) => None,
    }
}

/// An operation without steps before it.
fn alone(alloc: Global, last: Op) -> Evaluation
    ensures steps { result.steps.items ≡ [] }
    ensures last { result.last ≡ last }
{
    Evaluation {
        steps: Vec::new(alloc),
        last,
    }
}

/// A copy of these numbers.
fn copy(alloc: Global, numbers: &[u32]) -> Result<Row<u32>, NoMemory>
    ensures { IfOk result (λ row. row ≡ numbers.now) }
{
    Ok(Row::from_vec(Vec::from_slice(alloc, numbers)?))
}

/// The steps of the operands of a node in its order.
fn ordered(walk: Walk, site: Site, groups: Vec<Row<Step>>) -> Result<Vec<Step>, NoMemory>
    ensures { IfOk result (λ out. Arranges groups.items (line_or_written (line_at walk.entry site) (length groups.items)) out.items) }
{
    let order = operand_numbers(walk.alloc, line(walk, site)?, groups.len())?;
    arranged(walk.alloc, groups, order.as_slice())
}

/// The same of a direct call.
fn ordered_directly(walk: Walk, site: Site, groups: Vec<Row<Step>>) -> Result<Vec<Step>, NoMemory>
    ensures { IfOk result (λ out. Arranges groups.items (direct_line (line_at walk.entry site) (length groups.items)) out.items) }
{
    let order = direct_numbers(walk.alloc, line(walk, site)?, groups.len())?;
    arranged(walk.alloc, groups, order.as_slice())
}

/// The steps of an operator before those of the operands.
fn with_operator(operator: Vec<Step>, operands: Vec<Row<Step>>) -> Result<Vec<Row<Step>>, NoMemory>
    ensures { IfOk result (λ groups. groups.items ≡ operator.items ∷ operands.items) }
{
    let mut groups = operands;
    groups.insert(0, Row::from_vec(operator))?;
    Ok(groups)
}

/// Steps with those of a part behind them.
fn followed(steps: Vec<Step>, part: Vec<Step>) -> Result<Vec<Step>, NoMemory>
    ensures { IfOk result (λ out. out.items ≡ steps.items ++ Step.Group part.items ∷ []) }
{
    let mut steps = steps;
    steps.push(Step::Group(Row::from_vec(part)))?;
    Ok(steps)
}

/// An operand, whose node has this number: it is bound where it is not simple. Sets the number to the next one.
#[cycle(pass)]
fn operand(walk: Walk, levels: u32, number: &mut u32, expr: &CellExpr) -> Result<Operand, NoMemory>
    requires { levels ≤ 1000 }
    ensures number { OnOk result (number.new ≡ number.old + size (view expr.now)) }
    ensures binds { IfOk result (λ o. Binds (line_at walk.entry) number.old (view expr.now) o) }
{
    let own = *number;
    if let Some(atom) = simple_atom(&expr.core) {
        *number = next(own)?;
        return Ok(Operand {
            steps: Vec::new(walk.alloc),
            atom,
        });
    }
    let Evaluation { mut steps, last } = evaluation(walk, levels, number, expr)?;
    let variable = value_name(own)?;
    steps.push(Step::Bind(variable, last))?;
    Ok(Operand {
        steps,
        atom: Atom::Var(variable),
    })
}

/// The same of these operands, one after another.
#[cycle(pass)]
fn operands(
    walk: Walk,
    levels: u32,
    number: &mut u32,
    exprs: &[CellExpr],
) -> Result<Operands, NoMemory>
    requires { levels ≤ 1000 }
    ensures number { OnOk result (number.new ≡ number.old + size_all (trees (map view exprs.now))) }
    ensures binds { IfOk result (λ o. BindsAll (line_at walk.entry) number.old (trees (map view exprs.now)) o) }
{
    let mut groups = Vec::new(walk.alloc);
    let mut atoms = Vec::new(walk.alloc);
    for expr in exprs {
        let Operand { steps, atom } = operand(walk, levels, number, expr)?;
        groups.push(Row::from_vec(steps))?;
        atoms.push(atom)?;
    }
    Ok(Operands { groups, atoms })
}

/// The steps of the values of a `let`, each of which is bound to its variable, simple or not.
#[cycle(pass)]
fn named_operands(
    walk: Walk,
    levels: u32,
    number: &mut u32,
    variables: &[VarId],
    values: &[CellExpr],
) -> Result<Vec<Row<Step>>, NoMemory>
    requires levels { levels ≤ 1000 }
    requires long { length variables.now ≡ length values.now }
    ensures number { OnOk result (number.new ≡ number.old + size_all (trees (map view values.now))) }
    ensures binds { IfOk result (λ groups. BindsNamed (line_at walk.entry) number.old variables.now (trees (map view values.now)) groups.items) }
{
    let mut groups = Vec::new(walk.alloc);
    for (index, value) in values.iter().enumerate() {
        let Evaluation { mut steps, last } = evaluation(walk, levels, number, value)?;
        steps.push(Step::Bind(variables[index], last))?;
        groups.push(Row::from_vec(steps))?;
    }
    Ok(groups)
}

/// The steps of the expressions of a sequence but for the last one, whose values are bound.
#[cycle(pass)]
fn front(
    walk: Walk,
    levels: u32,
    number: &mut u32,
    exprs: &[CellExpr],
) -> Result<Vec<Step>, NoMemory>
    requires { levels ≤ 1000 }
    ensures number { OnOk result (number.new ≡ number.old + size_all (trees (map view exprs.now))) }
    ensures binds { IfOk result (λ steps. StandsInFront (line_at walk.entry) number.old (trees (map view exprs.now)) steps.items) }
{
    let mut out = Vec::new(walk.alloc);
    for expr in exprs {
        let own = *number;
        let Evaluation { steps, last } = evaluation(walk, levels, number, expr)?;
        out.push(Step::Group(Row::from_vec(steps)))?;
        out.push(Step::Bind(value_name(own)?, last))?;
    }
    Ok(out)
}

/// The block of an expression in tail position.
#[cycle(pass)]
pub(crate) fn block(
    walk: Walk,
    levels: u32,
    number: &mut u32,
    expr: &CellExpr,
) -> Result<Block, NoMemory>
    requires { levels ≤ 1000 }
    ensures number { OnOk result (number.new ≡ number.old + size (view expr.now)) }
    ensures block { IfOk result (λ b. view_block b ≡ normal.block_of (line_at walk.entry) number.old (view expr.now) normal.AtEnd) }
{
    let Evaluation { steps, last } = evaluation(walk, levels, number, expr)?;
    wrapped(walk.alloc, MAX_GROUPS, steps, Block::Tail(last))
}

/// The steps and the last operation of an expression, whose node has this number. Sets the number to the next one.
/// Goes no deeper than `levels` nodes, and answers want of memory at a node below.
#[cycle(pass)]
fn evaluation(
    walk: Walk,
    levels: u32,
    number: &mut u32,
    expr: &CellExpr,
) -> Result<Evaluation, NoMemory>
    requires { levels ≤ 1000 }
    ensures number { OnOk result (number.new ≡ number.old + size (view expr.now)) }
    ensures evaluates { IfOk result (λ r. Evaluates (line_at walk.entry) number.old (view expr.now) r) }
{
    let levels = levels_below(levels)?;
    *number = next(*number)?;
    evaluation_of(walk, levels, number, expr.place, expr.site, &expr.core)
}

/// The same of a node, where the number is that of the node behind it.
#[cycle(pass)]
fn evaluation_of(
    walk: Walk,
    levels: u32,
    number: &mut u32,
    place: Place,
    site: Site,
    core: &CellCore,
) -> Result<Evaluation, NoMemory>
    requires { levels ≤ 1000 }
    ensures number { OnOk result (number.new ≡ number.old + size_form (view_core core.now)) }
    ensures evaluates { IfOk result (λ r. FormEvaluates (line_at walk.entry) number.old place site (view_core core.now) r) }
{
    let alloc = walk.alloc;
    match core {
        CellCore::Quote(constant) => Ok(alone(alloc, Op::Atom(Atom::Quote(*constant)))),
        CellCore::Local(variable) => Ok(alone(alloc, Op::Atom(Atom::Var(*variable)))),
        CellCore::Global(global) => Ok(alone(alloc, Op::Global(*global, place))),
        CellCore::Lambda(lambda) => Ok(alone(alloc, Op::Close(*lambda))),
        CellCore::If(test, then, other) => {
            let Operand { steps, atom } = operand(walk, levels, number, test.get())?;
            let then = Boxed::new(alloc, block(walk, levels, number, then.get())?)?;
            let other = Boxed::new(alloc, block(walk, levels, number, other.get())?)?;
            Ok(Evaluation {
                steps,
                last: Op::Branch(atom, then, other),
            })
        }
        CellCore::NewCell(value) => {
            let Operand { steps, atom } = operand(walk, levels, number, value.get())?;
            Ok(Evaluation {
                steps,
                last: Op::NewCell(atom),
            })
        }
        CellCore::CellGet(cell) => {
            let Operand { steps, atom } = operand(walk, levels, number, cell.get())?;
            Ok(Evaluation {
                steps,
                last: Op::CellGet(atom, place),
            })
        }
        CellCore::CellSet(cell, value) => {
            let cell = operand(walk, levels, number, cell.get())?;
            let value = operand(walk, levels, number, value.get())?;
            let steps = followed(cell.steps, value.steps)?;
            Ok(Evaluation {
                steps,
                last: Op::CellSet(cell.atom, value.atom),
            })
        }
        CellCore::SetGlobal(global, value) => {
            let Operand { steps, atom } = operand(walk, levels, number, value.get())?;
            Ok(Evaluation {
                steps,
                last: Op::SetGlobal(*global, atom, place),
            })
        }
        CellCore::DefGlobal(global, value) => {
            let Operand { steps, atom } = operand(walk, levels, number, value.get())?;
            Ok(Evaluation {
                steps,
                last: Op::DefGlobal(*global, atom),
            })
        }
        CellCore::Let(variables, values, body) => {
            let variables = variables.as_slice();
            let values = values.as_slice();
            if variables.len() != values.len() {
                return Err(NoMemory);
            }
            let groups = named_operands(walk, levels, number, variables, values)?;
            let Evaluation { steps, last } = evaluation(walk, levels, number, body.get())?;
            Ok(Evaluation {
                steps: followed(ordered(walk, site, groups)?, steps)?,
                last,
            })
        }
        CellCore::Letrec(variables, lambdas, body) => {
            let variables = copy(alloc, variables.as_slice())?;
            let lambdas = copy(alloc, lambdas.as_slice())?;
            let Evaluation { steps, last } = evaluation(walk, levels, number, body.get())?;
            let first = vec![in alloc; Step::CloseAll(variables, lambdas)]?;
            Ok(Evaluation {
                steps: followed(first, steps)?,
                last,
            })
        }
        CellCore::Seq(exprs) => {
            let Some((end, before)) = exprs.as_slice().split_last() else {
                return Ok(alone(alloc, Op::Atom(Atom::Quote(Const::Unspecified))));
            };
            let first = front(walk, levels, number, before)?;
            let Evaluation { steps, last } = evaluation(walk, levels, number, end)?;
            Ok(Evaluation {
                steps: followed(first, steps)?,
                last,
            })
        }
        CellCore::Call(operator, exprs) => {
            let Operand { steps, atom } = operand(walk, levels, number, operator.get())?;
            let Operands { groups, atoms } = operands(walk, levels, number, exprs.as_slice())?;
            let steps = ordered(walk, site, with_operator(steps, groups)?)?;
            Ok(Evaluation {
                steps,
                last: Op::Call(atom, Row::from_vec(atoms), place),
            })
        }
        CellCore::Direct(lambda, exprs) => {
            let Operands { groups, atoms } = operands(walk, levels, number, exprs.as_slice())?;
            let steps = ordered_directly(walk, site, groups)?;
            Ok(Evaluation {
                steps,
                last: Op::Direct(*lambda, Row::from_vec(atoms)),
            })
        }
        CellCore::Prim(prim, exprs) => {
            let Operands { groups, atoms } = operands(walk, levels, number, exprs.as_slice())?;
            let steps = ordered(walk, site, groups)?;
            Ok(Evaluation {
                steps,
                last: Op::Prim(*prim, Row::from_vec(atoms), place),
            })
        }
        CellCore::Apply(procedure, list) => {
            let procedure = operand(walk, levels, number, procedure.get())?;
            let list = operand(walk, levels, number, list.get())?;
            let groups = vec![in alloc; Row::from_vec(list.steps)]?;
            let steps = ordered(walk, site, with_operator(procedure.steps, groups)?)?;
            Ok(Evaluation {
                steps,
                last: Op::Apply(procedure.atom, list.atom, place),
            })
        }
    }
}
