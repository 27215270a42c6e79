//! The steps of an expression that is put into A-normal form, and blocks made of them.
ghost use Rattle.std.specs.Prelude.{◌≡◌, ◌+◌, ◌≤◌, Some, None, map, slice_get, slice_set, IfOk, OnOk};
ghost use Rattle.tb_ir.specs.AnfPlain.{view_block};
ghost use Rattle.tb_anf.specs.calls.Steps.{Arranges, wrap, wrap_of};

use sqlite_items::Boxed;
use std::alloc::Global;
use tb_core::{LambdaIdRow, VarId, VarRow};
use tb_ir::{Atom, Block, Op};
use tb_prim::{NoMemory, Row};

/// What stands before the last operation of an expression: a variable is bound, procedures are made together, or
/// the steps of a part.
#[derive(Debug, Drop)]
pub(crate) enum Step {
    Bind(VarId, Op),
    CloseAll(VarRow, LambdaIdRow),
    Group(Row<Step>),
}

/// The steps of an expression, and its last operation.
#[derive(Debug, Drop)]
pub(crate) struct Evaluation {
    pub steps: Vec<Step>,
    pub last: Op,
}

/// The steps of an operand that is bound, and its atom.
#[derive(Debug, Drop)]
pub(crate) struct Operand {
    pub steps: Vec<Step>,
    pub atom: Atom,
}

/// The steps of each of some operands, and their atoms.
#[derive(Debug, Drop)]
pub(crate) struct Operands {
    pub groups: Vec<Row<Step>>,
    pub atoms: Vec<Atom>,
}

/// The levels below a level, or want of memory where none is left: there is no room on the stack for a deeper tree.
pub(crate) fn levels_below(levels: u32) -> Result<u32, NoMemory>
    ensures { IfOk result (λ below. below + 1 ≡ levels) }
{
    levels.checked_sub(1).ok_or(NoMemory)
}

/// An index as a number, or want of memory where it does not fit.
pub(crate) fn number_of(index: usize) -> Result<u32, NoMemory>
    ensures { IfOk result (λ n. n ≡ index) }
{
    u32::try_from(index).map_err(|_| NoMemory)
}

/// A block with a step before it.
#[cycle(wrapped)]
#[tactic(auto, using(crate::proofs::code::Steps::stepping))]
fn wrapped_in(alloc: Global, levels: u32, step: Step, block: Block) -> Result<Block, NoMemory>
    requires { levels ≤ 1001 }
    ensures { IfOk result (λ b. view_block b ≡ wrap_of step (view_block block)) }
{
    match step {
        Step::Bind(variable, op) => Ok(Block::Bind(variable, op, Boxed::new(alloc, block)?)),
        Step::CloseAll(variables, lambdas) => {
            Ok(Block::CloseAll(variables, lambdas, Boxed::new(alloc, block)?))
        }
        Step::Group(steps) => wrapped(alloc, levels_below(levels)?, steps.into_vec(), block),
    }
}

/// A block with these steps before it, the first of them outermost. Goes no deeper than `levels` groups, and answers
/// want of memory at a group below.
#[cycle(wrapped)]
#[tactic(auto, using(crate::proofs::code::Steps::stepping))]
pub(crate) fn wrapped(
    alloc: Global,
    levels: u32,
    steps: Vec<Step>,
    block: Block,
) -> Result<Block, NoMemory>
    requires { levels ≤ 1001 }
    ensures { IfOk result (λ b. view_block b ≡ wrap steps.items (view_block block)) }
{
    let mut steps = steps;
    let mut block = block;
    while let Some(step) = steps.pop() {
        block = wrapped_in(alloc, levels, step, block)?;
    }
    Ok(block)
}

/// Each of these groups, to be taken once.
fn to_take(alloc: Global, groups: Vec<Row<Step>>) -> Result<Vec<Option<Row<Step>>>, NoMemory>
    ensures { IfOk result (λ out. out.items ≡ map Some groups.items) }
{
    Ok(groups.into_iter().map(Some).collect(alloc)?)
}

/// A group that was not taken before.
fn taken(left: &mut Vec<Option<Row<Step>>>, index: usize) -> Result<Row<Step>, NoMemory>
    ensures found { IfOk result (λ group. slice_get left.old.items index ≡ Some (Some group)) }
    ensures rest { OnOk result (left.new.items ≡ slice_set left.old.items index None) }
{
    if index < left.len() {
        left[index].take().ok_or(NoMemory)
    } else {
        Err(NoMemory)
    }
}

/// The steps of these groups in an order. Want of memory is also the answer where the order names a group twice, or
/// none, which no order of a program does.
#[tactic(auto, using(crate::proofs::code::Steps::stepping))]
pub(crate) fn arranged(
    alloc: Global,
    groups: Vec<Row<Step>>,
    order: &[usize],
) -> Result<Vec<Step>, NoMemory>
    ensures { IfOk result (λ out. Arranges groups.items order.now out.items) }
{
    let mut left = to_take(alloc, groups)?;
    let mut out = Vec::new(alloc);
    for index in order {
        out.push(Step::Group(taken(&mut left, *index)?))?;
    }
    Ok(out)
}
