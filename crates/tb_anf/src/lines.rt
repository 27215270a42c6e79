//! The order of operands as a table by the numbers of their nodes, and what a walk over a program carries along.
ghost use Rattle.std.specs.Prelude.{◌≡◌, ◌+◌, ◌-◌, ◌==◌, ℕ, not, filter, map, nat_eq, IfOk};
ghost use Rattle.indexmap.specs.IndexMap.{get};
ghost use Rattle.tb_core.specs.Order.{view_line};
ghost use Rattle.tb_ir.specs.TreeMachine.{direct_line, line_of, line_or_written, numbers_from};
ghost use Rattle.tb_anf.specs.calls.Lines.{line_at, line_in};

use indexmap::IndexMap;
use std::alloc::Global;
use tb_core::{OrderLine, Site};
use tb_prim::{NoMemory, Row};

/// What a walk over the expressions of a program carries along: the lines of the order, and where the line of each
/// number is among them.
#[derive(Clone, Copy)]
pub(crate) struct Walk<'a> {
    pub alloc: Global,
    pub order: &'a [OrderLine],
    pub index: &'a IndexMap<Site, usize>,
}

/// Where the first line of each number is.
pub(crate) fn line_index(
    alloc: Global,
    order: &[OrderLine],
) -> Result<IndexMap<Site, usize>, NoMemory>
    ensures { IfOk result (λ index. (s : ℕ) → line_in order.now (get nat_eq index s) ≡ line_of (map view_line order.now) s) }
{
    let mut index = IndexMap::new(alloc);
    for at in (0..order.len()).rev() {
        index.insert(order[at].site, at)?;
    }
    Ok(index)
}

/// These numbers of operands.
fn widened(alloc: Global, numbers: &[u16]) -> Result<Row<usize>, NoMemory>
    ensures { IfOk result (λ row. row ≡ numbers.now) }
{
    let mut out = Vec::new(alloc);
    for number in numbers {
        out.push(*number as usize)?;
    }
    Ok(Row::from_vec(out))
}

/// The line of a number, where it has one.
pub(crate) fn line(walk: Walk, site: Site) -> Result<Option<Row<usize>>, NoMemory>
    ensures { IfOk result (λ line. line ≡ line_at walk.entry site) }
{
    let Some(at) = walk.index.get(&site).copied() else {
        return Ok(None);
    };
    match walk.order.get(at) {
        None => Ok(None),
        Some(line) => Ok(Some(widened(walk.alloc, line.order.as_slice())?)),
    }
}

/// So many numbers, from one on.
fn written(alloc: Global, first: usize, count: usize) -> Result<Vec<usize>, NoMemory>
    ensures { IfOk result (λ out. out.items ≡ numbers_from first count) }
{
    let mut out = Vec::new(alloc);
    for index in 0..count {
        out.push(first.checked_add(index).ok_or(NoMemory)?)?;
    }
    Ok(out)
}

/// The numbers of so many operands in the order in which they are evaluated, which is the written one without a line.
pub(crate) fn operand_numbers(
    alloc: Global,
    line: Option<Row<usize>>,
    count: usize,
) -> Result<Row<usize>, NoMemory>
    ensures { IfOk result (λ row. row ≡ line_or_written line count) }
{
    match line {
        Some(numbers) => Ok(numbers),
        None => Ok(Row::from_vec(written(alloc, 0, count)?)),
    }
}

/// The operands of a direct call by the line of the call that it was: without its operator, which is number 0.
fn without_operator(alloc: Global, line: &[usize]) -> Result<Vec<usize>, NoMemory>
    ensures { IfOk result (λ out. out.items ≡ map (λ i. i - 1) (filter (λ i. not (i == 0)) line.now)) }
{
    let mut out = Vec::new(alloc);
    for number in line {
        if *number != 0 {
            out.push(*number - 1)?;
        }
    }
    Ok(out)
}

/// The numbers of the operands of a direct call: those of the call that it was, and then the variables that are added.
pub(crate) fn direct_numbers(
    alloc: Global,
    line: Option<Row<usize>>,
    count: usize,
) -> Result<Row<usize>, NoMemory>
    ensures { IfOk result (λ row. row ≡ direct_line line count) }
{
    let Some(line) = line else {
        return Ok(Row::from_vec(written(alloc, 0, count)?));
    };
    let line = line.as_slice();
    let mut out = without_operator(alloc, line)?;
    let own = line.len().saturating_sub(1);
    let added = written(alloc, own, count.saturating_sub(own))?;
    out.extend_from_slice(added.as_slice())?;
    Ok(Row::from_vec(out))
}
