//! The rows of the blocks of a body, the last of them first.
ghost use Rattle.std.specs.Prelude.{◌≡◌, ◌+◌, ◌++◌, ◌∷◌, [], IfOk, OnOk};
ghost use Rattle.tb_ir.specs.AnfMachine.{free_op};
ghost use Rattle.tb_ir.specs.AnfPlain.{view_block, view_op};
ghost use Rattle.tb_ir.specs.AnfRules.{blocks, blocks_in};
ghost use Rattle.tb_live.specs.Live.{live_row};
ghost use Rattle.tb_live.specs.calls.Captures.{captured_at};
ghost use Rattle.tb_live.specs.calls.Rows.{back_rows, later_blocks};
ghost use Rattle.tb_live.specs.calls.Sets.{joined};

use super::captures::{Source, captured};
use super::uses::{add, add_atom, add_atoms, add_captured, add_others};
use indexmap::IndexSet;
use std::alloc::Global;
use tb_core::{VarId, VarRow};
use tb_ir::{Block, Op};
use tb_prim::{NoMemory, Row};

/// The levels below a level, or want of memory where none is left: there is no room on the stack for a deeper block.
fn levels_below(levels: u32) -> Result<u32, NoMemory>
    ensures { IfOk result (λ below. below + 1 ≡ levels) }
{
    levels.checked_sub(1).ok_or(NoMemory)
}

/// Puts the variables of a set as a row.
fn put_row(alloc: Global, rows: &mut Vec<VarRow>, set: &IndexSet<VarId>) -> Result<(), NoMemory>
    ensures { OnOk result (rows.new.items ≡ rows.old.items ++ set.now.keys ∷ []) }
{
    let row = Vec::from_slice(alloc, set.as_slice())?;
    rows.push(Row::from_vec(row))?;
    Ok(())
}

/// Adds the variables that an operation names and does not bind, and puts the rows of its blocks, the last of them
/// first.
#[cycle(rows)]
#[tactic(auto, using(crate::proofs::Views::viewing))]
fn add_op(
    source: Source,
    levels: u32,
    rows: &mut Vec<VarRow>,
    set: &mut IndexSet<VarId>,
    op: &Op,
) -> Result<(), NoMemory>
    ensures set { OnOk result (set.new.keys ≡ joined set.old.keys (free_op (captured_at source.entry) (view_op op.now))) }
    ensures rows { OnOk result (rows.new.items ≡ rows.old.items ++ back_rows (captured_at source.entry) (blocks_in (view_op op.now))) }
{
    match op {
        Op::Global(_, _) => add(set, &[]),
        Op::Atom(atom)
        | Op::SetGlobal(_, atom, _)
        | Op::DefGlobal(_, atom)
        | Op::NewCell(atom)
        | Op::CellGet(atom, _) => add_atom(set, atom),
        Op::CellSet(first, second) | Op::Apply(first, second, _) => {
            add_atom(set, first)?;
            add_atom(set, second)
        }
        Op::Prim(_, atoms, _) | Op::Direct(_, atoms) => add_atoms(set, atoms.as_slice()),
        Op::Close(lambda) => add(set, captured(source, *lambda)),
        Op::Call(procedure, atoms, _) => {
            add_atom(set, procedure)?;
            add_atoms(set, atoms.as_slice())
        }
        Op::Branch(atom, then, other) => {
            let in_other = put_rows(source, levels, rows, other.get())?;
            let in_then = put_rows(source, levels, rows, then.get())?;
            add_atom(set, atom)?;
            add(set, in_then.as_slice())?;
            add(set, in_other.as_slice())
        }
    }
}

/// The variables that are free from a block on. Puts the rows of the blocks after it, the last of them first.
#[cycle(rows)]
#[tactic(auto, using(crate::proofs::Views::viewing))]
fn put_later(
    source: Source,
    levels: u32,
    rows: &mut Vec<VarRow>,
    block: &Block,
) -> Result<IndexSet<VarId>, NoMemory>
    ensures set { IfOk result (λ set. set.keys ≡ live_row (captured_at source.entry) (view_block block.now)) }
    ensures rows { OnOk result (rows.new.items ≡ rows.old.items ++ back_rows (captured_at source.entry) (later_blocks (view_block block.now))) }
{
    let mut set = IndexSet::new(source.alloc);
    match block {
        Block::Tail(op) => {
            add_op(source, levels, rows, &mut set, op)?;
            Ok(set)
        }
        Block::Bind(variable, op, rest) => {
            let later = put_rows(source, levels, rows, rest.get())?;
            add_op(source, levels, rows, &mut set, op)?;
            add_others(source.alloc, &mut set, &[*variable], later.as_slice())?;
            Ok(set)
        }
        Block::CloseAll(variables, lambdas, rest) => {
            let later = put_rows(source, levels, rows, rest.get())?;
            let mut inside = IndexSet::new(source.alloc);
            add_captured(source, &mut inside, lambdas.as_slice())?;
            add(&mut inside, later.as_slice())?;
            add_others(
                source.alloc,
                &mut set,
                variables.as_slice(),
                inside.as_slice(),
            )?;
            Ok(set)
        }
    }
}

/// The variables that are free from a block on. Puts the rows of its blocks, the last of them first. Goes no deeper
/// than `levels` blocks, and answers want of memory at one below.
#[cycle(rows)]
fn put_rows(
    source: Source,
    levels: u32,
    rows: &mut Vec<VarRow>,
    block: &Block,
) -> Result<IndexSet<VarId>, NoMemory>
    ensures set { IfOk result (λ set. set.keys ≡ live_row (captured_at source.entry) (view_block block.now)) }
    ensures rows { OnOk result (rows.new.items ≡ rows.old.items ++ back_rows (captured_at source.entry) (blocks (view_block block.now))) }
{
    let levels = levels_below(levels)?;
    let set = put_later(source, levels, rows, block)?;
    put_row(source.alloc, rows, &set)?;
    Ok(set)
}

/// The greatest depth of blocks, of those after one another and of those in branches.
const MAX_DEPTH: u32 = 4000;

/// Puts the rows of all blocks of a body, the last of them first.
pub(crate) fn put_body(
    source: Source,
    rows: &mut Vec<VarRow>,
    block: &Block,
) -> Result<(), NoMemory>
    ensures { OnOk result (rows.new.items ≡ rows.old.items ++ back_rows (captured_at source.entry) (blocks (view_block block.now))) }
{
    put_rows(source, MAX_DEPTH, rows, block)?;
    Ok(())
}
