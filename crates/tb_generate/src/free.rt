//! The variables that blocks name and do not bind.
ghost use Rattle.std.specs.Prelude.{◌≡◌, ◌+◌, ℕ, nat_eq, map, not, ◌||◌, ◌&&◌, IfOk, OnOk};
ghost use Rattle.indexmap.specs.IndexSet.{contains};
ghost use Rattle.tb_core.specs.FreeVariables.{is_in, of_lambdas};
ghost use Rattle.tb_ir.specs.AnfMachine.{free_block, free_of_atom, free_of_atoms, free_op};
ghost use Rattle.tb_ir.specs.AnfPlain.{view_atom, view_block, view_op};
ghost use Rattle.tb_codegen.specs.Generate.{settled};
ghost use Rattle.tb_generate.specs.calls.Bodies.{body_at, captured_at};
ghost use Rattle.tb_generate.specs.calls.Items.{block_slots, bound_slots};

use super::body::{Body, captured, with_slots};
use indexmap::IndexSet;
use tb_core::{LambdaId, VarId};
use tb_ir::{Atom, Block, Op};
use tb_prim::NoMemory;

/// The levels below a level, or want of memory where none is left: there is no room on the stack for a deeper block.
pub(crate) fn levels_below(levels: u32) -> Result<u32, NoMemory>
    ensures { IfOk result (λ below. below + 1 ≡ levels) }
{
    levels.checked_sub(1).ok_or(NoMemory)
}

/// Adds these variables.
fn add(set: &mut IndexSet<VarId>, variables: &[VarId]) -> Result<(), NoMemory>
    ensures { OnOk result ((x : ℕ) → contains nat_eq set.new x ≡ (is_in variables.now x || contains nat_eq set.old x)) }
{
    for variable in variables {
        set.insert(*variable)?;
    }
    Ok(())
}

/// Takes these variables away.
fn remove(set: &mut IndexSet<VarId>, variables: &[VarId])
    ensures { (x : ℕ) → contains nat_eq set.new x ≡ (not (is_in variables.now x) && contains nat_eq set.old x) }
{
    for variable in variables {
        set.swap_remove(variable);
    }
}

/// Adds the variable of an atom.
fn add_atom(set: &mut IndexSet<VarId>, atom: &Atom) -> Result<(), NoMemory>
    ensures { OnOk result ((x : ℕ) → contains nat_eq set.new x ≡ (is_in (free_of_atom (view_atom atom.now)) x || contains nat_eq set.old x)) }
{
    match atom {
        Atom::Quote(_) => Ok(()),
        Atom::Var(variable) => add(set, &[*variable]),
    }
}

/// Adds the variables of atoms.
fn add_atoms(set: &mut IndexSet<VarId>, atoms: &[Atom]) -> Result<(), NoMemory>
    ensures { OnOk result ((x : ℕ) → contains nat_eq set.new x ≡ (is_in (free_of_atoms (map view_atom atoms.now)) x || contains nat_eq set.old x)) }
{
    for atom in atoms {
        add_atom(set, atom)?;
    }
    Ok(())
}

/// Adds the variables that an operation names and does not bind.
#[cycle(free)]
#[tactic(auto, using(crate::proofs::Views::viewing))]
fn add_free(body: Body, levels: u32, set: &mut IndexSet<VarId>, op: &Op) -> Result<(), NoMemory>
    ensures { OnOk result ((x : ℕ) → contains nat_eq set.new x ≡ (is_in (free_op (captured_at body.entry) (view_op op.now)) x || contains nat_eq set.old x)) }
{
    match op {
        Op::Global(_, _) => Ok(()),
        Op::Atom(atom)
        | Op::SetGlobal(_, atom, _)
        | Op::DefGlobal(_, atom)
        | Op::NewCell(atom)
        | Op::CellGet(atom, _) => add_atom(set, atom),
        Op::CellSet(first, second) | Op::Apply(first, second, _) => {
            add_atom(set, second)?;
            add_atom(set, first)
        }
        Op::Prim(_, atoms, _) | Op::Direct(_, atoms) => add_atoms(set, atoms.as_slice()),
        Op::Close(lambda) => add(set, captured(body, *lambda)),
        Op::Call(procedure, atoms, _) => {
            add_atoms(set, atoms.as_slice())?;
            add_atom(set, procedure)
        }
        Op::Branch(atom, then, other) => {
            add(set, free(body, levels, other.get())?.as_slice())?;
            add(set, free(body, levels, then.get())?.as_slice())?;
            add_atom(set, atom)
        }
    }
}

/// The variables that a block names and does not bind. Goes no deeper than `levels` blocks, and answers want of memory
/// at one below.
#[cycle(free)]
#[tactic(auto, using(crate::proofs::Views::viewing))]
fn free(body: Body, levels: u32, block: &Block) -> Result<IndexSet<VarId>, NoMemory>
    ensures { IfOk result (λ set. (x : ℕ) → contains nat_eq set x ≡ is_in (free_block (captured_at body.entry) (view_block block.now)) x) }
{
    let levels = levels_below(levels)?;
    match block {
        Block::Tail(op) => {
            let mut set = IndexSet::new(body.alloc);
            add_free(body, levels, &mut set, op)?;
            Ok(set)
        }
        Block::Bind(variable, op, rest) => {
            let mut set = free(body, levels, rest.get())?;
            remove(&mut set, &[*variable]);
            add_free(body, levels, &mut set, op)?;
            Ok(set)
        }
        Block::CloseAll(variables, lambdas, rest) => {
            let mut set = free(body, levels, rest.get())?;
            add_captured(body, &mut set, lambdas.as_slice())?;
            remove(&mut set, variables.as_slice());
            Ok(set)
        }
    }
}

/// Adds what the procedures of lambdas capture.
fn add_captured(body: Body, set: &mut IndexSet<VarId>, lambdas: &[LambdaId]) -> Result<(), NoMemory>
    ensures { OnOk result ((x : ℕ) → contains nat_eq set.new x ≡ (is_in (of_lambdas (captured_at body.entry) lambdas.now) x || contains nat_eq set.old x)) }
{
    for lambda in lambdas {
        add(set, captured(body, *lambda))?;
    }
    Ok(())
}

/// The greatest depth of blocks.
pub(crate) const MAX_DEPTH: u32 = 4000;

/// These slots, and those of the variables that a block names and does not bind.
pub(crate) fn block_slots(
    body: Body,
    waiting: &[bool],
    block: &Block,
) -> Result<Vec<bool>, NoMemory>
    ensures { IfOk result (λ slots. slots.items ≡ block_slots (body_at body.entry) waiting.now (view_block block.now)) }
{
    let set = free(body, MAX_DEPTH, block)?;
    with_slots(body, waiting, set.as_slice())
}

/// The same but for a variable that is bound to a value that the block waits for.
pub(crate) fn bound_slots(
    body: Body,
    waiting: &[bool],
    variable: VarId,
    block: &Block,
) -> Result<Vec<bool>, NoMemory>
    ensures { IfOk result (λ slots. slots.items ≡ bound_slots (body_at body.entry) waiting.now variable (view_block block.now)) }
{
    let mut set = free(body, MAX_DEPTH, block)?;
    remove(&mut set, &[variable]);
    with_slots(body, waiting, set.as_slice())
}

/// The variables that a block names and does not bind.
pub(crate) fn block_free(body: Body, block: &Block) -> Result<IndexSet<VarId>, NoMemory>
    ensures { IfOk result (λ set. (x : ℕ) → contains nat_eq set x ≡ is_in (free_block (captured_at body.entry) (view_block block.now)) x) }
{
    free(body, MAX_DEPTH, block)
}

/// The block without the groups of no procedures at its start.
#[tactic(auto, using(crate::proofs::Views::viewing))]
pub(crate) fn settled(levels: u32, block: &Block) -> Result<&Block, NoMemory>
    ensures { IfOk result (λ b. view_block b.now ≡ settled (view_block block.now)) }
{
    let levels = levels_below(levels)?;
    match block {
        Block::CloseAll(variables, _, rest) => {
            if variables.as_slice().is_empty() {
                settled(levels, rest.get())
            } else {
                Ok(block)
            }
        }
        Block::Bind(_, _, _) | Block::Tail(_) => Ok(block),
    }
}
