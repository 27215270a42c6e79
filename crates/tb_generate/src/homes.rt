//! The slots of a proc's frame.
ghost use Rattle.std.specs.Prelude.{◌≡◌, ◌==◌, ◌++◌, ◌∷◌, [], Some, None, cond, ℕ, length, nat_eq, IfOk, OnOk};
ghost use Rattle.indexmap.specs.IndexMap.{get};
ghost use Rattle.tb_ir.specs.AnfPlain.{view_block, view_op, view_proc};
ghost use Rattle.tb_ir.specs.AnfRules.{blocks, blocks_in, of_each, plain_binders};
ghost use Rattle.tb_codegen.specs.Homes.{frame_size, index_of, made_from, origin, own_variables};
ghost use Rattle.tb_generate.specs.calls.Bodies.{or_else};
ghost use Rattle.tb_generate.specs.calls.Homes.{origin_found, or_found, own_binder};

use super::bits::number_32;
use super::free::{MAX_DEPTH, levels_below};
use indexmap::IndexMap;
use std::alloc::Global;
use tb_core::VarId;
use tb_ir::{AnfProc, Atom, Block, Op};
use tb_prim::NoMemory;

/// The slots of variables, the variables that cells are made from, and how many slots there are.
#[derive(Drop)]
pub(crate) struct FrameSlots {
    pub slots: IndexMap<VarId, u32>,
    pub origins: IndexMap<VarId, VarId>,
    pub size: u32,
}

/// Puts the variables that the blocks of an operation bind to something other than a new cell.
#[cycle(binders)]
#[tactic(auto, using(crate::proofs::Homing::homing))]
fn put_binders_in(levels: u32, out: &mut Vec<VarId>, op: &Op) -> Result<(), NoMemory>
    ensures { OnOk result (out.new.items ≡ out.old.items ++ of_each plain_binders (blocks_in (view_op op.now))) }
{
    match op {
        Op::Branch(_, then, other) => {
            put_binders(levels, out, then.get())?;
            put_binders(levels, out, other.get())
        }
        Op::Atom(_) | Op::Global(_, _) | Op::SetGlobal(_, _, _) | Op::DefGlobal(_, _) => Ok(()),
        Op::Prim(_, _, _) | Op::NewCell(_) | Op::CellGet(_, _) | Op::CellSet(_, _) => Ok(()),
        Op::Close(_) | Op::Call(_, _, _) | Op::Direct(_, _) | Op::Apply(_, _, _) => Ok(()),
    }
}

/// The same of a block and those in it.
#[cycle(binders)]
#[tactic(auto, using(crate::proofs::Homing::homing))]
fn put_binders(levels: u32, out: &mut Vec<VarId>, block: &Block) -> Result<(), NoMemory>
    ensures { OnOk result (out.new.items ≡ out.old.items ++ of_each plain_binders (blocks (view_block block.now))) }
{
    let levels = levels_below(levels)?;
    match block {
        Block::Bind(variable, op, rest) => {
            put_binder(out, *variable, op)?;
            put_binders_in(levels, out, op)?;
            put_binders(levels, out, rest.get())
        }
        Block::CloseAll(variables, _, rest) => {
            out.extend_from_slice(variables.as_slice())?;
            put_binders(levels, out, rest.get())
        }
        Block::Tail(op) => put_binders_in(levels, out, op),
    }
}

/// Puts a variable that is bound to something other than a new cell.
#[tactic(auto, using(crate::proofs::Views::viewing))]
fn put_binder(out: &mut Vec<VarId>, variable: VarId, op: &Op) -> Result<(), NoMemory>
    ensures { OnOk result (out.new.items ≡ out.old.items ++ own_binder variable (view_op op.now)) }
{
    match op {
        Op::NewCell(_) => Ok(()),
        Op::Atom(_) | Op::Global(_, _) | Op::SetGlobal(_, _, _) | Op::DefGlobal(_, _) =>
            put_variable(out, variable),
        Op::Prim(_, _, _) | Op::CellGet(_, _) | Op::CellSet(_, _) | Op::Close(_) => put_variable(
            out, variable,
        ),
        Op::Call(_, _, _) | Op::Direct(_, _) | Op::Apply(_, _, _) | Op::Branch(_, _, _) =>
            put_variable(out, variable),
    }
}

/// Puts a variable.
fn put_variable(out: &mut Vec<VarId>, variable: VarId) -> Result<(), NoMemory>
    ensures { OnOk result (out.new.items ≡ out.old.items ++ variable ∷ []) }
{
    out.push(variable)?;
    Ok(())
}

/// The variable of which an operation makes a cell, where it is bound to this one.
#[tactic(auto, using(crate::proofs::Views::viewing))]
fn made_from(variable: VarId, op: &Op) -> VarId
    ensures { result ≡ made_from variable (view_op op.now) }
{
    match op {
        Op::NewCell(Atom::Var(origin)) => *origin,
        Op::NewCell(Atom::Quote(_)) => variable,
        Op::Atom(_) | Op::Global(_, _) | Op::SetGlobal(_, _, _) | Op::DefGlobal(_, _) => variable,
        Op::Prim(_, _, _) | Op::CellGet(_, _) | Op::CellSet(_, _) | Op::Close(_) => variable,
        Op::Call(_, _, _) | Op::Direct(_, _) | Op::Apply(_, _, _) | Op::Branch(_, _, _) => variable,
    }
}

/// Notes the variable that another is made from, where none is noted.
fn note_origin(
    origins: &mut IndexMap<VarId, VarId>,
    variable: VarId,
    origin: VarId,
) -> Result<(), NoMemory>
    ensures { OnOk result ((x : ℕ) → get nat_eq origins.new x ≡ or_found (get nat_eq origins.old x) (cond (variable == x) (Some origin) None)) }
{
    if !origins.contains_key(&variable) {
        origins.insert(variable, origin)?;
    }
    Ok(())
}

/// Notes the origins of what the blocks of an operation bind.
#[cycle(origins)]
#[tactic(auto, using(crate::proofs::Views::viewing))]
fn note_origins_in(
    levels: u32,
    origins: &mut IndexMap<VarId, VarId>,
    op: &Op,
) -> Result<(), NoMemory>
    ensures { OnOk result ((x : ℕ) → get nat_eq origins.new x ≡ or_found (get nat_eq origins.old x) (origin_found (blocks_in (view_op op.now)) x)) }
{
    match op {
        Op::Branch(_, then, other) => {
            note_origins(levels, origins, then.get())?;
            note_origins(levels, origins, other.get())
        }
        Op::Atom(_) | Op::Global(_, _) | Op::SetGlobal(_, _, _) | Op::DefGlobal(_, _) => Ok(()),
        Op::Prim(_, _, _) | Op::NewCell(_) | Op::CellGet(_, _) | Op::CellSet(_, _) => Ok(()),
        Op::Close(_) | Op::Call(_, _, _) | Op::Direct(_, _) | Op::Apply(_, _, _) => Ok(()),
    }
}

/// The same of a block and those in it.
#[cycle(origins)]
#[tactic(auto, using(crate::proofs::Views::viewing))]
fn note_origins(
    levels: u32,
    origins: &mut IndexMap<VarId, VarId>,
    block: &Block,
) -> Result<(), NoMemory>
    ensures { OnOk result ((x : ℕ) → get nat_eq origins.new x ≡ or_found (get nat_eq origins.old x) (origin_found (blocks (view_block block.now)) x)) }
{
    let levels = levels_below(levels)?;
    match block {
        Block::Bind(variable, op, rest) => {
            note_origin(origins, *variable, made_from(*variable, op))?;
            note_origins_in(levels, origins, op)?;
            note_origins(levels, origins, rest.get())
        }
        Block::CloseAll(_, _, rest) => note_origins(levels, origins, rest.get()),
        Block::Tail(op) => note_origins_in(levels, origins, op),
    }
}

/// The variables of a proc that are no cells, in the order of their slots.
fn own_variables(alloc: Global, proc: &AnfProc) -> Result<Vec<VarId>, NoMemory>
    ensures { IfOk result (λ own. own.items ≡ own_variables (view_proc proc.now)) }
{
    let mut own = Vec::from_slice(alloc, proc.params.as_slice())?;
    own.extend_from_slice(proc.captured.as_slice())?;
    put_binders(MAX_DEPTH, &mut own, &proc.body)?;
    Ok(own)
}

/// Where each variable first stands in a list.
fn first_places(alloc: Global, variables: &[VarId]) -> Result<IndexMap<VarId, u32>, NoMemory>
    ensures { IfOk result (λ places. (x : ℕ) → or_else (get nat_eq places x) (length variables.now) ≡ index_of variables.now x) }
{
    let mut places = IndexMap::new(alloc);
    for at in (0..variables.len()).rev() {
        places.insert(variables[at], number_32(at)?)?;
    }
    Ok(places)
}

/// The variables that the cells of a block are made from.
fn origins(alloc: Global, block: &Block) -> Result<IndexMap<VarId, VarId>, NoMemory>
    ensures { IfOk result (λ origins. (x : ℕ) → or_else (get nat_eq origins x) x ≡ origin (blocks (view_block block.now)) x) }
{
    let mut origins = IndexMap::new(alloc);
    note_origins(MAX_DEPTH, &mut origins, block)?;
    Ok(origins)
}

/// The slots of a proc's frame.
pub(crate) fn homes(alloc: Global, proc: &AnfProc) -> Result<FrameSlots, NoMemory>
    ensures slots { IfOk result (λ h. (x : ℕ) → or_else (get nat_eq h.slots x) h.size ≡ index_of (own_variables (view_proc proc.now)) x) }
    ensures origins { IfOk result (λ h. (x : ℕ) → or_else (get nat_eq h.origins x) x ≡ origin (blocks (view_block proc.now.body)) x) }
    ensures size { IfOk result (λ h. h.size ≡ frame_size (view_proc proc.now)) }
{
    let own = own_variables(alloc, proc)?;
    Ok(FrameSlots {
        slots: first_places(alloc, own.as_slice())?,
        origins: origins(alloc, &proc.body)?,
        size: number_32(own.len())?,
    })
}
