//! What the code of a body stands on.
ghost use Rattle.std.specs.Prelude.{◌≡◌, IfOk, nat_eq};
ghost use Rattle.indexmap.specs.IndexMap.{get};
ghost use Rattle.tb_generate.specs.calls.Bits.{with_slots};
ghost use Rattle.tb_generate.specs.calls.Bodies.{captured_at, home_at, or_else};

use indexmap::IndexMap;
use std::alloc::Global;
use tb_core::{LambdaId, VarId};
use tb_ir::AnfProc;
use tb_prim::{NoMemory, Static};

/// What the code of a body stands on: the procs with the index of each lambda's, the static objects, the slots of its
/// variables that are no cells, the variable that each cell is made from, and how many slots its frame has.
#[derive(Clone, Copy)]
pub(crate) struct Body<'a> {
    pub alloc: Global,
    pub procs: &'a [AnfProc],
    pub lambdas: &'a IndexMap<LambdaId, usize>,
    pub statics: &'a [Static],
    pub slots: &'a IndexMap<VarId, u32>,
    pub origins: &'a IndexMap<VarId, VarId>,
    pub size: u32,
}

/// The variable that one stands for: that of which it is made, if it is a cell.
fn origin(body: Body, variable: VarId) -> VarId
    ensures { result ≡ or_else (get nat_eq body.entry.origins.now variable) variable }
{
    body.origins.get(&variable).copied().unwrap_or(variable)
}

/// The slot of a variable.
pub(crate) fn home(body: Body, variable: VarId) -> u32
    ensures { result ≡ home_at body.entry variable }
{
    body.slots
        .get(&origin(body, variable))
        .copied()
        .unwrap_or(body.size)
}

/// The variables that a lambda captures.
pub(crate) fn captured<'a>(body: Body<'a>, lambda: LambdaId) -> &'a [VarId]
    ensures { result.now ≡ captured_at body.entry lambda }
{
    match body.lambdas.get(&lambda).copied() {
        None => &[],
        Some(index) => match body.procs.get(index) {
            None => &[],
            Some(proc) => proc.captured.as_slice(),
        },
    }
}

/// Marks the slots of these variables.
pub(crate) fn mark(body: Body, slots: &mut Vec<bool>, variables: &[VarId])
    ensures { slots.new.items ≡ with_slots (home_at body.entry) variables.now 0 slots.old.items }
{
    for variable in variables {
        let slot = home(body, *variable) as usize;
        if slot < slots.len() {
            slots[slot] = true;
        }
    }
}

/// These slots, and those of these variables.
pub(crate) fn with_slots(
    body: Body,
    slots: &[bool],
    variables: &[VarId],
) -> Result<Vec<bool>, NoMemory>
    ensures { IfOk result (λ all. all.items ≡ with_slots (home_at body.entry) variables.now 0 slots.now) }
{
    let mut all = Vec::from_slice(body.alloc, slots)?;
    mark(body, &mut all, variables);
    Ok(all)
}
