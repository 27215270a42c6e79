//! What lambda expressions capture.
ghost use Rattle.std.specs.Prelude.{◌≡◌, ℕ, Some, cond, map, nat_eq, IfOk, OnOk};
ghost use Rattle.indexmap.specs.IndexMap.{get};
ghost use Rattle.tb_ir.specs.AnfMachine.{captured_by, is_number, proc_of};
ghost use Rattle.tb_ir.specs.AnfPlain.{view_proc};
ghost use Rattle.tb_live.specs.calls.Captures.{captured_at, captured_by_index};

use indexmap::IndexMap;
use std::alloc::Global;
use tb_core::{LambdaId, VarId};
use tb_ir::AnfProc;
use tb_prim::NoMemory;

/// The procs of a program with the index of each lambda's.
#[derive(Clone, Copy)]
pub(crate) struct Source<'a> {
    pub alloc: Global,
    pub procs: &'a [AnfProc],
    pub lambdas: &'a IndexMap<LambdaId, usize>,
}

/// Where the first proc of each lambda is.
pub(crate) fn lambda_index(
    alloc: Global,
    procs: &[AnfProc],
) -> Result<IndexMap<LambdaId, usize>, NoMemory>
    ensures { IfOk result (λ index. (m : ℕ) → captured_by_index procs.now (get nat_eq index m) ≡ captured_by (proc_of (map view_proc procs.now) m)) }
{
    let mut index = IndexMap::new(alloc);
    for at in (0..procs.len()).rev() {
        note_lambda(&mut index, at, &procs[at])?;
    }
    Ok(index)
}

/// Notes where the proc of a lambda is.
fn note_lambda(
    index: &mut IndexMap<LambdaId, usize>,
    at: usize,
    proc: &AnfProc,
) -> Result<(), NoMemory>
    ensures { OnOk result ((m : ℕ) → get nat_eq index.new m ≡ cond (is_number proc.now.lambda m) (Some at) (get nat_eq index.old m)) }
{
    if let Some(lambda) = proc.lambda {
        index.insert(lambda, at)?;
    }
    Ok(())
}

/// The variables that a lambda captures.
pub(crate) fn captured<'a>(source: Source<'a>, lambda: LambdaId) -> &'a [VarId]
    ensures { result.now ≡ captured_at source.entry lambda }
{
    match source.lambdas.get(&lambda).copied() {
        None => &[],
        Some(index) => match source.procs.get(index) {
            None => &[],
            Some(proc) => proc.captured.as_slice(),
        },
    }
}
