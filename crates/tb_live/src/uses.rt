//! Sets of variables in the order of their first use.
ghost use Rattle.std.specs.Prelude.{◌≡◌, ℕ, map, nat_eq, IfOk, OnOk};
ghost use Rattle.indexmap.specs.IndexSet.{contains};
ghost use Rattle.tb_core.specs.FreeVariables.{is_in, of_lambdas, without};
ghost use Rattle.tb_ir.specs.AnfMachine.{free_of_atom, free_of_atoms};
ghost use Rattle.tb_ir.specs.AnfPlain.{view_atom};
ghost use Rattle.tb_live.specs.calls.Captures.{captured_at};
ghost use Rattle.tb_live.specs.calls.Sets.{joined};

use super::captures::{Source, captured};
use indexmap::IndexSet;
use std::alloc::Global;
use tb_core::{LambdaId, VarId};
use tb_ir::Atom;
use tb_prim::NoMemory;

/// Adds these variables.
pub(crate) fn add(set: &mut IndexSet<VarId>, variables: &[VarId]) -> Result<(), NoMemory>
    ensures { OnOk result (set.new.keys ≡ joined set.old.keys variables.now) }
{
    for variable in variables {
        set.insert(*variable)?;
    }
    Ok(())
}

/// Adds the variable of an atom.
pub(crate) fn add_atom(set: &mut IndexSet<VarId>, atom: &Atom) -> Result<(), NoMemory>
    ensures { OnOk result (set.new.keys ≡ joined set.old.keys (free_of_atom (view_atom atom.now))) }
{
    match atom {
        Atom::Quote(_) => add(set, &[]),
        Atom::Var(variable) => add(set, &[*variable]),
    }
}

/// Adds the variables of atoms.
pub(crate) fn add_atoms(set: &mut IndexSet<VarId>, atoms: &[Atom]) -> Result<(), NoMemory>
    ensures { OnOk result (set.new.keys ≡ joined set.old.keys (free_of_atoms (map view_atom atoms.now))) }
{
    for atom in atoms {
        add_atom(set, atom)?;
    }
    Ok(())
}

/// Adds what lambda expressions capture.
pub(crate) fn add_captured(
    source: Source,
    set: &mut IndexSet<VarId>,
    lambdas: &[LambdaId],
) -> Result<(), NoMemory>
    ensures { OnOk result (set.new.keys ≡ joined set.old.keys (of_lambdas (captured_at source.entry) lambdas.now)) }
{
    for lambda in lambdas {
        add(set, captured(source, *lambda))?;
    }
    Ok(())
}

/// The set of these variables.
fn set_of(alloc: Global, variables: &[VarId]) -> Result<IndexSet<VarId>, NoMemory>
    ensures { IfOk result (λ set. (x : ℕ) → contains nat_eq set x ≡ is_in variables.now x) }
{
    let mut set = IndexSet::new(alloc);
    add(&mut set, variables)?;
    Ok(set)
}

/// Adds those of these variables that are not bound.
pub(crate) fn add_others(
    alloc: Global,
    set: &mut IndexSet<VarId>,
    bound: &[VarId],
    variables: &[VarId],
) -> Result<(), NoMemory>
    ensures { OnOk result (set.new.keys ≡ joined set.old.keys (without bound.now variables.now)) }
{
    let bound = set_of(alloc, bound)?;
    for variable in variables {
        if !bound.contains(variable) {
            add(set, &[*variable])?;
        }
    }
    Ok(())
}
