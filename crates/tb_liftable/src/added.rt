//! The variables that are added to lambda expressions.
ghost use Rattle.std.specs.Prelude.{◌≡◌, ◌≤◌, ◌++◌, ℕ, length, nat_eq, slice_get, IfOk, OnOk};
ghost use Rattle.indexmap.specs.IndexMap.{get};
ghost use Rattle.tb_liftable.specs.Added as spec;
ghost use Rattle.tb_liftable.specs.Added.{added_to, ascending, called, is_name, member, named, plain};
ghost use Rattle.tb_liftable.specs.Procedures.{Within, or_else};
ghost use Rattle.tb_liftable.specs.calls.Given.{given};
ghost use Rattle.tb_liftable.specs.calls.Place.{place};
ghost use Rattle.tb_liftable.specs.calls.Reached.{Reached, inserted};

use super::procedures::Source;
use indexmap::{IndexMap, IndexSet};
use std::alloc::Global;
use tb_core::{LambdaId, VarId, VarRow};
use tb_prim::{NoMemory, Row};

/// The lambda expressions of a set by the variables that are bound to them.
pub(crate) fn members(
    source: Source,
    set: &[LambdaId],
) -> Result<IndexMap<VarId, LambdaId>, NoMemory>
    ensures { IfOk result (λ members. (x : ℕ) → get nat_eq members x ≡ member (given source.entry) set.now x) }
{
    let mut members = IndexMap::new(source.alloc);
    for lambda in set {
        note_member(source, &mut members, *lambda)?;
    }
    Ok(members)
}

/// Notes the variable of a lambda expression.
#[tactic(auto, unfolding(crate::specs::calls::Given::given))]
fn note_member(
    source: Source,
    members: &mut IndexMap<VarId, LambdaId>,
    lambda: LambdaId,
) -> Result<(), NoMemory>
    ensures { OnOk result ((x : ℕ) → get nat_eq members.new x ≡ or_else (named (given source.entry) lambda x) (get nat_eq members.old x)) }
{
    if let Some(variable) = source.names.get(&lambda).copied() {
        members.insert(variable, lambda)?;
    }
    Ok(())
}

/// The free variables of a lambda expression.
#[tactic(auto, unfolding(crate::specs::calls::Given::given))]
fn free<'a>(source: Source<'a>, lambda: LambdaId) -> &'a [VarId]
    ensures { result.now ≡ (given source.entry).free lambda }
{
    match source.rows.get(lambda as usize) {
        None => &[],
        Some(row) => row.as_slice(),
    }
}

/// Adds the lambda expressions that these variables name.
fn add_called(
    members: &IndexMap<VarId, LambdaId>,
    reached: &mut IndexSet<LambdaId>,
    variables: &[VarId],
) -> Result<(), NoMemory>
    ensures { OnOk result (reached.new.keys ≡ inserted reached.old.keys (called (get nat_eq members.now) variables.now)) }
{
    for variable in variables {
        if let Some(lambda) = members.get(variable).copied() {
            reached.insert(lambda)?;
        }
    }
    Ok(())
}

/// The lambda expressions that a lambda expression comes to by the names of members, itself among them.
fn reached(
    source: Source,
    members: &IndexMap<VarId, LambdaId>,
    lambda: LambdaId,
) -> Result<IndexSet<LambdaId>, NoMemory>
    ensures { IfOk result (λ reached. Reached (given source.entry) (get nat_eq members.now) lambda reached.keys) }
{
    let mut reached = IndexSet::new(source.alloc);
    reached.insert(lambda)?;
    for next in 0..usize::MAX {
        match reached.get_index(next).copied() {
            None => return Ok(reached),
            Some(from) => add_called(members, &mut reached, free(source, from))?,
        }
    }
    Err(NoMemory)
}

/// Puts those of these variables that name no member.
fn put_plain(
    members: &IndexMap<VarId, LambdaId>,
    out: &mut Vec<VarId>,
    variables: &[VarId],
) -> Result<(), NoMemory>
    ensures { OnOk result (out.new.items ≡ out.old.items ++ plain (get nat_eq members.now) variables.now) }
{
    for variable in variables {
        if !members.contains_key(variable) {
            out.push(*variable)?;
        }
    }
    Ok(())
}

/// The members of a list, each once, in ascending order.
fn in_order(alloc: Global, variables: &[VarId]) -> Result<Vec<VarId>, NoMemory>
    ensures { IfOk result (λ out. out.items ≡ ascending variables.now) }
{
    let mut out = Vec::new(alloc);
    for at in (0..variables.len()).rev() {
        put_in_order(&mut out, variables[at])?;
    }
    Ok(out)
}

/// Where a variable goes in a list in ascending order.
fn place_of(variables: &[VarId], variable: VarId) -> usize
    ensures place { result ≡ place variable variables.now }
    ensures bound { result ≤ length variables.now }
{
    for at in 0..variables.len() {
        if variable <= variables[at] {
            return at;
        }
    }
    variables.len()
}

/// Whether the variable stands at an index.
fn stands_at(variables: &[VarId], at: usize, variable: VarId) -> bool
    ensures { result ≡ is_name (slice_get variables.now at) variable }
{
    match variables.get(at) {
        None => false,
        Some(other) => *other == variable,
    }
}

/// Puts a variable into a list in ascending order, where it is not in it.
#[tactic(auto, using(crate::proofs::Orders::put_found, crate::proofs::Orders::put_new))]
fn put_in_order(out: &mut Vec<VarId>, variable: VarId) -> Result<(), NoMemory>
    ensures { OnOk result (out.new.items ≡ spec.put variable out.old.items) }
{
    let at = place_of(out.as_slice(), variable);
    if stands_at(out.as_slice(), at, variable) {
        return Ok(());
    }
    out.insert(at, variable)?;
    Ok(())
}

/// The variables that are added to a lambda expression, in the order of their numbers.
pub(crate) fn added(
    source: Source,
    members: &IndexMap<VarId, LambdaId>,
    set: &[LambdaId],
    lambda: LambdaId,
) -> Result<VarRow, NoMemory>
    requires members { (x : ℕ) → get nat_eq members.now x ≡ member (given source) set.now x }
    requires within { Within (given source) }
    ensures { IfOk result (λ row. row ≡ added_to (given source.entry) set.now lambda) }
{
    let mut all = Vec::new(source.alloc);
    for from in reached(source, members, lambda)?.as_slice() {
        put_plain(members, &mut all, free(source, *from))?;
    }
    Ok(Row::from_vec(in_order(source.alloc, all.as_slice())?))
}
