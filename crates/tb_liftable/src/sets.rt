//! The lambda expressions that are lifted.
ghost use Rattle.std.specs.Prelude.{◌≡◌, ◌++◌, ◌∷◌, [], ℕ, filter, map, nat_eq, IfOk, OnOk};
ghost use Rattle.tb_core.specs.Lifting.{view_lifted};
ghost use Rattle.tb_core.specs.View.{view_program};
ghost use Rattle.tb_liftable.specs.Liftable as spec;
ghost use Rattle.tb_liftable.specs.Added.{member};
ghost use Rattle.tb_liftable.specs.calls.Given.{given};
ghost use Rattle.tb_liftable.specs.Procedures.{Within};
ghost use Rattle.indexmap.specs.IndexMap.{get};

use super::added::{added, members};
use super::mentions::mentions;
use super::procedures::{Source, candidates, free_rows, names};
use indexmap::IndexMap;
use std::alloc::Global;
use tb_core::{LambdaId, LiftLine, LiftSet, Program, VarId, VarRow};
use tb_prim::{NoMemory, Row};

/// The most operands that a procedure is called with.
const MAX_OPERANDS: usize = 12;

/// How many parameters a lambda expression has.
#[tactic(auto, unfolding(crate::specs::calls::Given::given))]
fn formals(source: Source, lambda: LambdaId) -> usize
    ensures { result ≡ (given source.entry).formals lambda }
{
    match source.lambdas.get(lambda as usize) {
        None => 0,
        Some(lambda) => lambda.formals.as_slice().len(),
    }
}

/// Whether the parameters of a lambda expression and the variables that are added to them are few enough.
fn fits(
    source: Source,
    members: &IndexMap<VarId, LambdaId>,
    set: &[LambdaId],
    lambda: LambdaId,
) -> Result<bool, NoMemory>
    requires members { (x : ℕ) → get nat_eq members.now x ≡ member (given source) set.now x }
    requires within { Within (given source) }
    ensures { IfOk result (λ few. few ≡ spec.fits (given source.entry) set.now lambda) }
{
    let added = added(source, members, set, lambda)?;
    let formals = formals(source, lambda);
    Ok(formals <= MAX_OPERANDS && added.as_slice().len() <= MAX_OPERANDS - formals)
}

/// What a round leaves of a set.
fn round(source: Source, set: &[LambdaId]) -> Result<Vec<LambdaId>, NoMemory>
    requires { Within (given source) }
    ensures { IfOk result (λ out. out.items ≡ filter (spec.fits (given source.entry) set.now) set.now) }
{
    let members = members(source, set)?;
    let mut out = Vec::new(source.alloc);
    for lambda in set {
        if fits(source, &members, set, *lambda)? {
            out.push(*lambda)?;
        }
    }
    Ok(out)
}

/// What is left of a set when no round changes it any more. A member that a round after the first takes out has fewer
/// parameters than one that the round before took out, so that fourteen rounds at most take some out.
fn settled(source: Source, candidates: Vec<LambdaId>) -> Result<Vec<LambdaId>, NoMemory>
    requires { Within (given source) }
    ensures { IfOk result (λ set. set.items ≡ spec.settled (given source.entry) candidates.items) }
{
    let count = candidates.as_slice().len();
    let mut set = candidates;
    for at in 0..count {
        let next = round(source, set.as_slice())?;
        if next.as_slice().len() == set.as_slice().len() {
            return Ok(set);
        }
        set = next;
    }
    Ok(set)
}

/// Puts a line.
fn put_line(out: &mut Vec<LiftLine>, lambda: LambdaId, added: VarRow) -> Result<(), NoMemory>
    ensures { OnOk result (map view_lifted out.new.items ≡ map view_lifted out.old.items ++ record { lambda = lambda; added = added } ∷ []) }
{
    out.push(LiftLine { lambda, added })?;
    Ok(())
}

/// A set with the variables that are added.
fn lines(source: Source, set: &[LambdaId]) -> Result<Vec<LiftLine>, NoMemory>
    requires { Within (given source) }
    ensures { IfOk result (λ out. map view_lifted out.items ≡ spec.lines (given source.entry) set.now) }
{
    let members = members(source, set)?;
    let mut out = Vec::new(source.alloc);
    for lambda in set {
        let added = added(source, &members, set, *lambda)?;
        put_line(&mut out, *lambda, added)?;
    }
    Ok(out)
}

/// The lambda expressions of a program that are lifted, in the order of their numbers, and the variables that are
/// added to each, in the order of theirs (specs/Liftable). Want of memory is also the answer where nodes of the program
/// nest deeper than 1,000, which `tb_core::check` refuses.
pub fn liftable(alloc: Global, program: &Program) -> Result<LiftSet, NoMemory>
    ensures { IfOk result (λ set. map view_lifted set ≡ spec.liftable (view_program program.now)) }
{
    let mentions = mentions(alloc, program)?;
    let names = names(alloc, mentions.as_slice())?;
    let rows = free_rows(alloc, program)?;
    let source = Source {
        alloc,
        lambdas: program.lambdas.as_slice(),
        names: &names,
        rows: rows.as_slice(),
    };
    let found = candidates(alloc, mentions.as_slice(), &names, source.lambdas)?;
    let set = settled(source, found)?;
    Ok(Row::from_vec(lines(source, set.as_slice())?))
}
