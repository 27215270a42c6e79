//! The lambda expressions that might be lifted.
ghost use Rattle.std.specs.Prelude.{◌==◌, ◌&&◌, Some, ◌≡◌, ◌+◌, ◌<◌, ◌≤◌, ◌^◌, ◌++◌, ◌∷◌, [], ℕ, length, map, nat_eq, slice_get, IfOk, OnOk};
ghost use Rattle.indexmap.specs.IndexMap.{get};
ghost use Rattle.tb_core.specs.FirstUses.{free_in_order};
ghost use Rattle.tb_core.specs.View.{view_lambda, view_program};
ghost use Rattle.tb_liftable.specs.Procedures as spec;
ghost use Rattle.tb_liftable.specs.Procedures.{fits_mention, known_from, name_by, name_in, or_else};
ghost use Rattle.tb_liftable.specs.calls.Uses.{fits_use, is_known_with};
ghost use Rattle.tb_liftable.specs.calls.Given.{given, row_at};

use super::mentions::Mention;
use indexmap::IndexMap;
use std::alloc::Global;
use tb_core::{Lambda, LambdaId, Program, VarId, VarRow, free_vars};
use tb_prim::NoMemory;

/// The lambda expressions of a program, the variables that are bound to them, and their free variables by number.
#[derive(Clone, Copy)]
pub(crate) struct Source<'a> {
    pub alloc: Global,
    pub lambdas: &'a [Lambda],
    pub names: &'a IndexMap<LambdaId, VarId>,
    pub rows: &'a [VarRow],
}

/// Notes the variable that is bound to a lambda expression.
fn note_name(names: &mut IndexMap<LambdaId, VarId>, mention: Mention) -> Result<(), NoMemory>
    ensures { OnOk result ((l : ℕ) → get nat_eq names.new l ≡ or_else (name_by mention l) (get nat_eq names.old l)) }
{
    if let Mention::Binds(variable, lambda) = mention {
        names.insert(lambda, variable)?;
    }
    Ok(())
}

/// The variables that are bound to the lambda expressions.
pub(crate) fn names(
    alloc: Global,
    mentions: &[Mention],
) -> Result<IndexMap<LambdaId, VarId>, NoMemory>
    ensures { IfOk result (λ names. (l : ℕ) → get nat_eq names l ≡ name_in mentions.now l) }
{
    let mut names = IndexMap::new(alloc);
    for mention in mentions {
        note_name(&mut names, *mention)?;
    }
    Ok(names)
}

/// What the mentions of a variable are.
#[derive(Clone, Copy, Debug)]
pub enum Use {
    /// It is called with so many operands, and not used otherwise.
    Called(usize),
    /// It is used or assigned, or called with several numbers of operands.
    Other,
}

/// What the mentions are with a further call.
fn called(known: Option<Use>, count: usize) -> Use
    ensures { (n : ℕ) → fits_use n (Some result) ≡ ((count == n) && fits_use n known) }
{
    match known {
        None => Use::Called(count),
        Some(Use::Other) => Use::Other,
        Some(Use::Called(operands)) => {
            if operands == count {
                Use::Called(count)
            } else {
                Use::Other
            }
        }
    }
}

/// Notes a mention of a variable.
fn note_use(uses: &mut IndexMap<VarId, Use>, mention: Mention) -> Result<(), NoMemory>
    ensures { OnOk result ((x n : ℕ) → fits_use n (get nat_eq uses.new x) ≡ (fits_mention x n mention && fits_use n (get nat_eq uses.old x))) }
{
    match mention {
        Mention::Binds(..) => Ok(()),
        Mention::Calls(variable, count) => {
            let known = uses.get(&variable).copied();
            uses.insert(variable, called(known, count))?;
            Ok(())
        }
        Mention::Uses(variable) => {
            uses.insert(variable, Use::Other)?;
            Ok(())
        }
    }
}

/// What the mentions of each variable are.
fn uses(alloc: Global, mentions: &[Mention]) -> Result<IndexMap<VarId, Use>, NoMemory>
    ensures { IfOk result (λ uses. (x n : ℕ) → fits_use n (get nat_eq uses x) ≡ spec.only_called mentions.now x n) }
{
    let mut uses = IndexMap::new(alloc);
    for mention in mentions {
        note_use(&mut uses, *mention)?;
    }
    Ok(uses)
}

/// Whether a variable with these mentions is only called, with so many operands.
fn is_only_called(known: Option<Use>, count: usize) -> bool
    ensures { result ≡ fits_use count known }
{
    match known {
        None => true,
        Some(Use::Called(operands)) => operands == count,
        Some(Use::Other) => false,
    }
}

/// Whether the lambda expression of a number might be lifted.
fn is_candidate(
    uses: &IndexMap<VarId, Use>,
    names: &IndexMap<LambdaId, VarId>,
    lambda: &Lambda,
    number: LambdaId,
) -> bool
    ensures { result ≡ is_known_with (get nat_eq names.now) (get nat_eq uses.now) (view_lambda lambda.now) number }
{
    if lambda.rest.is_some() {
        return false;
    }
    match names.get(&number).copied() {
        None => false,
        Some(variable) => {
            let known = uses.get(&variable).copied();
            is_only_called(known, lambda.formals.as_slice().len())
        }
    }
}

/// An index as the number of a lambda expression, or want of memory where it has more than 32 bits.
pub(crate) fn number_of(index: usize) -> Result<LambdaId, NoMemory>
    ensures { IfOk result (λ number. number ≡ index) }
{
    LambdaId::try_from(index).map_err(|_| NoMemory)
}

/// The lambda expressions that might be lifted, in the order of their numbers.
pub(crate) fn candidates(
    alloc: Global,
    mentions: &[Mention],
    names: &IndexMap<LambdaId, VarId>,
    lambdas: &[Lambda],
) -> Result<Vec<LambdaId>, NoMemory>
    requires { (l : ℕ) → get nat_eq names.now l ≡ name_in mentions.now l }
    ensures { IfOk result (λ out. out.items ≡ known_from mentions.now (map view_lambda lambdas.now) 0) }
{
    let uses = uses(alloc, mentions)?;
    let mut out = Vec::new(alloc);
    for at in 0..lambdas.len() {
        let number = number_of(at)?;
        if is_candidate(&uses, names, &lambdas[at], number) {
            out.push(number)?;
        }
    }
    Ok(out)
}

/// The free variables of each lambda expression, by its number.
pub(crate) fn free_rows(alloc: Global, program: &Program) -> Result<Vec<VarRow>, NoMemory>
    ensures { IfOk result (λ rows. (l : ℕ) → row_at rows.items l ≡ free_in_order (view_program program.now) l) }
{
    let mut rows = Vec::new(alloc);
    for at in 0..program.lambdas.as_slice().len() {
        rows.push(free_vars(alloc, program, number_of(at)?)?)?;
    }
    Ok(rows)
}
