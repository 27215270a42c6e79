//! The variables that are assigned, as a table.
ghost use Rattle.std.specs.Prelude.{◌≡◌, ◌+◌, ◌≤◌, ◌++◌, ◌||◌, ◌==◌, ℕ, [], ◌∷◌, map, IfOk, OnOk};
ghost use Rattle.tb_core.specs.FreeVariables as spec;
ghost use Rattle.tb_core.specs.Plain.{trees, view, view_lambda};
ghost use Rattle.tb_core.specs.View.{view_program};
ghost use Rattle.tb_core.specs.calls.Marks.{is_marked};

use std::alloc::Global;
use tb_core::{Core, Expr, Program, VarId};
use tb_prim::NoMemory;

/// The greatest depth of nodes: a form has depth 1.
pub(crate) const MAX_DEPTH: u32 = 1000;

/// The levels of nodes below a node where so many are left from its own on, or want of memory where none is left:
/// there is no room on the stack for a deeper tree.
pub(crate) fn levels_below(levels: u32) -> Result<u32, NoMemory>
    ensures { IfOk result (λ below. below + 1 ≡ levels) }
{
    levels.checked_sub(1).ok_or(NoMemory)
}

/// Puts the targets of the assignments in an expression, inner lambdas apart. Goes no deeper than `levels` nodes,
/// and answers want of memory at a node below.
#[cycle(targets)]
#[tactic(auto, using(crate::proofs::Views::viewing))]
fn put_targets(levels: u32, out: &mut Vec<VarId>, expr: &Expr) -> Result<(), NoMemory>
    requires { levels ≤ 1000 }
    ensures { OnOk result (out.new.items ≡ out.old.items ++ spec.targets (view expr.now)) }
{
    let levels = levels_below(levels)?;
    match &expr.core {
        Core::Quote(_) | Core::Local(_) | Core::Global(_) | Core::Lambda(_) => Ok(()),
        Core::If(test, then, other) => {
            put_targets(levels, out, test.get())?;
            put_targets(levels, out, then.get())?;
            put_targets(levels, out, other.get())
        }
        Core::SetLocal(variable, value) => {
            out.push(*variable)?;
            put_targets(levels, out, value.get())
        }
        Core::SetGlobal(_, value) | Core::DefGlobal(_, value) | Core::Letrec(_, _, value) => {
            put_targets(levels, out, value.get())
        }
        Core::Let(_, values, body) => {
            put_targets_of_all(levels, out, values.as_slice())?;
            put_targets(levels, out, body.get())
        }
        Core::Call(operator, operands) => {
            put_targets(levels, out, operator.get())?;
            put_targets_of_all(levels, out, operands.as_slice())
        }
        Core::Seq(exprs) | Core::Prim(_, exprs) => put_targets_of_all(
            levels,
            out,
            exprs.as_slice(),
        ),
        Core::Apply(procedure, list) => {
            put_targets(levels, out, procedure.get())?;
            put_targets(levels, out, list.get())
        }
    }
}

/// The same of these expressions, one after another.
#[cycle(targets)]
#[tactic(auto, using(crate::proofs::Views::viewing))]
fn put_targets_of_all(levels: u32, out: &mut Vec<VarId>, exprs: &[Expr]) -> Result<(), NoMemory>
    requires { levels ≤ 1000 }
    ensures { OnOk result (out.new.items ≡ out.old.items ++ spec.targets_all (trees (map view exprs.now))) }
{
    for expr in exprs {
        put_targets(levels, out, expr)?;
    }
    Ok(())
}

/// The targets of all assignments of a program.
fn targets(alloc: Global, program: &Program) -> Result<Vec<VarId>, NoMemory>
    ensures { IfOk result (λ out. out.items ≡ spec.targets_all (trees (map view program.now.forms)) ++ spec.targets_of_lambdas (map view_lambda program.now.lambdas)) }
{
    let mut out = Vec::new(alloc);
    put_targets_of_all(MAX_DEPTH, &mut out, program.forms.as_slice())?;
    for lambda in program.lambdas.as_slice() {
        put_targets(MAX_DEPTH, &mut out, &lambda.body)?;
    }
    Ok(out)
}

/// Marks a variable.
fn mark(marked: &mut Vec<bool>, variable: VarId) -> Result<(), NoMemory>
    ensures { OnOk result ((x : ℕ) → is_marked marked.new.items x ≡ (is_marked marked.old.items x || (variable == x))) }
{
    let index = variable as usize;
    while marked.len() <= index {
        marked.push(false)?;
    }
    marked[index] = true;
    Ok(())
}

/// A table with a mark at each variable that is assigned, and at no other. Want of memory is also the answer where
/// nodes nest deeper than 1,000.
pub(crate) fn assigned_table(alloc: Global, program: &Program) -> Result<Vec<bool>, NoMemory>
    ensures { IfOk result (λ marked. (x : ℕ) → is_marked marked.items x ≡ spec.is_assigned (view_program program.now) x) }
{
    let variables = targets(alloc, program)?;
    let mut marked = Vec::new(alloc);
    for variable in &variables {
        mark(&mut marked, *variable)?;
    }
    Ok(marked)
}
