//! Where the variables of a program stand.
ghost use Rattle.std.specs.Prelude.{◌≡◌, ◌+◌, ◌≤◌, ◌++◌, ◌∷◌, [], length, map, IfOk, OnOk};
ghost use Rattle.tb_core.specs.View.{trees, view, view_lambda, view_program};
ghost use Rattle.tb_liftable.specs.Mentions as spec;
ghost use Rattle.tb_liftable.specs.Mentions.{bound_to, let_bound, letrec_bound, mentions_of};

use std::alloc::Global;
use tb_core::{Core, Expr, LambdaId, Program, VarId};
use tb_prim::NoMemory;

/// A place where a variable stands, or is bound.
#[derive(Clone, Copy, Debug)]
pub enum Mention {
    /// A `let` or `letrec` binds the variable to the lambda expression.
    Binds(VarId, LambdaId),
    /// The variable is the operator of a call with so many operands.
    Calls(VarId, usize),
    /// The variable is assigned, or stands anywhere else.
    Uses(VarId),
}

/// The greatest depth of nodes: a form has depth 1.
const MAX_DEPTH: u32 = 1000;

/// The levels below a level, or want of memory where none is left: there is no room on the stack for a deeper node.
fn levels_below(levels: u32) -> Result<u32, NoMemory>
    ensures { IfOk result (λ below. below + 1 ≡ levels) }
{
    levels.checked_sub(1).ok_or(NoMemory)
}

fn put(out: &mut Vec<Mention>, mention: Mention) -> Result<(), NoMemory>
    ensures { OnOk result (out.new.items ≡ out.old.items ++ mention ∷ []) }
{
    out.push(mention)?;
    Ok(())
}

/// Puts that the variable is bound to the operand, where that is a lambda expression.
#[tactic(auto, using(tb_core::proofs::Views::viewing))]
fn put_bound(out: &mut Vec<Mention>, variable: VarId, value: &Expr) -> Result<(), NoMemory>
    ensures { OnOk result (out.new.items ≡ out.old.items ++ bound_to variable (view value.now)) }
{
    match &value.core {
        Core::Lambda(lambda) => put(out, Mention::Binds(variable, *lambda)),
        Core::Quote(_)
        | Core::Local(_)
        | Core::Global(_)
        | Core::If(..)
        | Core::SetLocal(..)
        | Core::SetGlobal(..)
        | Core::DefGlobal(..)
        | Core::Let(..)
        | Core::Letrec(..)
        | Core::Seq(_)
        | Core::Call(..)
        | Core::Prim(..)
        | Core::Apply(..) => Ok(()),
    }
}

/// Puts which of the variables of a `let` are bound to lambda expressions.
#[tactic(auto, using(tb_core::proofs::Views::viewing))]
fn put_let_bound(
    out: &mut Vec<Mention>,
    variables: &[VarId],
    values: &[Expr],
) -> Result<(), NoMemory>
    ensures { OnOk result (out.new.items ≡ out.old.items ++ let_bound variables.now (trees (map view values.now))) }
{
    for at in 0..variables.len().min(values.len()) {
        put_bound(out, variables[at], &values[at])?;
    }
    Ok(())
}

/// Puts to which lambda expressions the variables of a `letrec` are bound.
fn put_letrec_bound(
    out: &mut Vec<Mention>,
    variables: &[VarId],
    lambdas: &[LambdaId],
) -> Result<(), NoMemory>
    ensures { OnOk result (out.new.items ≡ out.old.items ++ letrec_bound variables.now lambdas.now) }
{
    for at in 0..variables.len().min(lambdas.len()) {
        put(out, Mention::Binds(variables[at], lambdas[at]))?;
    }
    Ok(())
}

/// Puts the mentions in an expression in written order, inner lambdas apart. Goes no deeper than `levels` nodes, and
/// answers want of memory at a node below.
#[cycle(mentions)]
#[tactic(auto, using(tb_core::proofs::Views::viewing))]
fn put_mentions(levels: u32, out: &mut Vec<Mention>, expr: &Expr) -> Result<(), NoMemory>
    requires { levels ≤ 1000 }
    ensures { OnOk result (out.new.items ≡ out.old.items ++ spec.mentions (view expr.now)) }
{
    let levels = levels_below(levels)?;
    match &expr.core {
        Core::Quote(_) | Core::Global(_) | Core::Lambda(_) => Ok(()),
        Core::Local(variable) => put(out, Mention::Uses(*variable)),
        Core::If(test, then, other) => {
            put_mentions(levels, out, test.get())?;
            put_mentions(levels, out, then.get())?;
            put_mentions(levels, out, other.get())
        }
        Core::SetLocal(variable, value) => {
            put(out, Mention::Uses(*variable))?;
            put_mentions(levels, out, value.get())
        }
        Core::SetGlobal(_, value) | Core::DefGlobal(_, value) => {
            put_mentions(levels, out, value.get())
        }
        Core::Let(variables, values, body) => {
            put_let_bound(out, variables.as_slice(), values.as_slice())?;
            put_mentions_of_all(levels, out, values.as_slice())?;
            put_mentions(levels, out, body.get())
        }
        Core::Letrec(variables, lambdas, body) => {
            put_letrec_bound(out, variables.as_slice(), lambdas.as_slice())?;
            put_mentions(levels, out, body.get())
        }
        Core::Seq(exprs) | Core::Prim(_, exprs) => {
            put_mentions_of_all(levels, out, exprs.as_slice())
        }
        Core::Call(operator, operands) => {
            let count = operands.as_slice().len();
            put_operator(levels, out, operator.get(), count)?;
            put_mentions_of_all(levels, out, operands.as_slice())
        }
        Core::Apply(procedure, list) => {
            put_mentions(levels, out, procedure.get())?;
            put_mentions(levels, out, list.get())
        }
    }
}

/// The same of the operator of a call with so many operands.
#[cycle(mentions)]
#[tactic(auto, using(tb_core::proofs::Views::viewing))]
fn put_operator(
    levels: u32,
    out: &mut Vec<Mention>,
    expr: &Expr,
    count: usize,
) -> Result<(), NoMemory>
    requires { levels ≤ 1000 }
    ensures { OnOk result (out.new.items ≡ out.old.items ++ spec.operator (view expr.now) count (spec.mentions (view expr.now))) }
{
    match &expr.core {
        Core::Local(variable) => put(out, Mention::Calls(*variable, count)),
        Core::Quote(_)
        | Core::Lambda(_)
        | Core::Global(_)
        | Core::If(..)
        | Core::SetLocal(..)
        | Core::SetGlobal(..)
        | Core::DefGlobal(..)
        | Core::Let(..)
        | Core::Letrec(..)
        | Core::Seq(_)
        | Core::Call(..)
        | Core::Prim(..)
        | Core::Apply(..) => put_mentions(levels, out, expr),
    }
}

/// The same of these expressions, one after another.
#[cycle(mentions)]
#[tactic(auto, using(tb_core::proofs::Views::viewing))]
fn put_mentions_of_all(levels: u32, out: &mut Vec<Mention>, exprs: &[Expr]) -> Result<(), NoMemory>
    requires { levels ≤ 1000 }
    ensures { OnOk result (out.new.items ≡ out.old.items ++ spec.mentions_all (trees (map view exprs.now))) }
{
    for expr in exprs {
        put_mentions(levels, out, expr)?;
    }
    Ok(())
}

/// The mentions in a program, those of its forms before those of its lambda expressions. Want of memory is also the
/// answer where nodes nest deeper than 1,000.
pub(crate) fn mentions(alloc: Global, program: &Program) -> Result<Vec<Mention>, NoMemory>
    ensures { IfOk result (λ out. out.items ≡ mentions_of (view_program program.now)) }
{
    let mut out = Vec::new(alloc);
    put_mentions_of_all(MAX_DEPTH, &mut out, program.forms.as_slice())?;
    for lambda in program.lambdas.as_slice() {
        put_mentions(MAX_DEPTH, &mut out, &lambda.body)?;
    }
    Ok(out)
}
