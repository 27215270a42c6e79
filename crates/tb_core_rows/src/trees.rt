ghost use Rattle.std.specs.Prelude.{◌≡◌, ◌≤◌, ◌<◌, ◌+◌, ◌^◌, ℕ, List, [], ◌∷◌, length, map, IfOk};
ghost use Rattle.tb_semantics.specs.Graph.{IsApart};
ghost use Rattle.tb_core.specs.Examples as example;
ghost use Rattle.tb_core.specs.Rules.{Every, KeepsRules};
ghost use Rattle.tb_core.specs.Tree as tree;
ghost use Rattle.tb_core.specs.View.{view, view_core, trees, view_lambda, plain_program};
ghost use Rattle.tb_core_rows.specs.Quiet.{IsQuiet, IsPlain};

use sqlite_items::Boxed;
use std::alloc::Global;
use tb_core::{Core, Expr, Lambda, Program, VarId};
use tb_prim::{Const, NoMemory, Place, Row, Static};

/// The place of a node: line 1, and its number as the column.
pub fn spot(number: u32) -> Place
    ensures { result ≡ example.spot number }
{
    Place {
        library: false,
        line: 1,
        column: number,
    }
}

#[tactic(auto, using(crate::proofs::Shown::viewing))]
pub fn node(number: u32, core: Core) -> Expr
    ensures { view result ≡ tree.Node (example.spot number) number (view_core core) }
{
    Expr {
        place: spot(number),
        site: number,
        core,
    }
}

pub fn constant(number: u32) -> Expr
    requires { number < 2 ^ 24 }
    ensures { IsPlain 1 (view result) }
{
    node(number, Core::Quote(Const::Nil))
}

/// So many constants.
pub fn constants(alloc: Global, number: u32, count: usize) -> Result<Vec<Expr>, NoMemory>
    requires { number < 2 ^ 24 }
    ensures count { IfOk result (λ all. length all.items ≡ count) }
    ensures plain { IfOk result (λ all. Every (λ e. IsPlain 1 (view e)) all.items) }
{
    let mut all = Vec::new(alloc);
    for _ in 0..count {
        all.push(constant(number))?;
    }
    Ok(all)
}

/// A sequence of so many constants.
pub fn sequence(alloc: Global, number: u32, count: usize) -> Result<Expr, NoMemory>
    requires number { number < 2 ^ 24 }
    requires some { 1 ≤ count }
    ensures { IfOk result (λ e. IsPlain (count + 1) (view e)) }
{
    let exprs = constants(alloc, number, count)?;
    Ok(node(number, Core::Seq(Row::from_vec(exprs))))
}

/// A call of a constant, with so many constants as operands.
pub fn call(alloc: Global, number: u32, count: usize) -> Result<Expr, NoMemory>
    requires { number < 2 ^ 24 }
    ensures { IfOk result (λ e. (within : List ℕ) → IsQuiet within [] (number ∷ []) (count + 2) (view e)) }
{
    let operator = Boxed::new(alloc, constant(number))?;
    let operands = constants(alloc, number, count)?;
    Ok(node(number, Core::Call(operator, Row::from_vec(operands))))
}

/// A `let` without variables.
pub fn empty_let(alloc: Global, number: u32, body: Expr) -> Result<Expr, NoMemory>
    requires { number < 2 ^ 24 }
    ensures { IfOk result (λ e. (within ls ss : List ℕ) (n : ℕ) → IsQuiet within ls ss n (view body) → IsQuiet within ls (number ∷ ss) (n + 1) (view e)) }
{
    let body = Boxed::new(alloc, body)?;
    let none = Row::from_vec(Vec::new(alloc));
    Ok(node(
        number,
        Core::Let(none, Row::from_vec(Vec::new(alloc)), body),
    ))
}

/// The lambda expression 0.
pub fn lambda_node(number: u32) -> Expr
    requires { number < 2 ^ 24 }
    ensures { (within : List ℕ) → IsQuiet within (0 ∷ []) within 1 (view result) }
{
    node(number, Core::Lambda(0))
}

/// A sequence of one expression.
pub fn wrapped(alloc: Global, number: u32, inside: Expr) -> Result<Expr, NoMemory>
    requires { number < 2 ^ 24 }
    ensures { IfOk result (λ e. (within ls ss : List ℕ) (n : ℕ) → IsQuiet within ls ss n (view inside) → IsQuiet within ls ss (n + 1) (view e)) }
{
    let exprs = vec![in alloc; inside]?;
    Ok(node(number, Core::Seq(Row::from_vec(exprs))))
}

/// So many sequences of one expression around each other.
pub fn nested(alloc: Global, number: u32, depth: usize, inside: Expr) -> Result<Expr, NoMemory>
    requires { number < 2 ^ 24 }
    ensures { IfOk result (λ e. (within ls ss : List ℕ) (n : ℕ) → IsQuiet within ls ss n (view inside) → IsQuiet within ls ss (n + depth) (view e)) }
{
    let mut expr = inside;
    for _ in 0..depth {
        expr = wrapped(alloc, number, expr)?;
    }
    Ok(expr)
}

/// The variables below a number.
pub fn variables(alloc: Global, count: u32) -> Result<Vec<VarId>, NoMemory>
    ensures apart { IfOk result (λ all. IsApart all.items) }
    ensures below { IfOk result (λ all. Every (λ x. x < count) all.items) }
{
    let mut all = Vec::new(alloc);
    for variable in 0..count {
        all.push(variable)?;
    }
    Ok(all)
}

/// A lambda expression with so many parameters before the rest one.
pub fn lambda(
    alloc: Global,
    number: u32,
    count: u32,
    has_rest: bool,
    body: Expr,
) -> Result<Lambda, NoMemory>
    requires { count < 2 ^ 23 }
    ensures apart { IfOk result (λ l. IsApart (tree.parameters (view_lambda l))) }
    ensures small { IfOk result (λ l. Every (λ x. x < 2 ^ 24) (tree.parameters (view_lambda l))) }
    ensures body { IfOk result (λ l. l.body ≡ body) }
{
    let formals = variables(alloc, count)?;
    Ok(Lambda {
        place: spot(number),
        formals: Row::from_vec(formals),
        rest: has_rest.then_some(count),
        body,
    })
}

/// A program of these forms alone.
pub fn alone(alloc: Global, forms: Vec<Expr>) -> Program
    requires { KeepsRules (plain_program [] [] [] forms.items) }
{
    Program {
        globals: Row::from_vec(Vec::new(alloc)),
        statics: Row::from_vec(Vec::new(alloc)),
        lambdas: Row::from_vec(Vec::new(alloc)),
        forms: Row::from_vec(forms),
    }
}

/// A program of one form and one lambda expression, with these static objects.
pub fn of_one(
    alloc: Global,
    statics: Vec<Static>,
    lambdas: Vec<Lambda>,
    form: Expr,
) -> Result<Program, NoMemory>
    requires { KeepsRules (plain_program [] statics.items lambdas.items (form ∷ [])) }
    ensures { IfOk result (λ p. p.lambdas ≡ lambdas.items) }
{
    Ok(Program {
        globals: Row::from_vec(Vec::new(alloc)),
        statics: Row::from_vec(statics),
        lambdas: Row::from_vec(lambdas),
        forms: Row::from_vec(vec![in alloc; form]?),
    })
}
