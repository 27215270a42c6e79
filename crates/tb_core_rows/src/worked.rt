ghost use Rattle.std.specs.Prelude.{◌≡◌, pos, List, [], ◌∷◌, length, map, IfOk};
ghost use Rattle.tb_core.specs.Examples as example;
ghost use Rattle.tb_core.specs.Rules.{KeepsRules};
ghost use Rattle.tb_core.specs.Tree as tree;
ghost use Rattle.tb_core.specs.View.{view, view_lambda, trees};
ghost use Rattle.tb_core_rows.specs.Worked.{assigned_form, assigned_program, cons_form, cons_program, cons_statics, uses_form, uses_lambda, uses_program};

use super::trees::{node, of_one, spot};
use sqlite_items::Boxed;
use std::alloc::Global;
use tb_core::{Core, Expr, Lambda, Program, VarId};
use tb_prim::{Const, NoMemory, Prim, Row, Static};

/// The worked programs keep the rules.
pub fn worked_rules()
    ensures cons { KeepsRules cons_program }
    ensures uses { KeepsRules uses_program }
    ensures assigned { KeepsRules assigned_program }
{}

#[tactic(auto, using(crate::proofs::Shown::viewing))]
fn local(number: u32, variable: VarId) -> Expr
    ensures { view result ≡ example.local number variable }
{
    node(number, Core::Local(variable))
}

#[tactic(auto, using(crate::proofs::Shown::viewing))]
fn quote(number: u32, constant: Const) -> Expr
    ensures { view result ≡ example.node number (tree.Quote constant) }
{
    node(number, Core::Quote(constant))
}

#[tactic(auto, using(crate::proofs::Shown::viewing))]
fn prim(number: u32, prim: Prim, operands: Vec<Expr>) -> Expr
    ensures { view result ≡ example.prim number prim (trees (map view operands.items)) }
{
    node(number, Core::Prim(prim, Row::from_vec(operands)))
}

#[tactic(auto, using(crate::proofs::Shown::viewing))]
fn let_of(
    alloc: Global,
    number: u32,
    variables: Vec<VarId>,
    values: Vec<Expr>,
    body: Expr,
) -> Result<Expr, NoMemory>
    ensures { IfOk result (λ e. view e ≡ example.node number (tree.Let variables.items (trees (map view values.items)) (view body))) }
{
    let body = Boxed::new(alloc, body)?;
    Ok(node(
        number,
        Core::Let(Row::from_vec(variables), Row::from_vec(values), body),
    ))
}

/// `(let ((a 1)) (cons a (car '(2))))`
#[tactic(auto, using(crate::proofs::Shown::viewing))]
fn cons_tree(alloc: Global) -> Result<Expr, NoMemory>
    ensures { IfOk result (λ e. view e ≡ cons_form) }
{
    let list = vec![in alloc; quote(27, Const::Stat(0))]?;
    let operands = vec![in alloc; local(20, 0), prim(22, Prim::Car, list)]?;
    let value = vec![in alloc; quote(10, Const::Fix(1))]?;
    let body = prim(14, Prim::Cons, operands);
    let_of(alloc, 1, vec![in alloc; 0]?, value, body)
}

/// A program of that form.
pub fn cons_of_car(alloc: Global) -> Result<Program, NoMemory> {
    let form = cons_tree(alloc)?;
    let statics = vec![in alloc; Static::Pair(Const::Fix(2), Const::Nil)]?;
    worked_rules();
    of_one(alloc, statics, Vec::new(alloc), form)
}

/// `(let ((a 1) (b 2)) (lambda (c) ..))`
#[tactic(auto, using(crate::proofs::Shown::viewing))]
fn uses_tree(alloc: Global) -> Result<Expr, NoMemory>
    ensures { IfOk result (λ e. view e ≡ uses_form) }
{
    let values = vec![in alloc; quote(10, Const::Fix(1)), quote(16, Const::Fix(2))]?;
    let variables = vec![in alloc; 0, 1]?;
    let_of(alloc, 1, variables, values, node(20, Core::Lambda(0)))
}

/// `(lambda (c) (begin b c a b))`
#[tactic(auto, using(crate::proofs::Shown::viewing))]
fn uses_inner(alloc: Global) -> Result<Lambda, NoMemory>
    ensures { IfOk result (λ l. view_lambda l ≡ uses_lambda) }
{
    let uses = vec![in alloc; local(39, 1), local(41, 2), local(43, 0), local(45, 1)]?;
    Ok(Lambda {
        place: spot(20),
        formals: Row::from_vec(vec![in alloc; 2]?),
        rest: None,
        body: node(32, Core::Seq(Row::from_vec(uses))),
    })
}

/// `(let ((a 1) (b 2)) (lambda (c) (begin b c a b)))`
pub fn uses_in_lambda(alloc: Global) -> Result<Program, NoMemory>
    ensures { IfOk result (λ p. length p.lambdas ≡ 1) }
{
    let form = uses_tree(alloc)?;
    let lambdas = vec![in alloc; uses_inner(alloc)?]?;
    worked_rules();
    of_one(alloc, Vec::new(alloc), lambdas, form)
}

#[tactic(auto, using(crate::proofs::Shown::viewing))]
fn set(alloc: Global, number: u32, variable: VarId, value: Expr) -> Result<Expr, NoMemory>
    ensures { IfOk result (λ e. view e ≡ example.node number (tree.SetLocal variable (view value))) }
{
    let value = Boxed::new(alloc, value)?;
    Ok(node(number, Core::SetLocal(variable, value)))
}

/// `(begin (set! a 2) a)`
#[tactic(auto, using(crate::proofs::Shown::viewing))]
fn assigned_body(alloc: Global) -> Result<Expr, NoMemory>
    ensures { IfOk result (λ e. view e ≡ example.sequence 14 (example.two (example.node 21 (tree.SetLocal 0 (example.number 29 2))) (example.local 32 0))) }
{
    let assignment = set(alloc, 21, 0, quote(29, Const::Fix(2)))?;
    let exprs = vec![in alloc; assignment, local(32, 0)]?;
    Ok(node(14, Core::Seq(Row::from_vec(exprs))))
}

/// `(let ((a 1)) (begin (set! a 2) a))`
#[tactic(auto, using(crate::proofs::Shown::viewing))]
fn assigned_tree(alloc: Global) -> Result<Expr, NoMemory>
    ensures { IfOk result (λ e. view e ≡ assigned_form) }
{
    let body = assigned_body(alloc)?;
    let value = vec![in alloc; quote(10, Const::Fix(1))]?;
    let_of(alloc, 1, vec![in alloc; 0]?, value, body)
}

/// A program of that form.
pub fn assigned_variable(alloc: Global) -> Result<Program, NoMemory> {
    let form = assigned_tree(alloc)?;
    worked_rules();
    of_one(alloc, Vec::new(alloc), Vec::new(alloc), form)
}
