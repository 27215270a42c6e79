ghost use Rattle.std.specs.Prelude.{◌≡◌, ◌+◌, ◌≤◌, ◌<◌, ◌*◌, ◌^◌, length, map, drop, slice_get, Ok, Err, IfOk, OnOk, IsOk, MatchOption, MatchResult};
ghost use Rattle.tb_core.specs.Limits.{Operands, Depth, Width, measures, measures_all, measures_of_lambdas, lambdas_measures, first_measures, parameter_measures, form_measures, forms_measures, judged, judge, judge_program, no_widths, IsSmall};
ghost use Rattle.tb_core.specs.Width as widths;
ghost use Rattle.tb_core.specs.Width.{width_of, square_sum};
ghost use Rattle.tb_core.specs.View.{view, view_core, trees, view_lambda, view_program};

use super::{Core, Expr, Lambda, LambdaId, Program};
use tb_prim::{NoMemory, Place};

/// The most operands of a call, and the most parameters of a lambda expression, the rest one counted.
const MAX_OPERANDS: usize = 12;

/// The greatest depth of nodes: a form has depth 1.
pub(crate) const MAX_DEPTH: u32 = 1000;

/// The greatest width of a body or form.
const MAX_WIDTH: usize = 1000;

/// The greatest sum of the squared widths.
const MAX_SQUARES: usize = 1_048_576;

/// An offence against the limits of the core language, with its place.
#[derive(Clone, Copy, Debug, PartialEq, Eq)]
pub enum CoreRefusal {
    /// Nodes nest deeper than 1,000.
    TooDeep(Place),
    /// A call has more than 12 operands, or a lambda expression more than 12 parameters.
    TooManyArgs(Place),
    /// A body or form is wider than 1,000, or brings the sum of the squared widths past 1,048,576.
    TooWide(Place),
}

/// The widths of some bodies and forms: the largest, and the sum of the squares.
#[derive(Clone, Copy, Debug)]
pub struct Totals {
    pub widest: usize,
    pub squares: usize,
}

/// What is left of so many nodes after those of the expression outside inner lambdas, or `None` where they are
/// too few. Takes no memory, and goes no deeper than so many nodes.
#[cycle(nodes)]
pub(crate) fn nodes_left(left: usize, expr: &Expr) -> Option<usize>
    ensures { MatchOption result (left < widths.nodes (view expr.now)) (λ rest. rest + widths.nodes (view expr.now) ≡ left) }
{
    if left == 0 {
        return None;
    }
    let left = left - 1;
    match &expr.core {
        Core::Quote(_) | Core::Local(_) | Core::Global(_) | Core::Lambda(_) => Some(left),
        Core::If(test, first, second) => {
            let left = nodes_left(left, test.get())?;
            let left = nodes_left(left, first.get())?;
            nodes_left(left, second.get())
        }
        Core::SetLocal(_, value) | Core::SetGlobal(_, value) | Core::DefGlobal(_, value) => {
            nodes_left(left, value.get())
        }
        Core::Let(_, values, body) => {
            let left = nodes_left_of_all(left, values.as_slice())?;
            nodes_left(left, body.get())
        }
        Core::Letrec(_, lambdas, body) => {
            let left = left.checked_sub(lambdas.as_slice().len())?;
            nodes_left(left, body.get())
        }
        Core::Call(operator, operands) => {
            let left = nodes_left(left, operator.get())?;
            nodes_left_of_all(left, operands.as_slice())
        }
        Core::Seq(exprs) | Core::Prim(_, exprs) => nodes_left_of_all(left, exprs.as_slice()),
        Core::Apply(procedure, list) => {
            let left = nodes_left(left, procedure.get())?;
            nodes_left(left, list.get())
        }
    }
}

/// The same for the nodes of all these expressions.
#[cycle(nodes)]
fn nodes_left_of_all(mut left: usize, exprs: &[Expr]) -> Option<usize>
    ensures { MatchOption result (left < widths.nodes_all (trees (map view exprs.now))) (λ rest. rest + widths.nodes_all (trees (map view exprs.now)) ≡ left) }
{
    for expr in exprs {
        left = nodes_left(left, expr)?;
    }
    Some(left)
}

/// The depth of a node against its limit.
#[tactic(auto, unfolding(crate::specs::Limits::judged))]
fn check_depth(totals: Totals, place: Place, depth: u32) -> Result<Totals, CoreRefusal>
    ensures value { result ≡ judged totals (Depth place depth) }
    ensures depth { OnOk result (depth ≤ 1000) }
    ensures small { IfOk result (λ after. after ≡ totals) }
{
    if depth > MAX_DEPTH {
        Err(CoreRefusal::TooDeep(place))
    } else {
        Ok(totals)
    }
}

/// A count of operands or parameters against its limit.
#[tactic(auto, unfolding(crate::specs::Limits::judged))]
fn check_operands(totals: Totals, place: Place, count: usize) -> Result<Totals, CoreRefusal>
    ensures value { result ≡ judged totals (Operands place count) }
    ensures count { OnOk result (count ≤ 12) }
    ensures small { IfOk result (λ after. after ≡ totals) }
{
    if count > MAX_OPERANDS {
        Err(CoreRefusal::TooManyArgs(place))
    } else {
        Ok(totals)
    }
}

/// The width of a body or form, from the variables in scope at its start, against both limits.
#[tactic(auto, unfolding(crate::specs::Limits::judged))]
fn check_width(
    totals: Totals,
    place: Place,
    scope: u128,
    body: &Expr,
) -> Result<Totals, CoreRefusal>
    requires { IsSmall totals }
    ensures value { result ≡ judged totals (Width place (scope + widths.nodes (view body.now))) }
    ensures small { IfOk result (λ after. IsSmall after) }
{
    if scope > MAX_WIDTH as u128 {
        return Err(CoreRefusal::TooWide(place));
    }
    let room = MAX_WIDTH - scope as usize;
    match nodes_left(room, body) {
        None => Err(CoreRefusal::TooWide(place)),
        Some(rest) => {
            let width = MAX_WIDTH - rest;
            let squares = totals.squares + width * width;
            if squares > MAX_SQUARES {
                Err(CoreRefusal::TooWide(place))
            } else {
                Ok(Totals {
                    widest: totals.widest.max(width),
                    squares,
                })
            }
        }
    }
}

/// The lambda expressions after the one at an index.
pub(crate) fn after(lambdas: &[Lambda], index: usize) -> &[Lambda]
    requires { index < length lambdas.now }
    ensures { result.now ≡ drop (index + 1) lambdas.now }
{
    &lambdas[index + 1..]
}

/// The levels of nodes below a node where so many are left from its own on, or want of memory where none is left:
/// there is no room on the stack for a deeper tree.
pub(crate) fn levels_below(levels: u32) -> Result<u32, NoMemory>
    ensures { MatchResult result (λ below. below + 1 ≡ levels) (λ _. levels ≡ 0) }
{
    levels.checked_sub(1).ok_or(NoMemory)
}

/// The first offence of an expression, or the totals of the widths after it. The number of the first of
/// the lambda expressions is `first`, and those in the expression are among them. Goes no deeper than 1,001
/// nodes.
#[cycle(check)]
#[tactic(auto, using(crate::proofs::Judging::judging))]
fn check_expr(
    lambdas: &[Lambda],
    first: usize,
    scope: u128,
    depth: u32,
    totals: Totals,
    expr: &Expr,
) -> Result<Totals, CoreRefusal>
    requires depth { depth ≤ 1001 }
    requires scope { scope ≤ depth * 2 ^ 65 }
    requires small { IsSmall totals }
    ensures value { result ≡ judge (Ok totals) (measures (lambdas_measures (map view_lambda lambdas.now) first) scope depth (view expr.now)) }
    ensures small { IfOk result (λ after. IsSmall after) }
{
    match &expr.core {
        Core::Quote(_) | Core::Local(_) | Core::Global(_) => check_depth(totals, expr.place, depth),
        Core::Lambda(number) => check_lambda(lambdas, first, scope, depth, totals, *number),
        Core::If(test, then, other) => {
            let totals = check_depth(totals, expr.place, depth)?;
            let totals = check_expr(lambdas, first, scope, depth + 1, totals, test.get())?;
            let totals = check_expr(lambdas, first, scope, depth + 1, totals, then.get())?;
            check_expr(lambdas, first, scope, depth + 1, totals, other.get())
        }
        Core::SetLocal(_, value) | Core::SetGlobal(_, value) | Core::DefGlobal(_, value) => {
            let totals = check_depth(totals, expr.place, depth)?;
            check_expr(lambdas, first, scope, depth + 1, totals, value.get())
        }
        Core::Let(variables, values, body) => {
            let totals = check_depth(totals, expr.place, depth)?;
            let totals = check_exprs(lambdas, first, scope, depth + 1, totals, values.as_slice())?;
            let inside = scope + variables.as_slice().len() as u128;
            check_expr(lambdas, first, inside, depth + 1, totals, body.get())
        }
        Core::Letrec(variables, numbers, body) => {
            let totals = check_depth(totals, expr.place, depth)?;
            let inside = scope + variables.as_slice().len() as u128;
            let totals = check_lambdas(lambdas, first, inside, depth, totals, numbers.as_slice())?;
            check_expr(lambdas, first, inside, depth + 1, totals, body.get())
        }
        Core::Seq(exprs) | Core::Prim(_, exprs) => {
            let totals = check_depth(totals, expr.place, depth)?;
            check_exprs(lambdas, first, scope, depth + 1, totals, exprs.as_slice())
        }
        Core::Call(operator, operands) => {
            let totals = check_operands(totals, expr.place, operands.as_slice().len())?;
            let totals = check_depth(totals, expr.place, depth)?;
            let totals = check_expr(lambdas, first, scope, depth + 1, totals, operator.get())?;
            check_exprs(
                lambdas,
                first,
                scope,
                depth + 1,
                totals,
                operands.as_slice(),
            )
        }
        Core::Apply(procedure, list) => {
            let totals = check_depth(totals, expr.place, depth)?;
            let totals = check_expr(lambdas, first, scope, depth + 1, totals, procedure.get())?;
            check_expr(lambdas, first, scope, depth + 1, totals, list.get())
        }
    }
}

/// The same of these expressions, one after another.
#[cycle(check)]
#[tactic(auto, using(crate::proofs::Judging::judging))]
fn check_exprs(
    lambdas: &[Lambda],
    first: usize,
    scope: u128,
    depth: u32,
    mut totals: Totals,
    exprs: &[Expr],
) -> Result<Totals, CoreRefusal>
    requires depth { depth ≤ 1001 }
    requires scope { scope ≤ depth * 2 ^ 65 }
    requires small { IsSmall totals }
    ensures value { result ≡ judge (Ok totals) (measures_all (lambdas_measures (map view_lambda lambdas.now) first) scope depth (trees (map view exprs.now))) }
    ensures small { IfOk result (λ after. IsSmall after) }
{
    for expr in exprs {
        totals = check_expr(lambdas, first, scope, depth, totals, expr)?;
    }
    Ok(totals)
}

/// The same of the lambda expressions of a `letrec`, one after another.
#[cycle(check)]
#[tactic(auto, using(crate::proofs::Judging::judging))]
fn check_lambdas(
    lambdas: &[Lambda],
    first: usize,
    scope: u128,
    depth: u32,
    mut totals: Totals,
    numbers: &[LambdaId],
) -> Result<Totals, CoreRefusal>
    requires depth { depth ≤ 1001 }
    requires scope { scope ≤ depth * 2 ^ 65 + 2 ^ 64 }
    requires small { IsSmall totals }
    ensures value { result ≡ judge (Ok totals) (measures_of_lambdas (lambdas_measures (map view_lambda lambdas.now) first) scope depth numbers.now) }
    ensures small { IfOk result (λ after. IsSmall after) }
{
    for number in numbers {
        totals = check_lambda(lambdas, first, scope, depth, totals, *number)?;
    }
    Ok(totals)
}

/// The same of a lambda expression by its number, with the variables in scope and the depth of the node where it
/// stands.
#[cycle(check)]
#[tactic(auto, using(crate::proofs::Judging::judging))]
fn check_lambda(
    lambdas: &[Lambda],
    first: usize,
    scope: u128,
    depth: u32,
    totals: Totals,
    number: LambdaId,
) -> Result<Totals, CoreRefusal>
    requires depth { depth ≤ 1001 }
    requires scope { scope ≤ depth * 2 ^ 65 + 2 ^ 64 }
    requires small { IsSmall totals }
    ensures value { result ≡ judge (Ok totals) (lambdas_measures (map view_lambda lambdas.now) first number scope depth) }
    ensures small { IfOk result (λ after. IsSmall after) }
{
    let number = number as usize;
    if number < first || lambdas.len() <= number - first {
        return Ok(totals);
    }
    let index = number - first;
    let lambda = &lambdas[index];
    let count = lambda.parameter_count();
    let totals = check_operands(totals, lambda.place, count)?;
    let totals = check_depth(totals, lambda.place, depth)?;
    let inside = scope + count as u128;
    let totals = check_width(totals, lambda.place, inside, &lambda.body)?;
    check_expr(
        after(lambdas, index),
        number + 1,
        inside,
        depth + 1,
        totals,
        &lambda.body,
    )
}

/// The parameters of a lambda expression by its number, against their limit.
#[tactic(auto, using(crate::proofs::Judging::judging))]
fn check_parameters(
    lambdas: &[Lambda],
    totals: Totals,
    number: LambdaId,
) -> Result<Totals, CoreRefusal>
    ensures value { result ≡ judge (Ok totals) (parameter_measures (slice_get (map view_lambda lambdas.now) number)) }
    ensures small { IfOk result (λ after. after ≡ totals) }
{
    match lambdas.get(number as usize) {
        Some(lambda) => check_operands(totals, lambda.place, lambda.parameter_count()),
        None => Ok(totals),
    }
}

/// What is judged of a form before its width: the operands of a call and the parameters of a lambda expression.
#[tactic(auto, using(crate::proofs::Judging::judging))]
fn check_first(lambdas: &[Lambda], totals: Totals, form: &Expr) -> Result<Totals, CoreRefusal>
    ensures value { result ≡ judge (Ok totals) (first_measures (map view_lambda lambdas.now) form.now.place (view_core form.now.core)) }
    ensures small { IfOk result (λ after. after ≡ totals) }
{
    match &form.core {
        Core::Call(_, operands) => check_operands(totals, form.place, operands.as_slice().len()),
        Core::Lambda(number) => check_parameters(lambdas, totals, *number),
        Core::Quote(_)
        | Core::Local(_)
        | Core::Global(_)
        | Core::If(..)
        | Core::SetLocal(..)
        | Core::SetGlobal(..)
        | Core::DefGlobal(..)
        | Core::Let(..)
        | Core::Letrec(..)
        | Core::Seq(_)
        | Core::Prim(..)
        | Core::Apply(..) => Ok(totals),
    }
}

/// The first offence of a form, or the totals of the widths after it.
#[tactic(auto, using(crate::proofs::Judging::judging))]
fn check_form(lambdas: &[Lambda], totals: Totals, form: &Expr) -> Result<Totals, CoreRefusal>
    requires { IsSmall totals }
    ensures value { result ≡ judge (Ok totals) (form_measures (map view_lambda lambdas.now) (view form.now)) }
    ensures small { IfOk result (λ after. IsSmall after) }
{
    let totals = check_first(lambdas, totals, form)?;
    let totals = check_width(totals, form.place, 0, form)?;
    check_expr(lambdas, 0, 0, 1, totals, form)
}

/// The same of these forms, one after another.
#[tactic(auto, using(crate::proofs::Judging::judging))]
fn check_forms(lambdas: &[Lambda], forms: &[Expr]) -> Result<Totals, CoreRefusal>
    ensures value { result ≡ judge (Ok no_widths) (forms_measures (map view_lambda lambdas.now) (trees (map view forms.now))) }
    ensures small { IfOk result (λ after. IsSmall after) }
{
    let mut totals = Totals {
        widest: 0,
        squares: 0,
    };
    for form in forms {
        totals = check_form(lambdas, totals, form)?;
    }
    Ok(totals)
}

/// The first offence of a program, or the totals of its widths.
pub(crate) fn program_totals(program: &Program) -> Result<Totals, CoreRefusal>
    ensures value { result ≡ judge_program (view_program program.now) }
    ensures small { IfOk result (λ totals. IsSmall totals) }
{
    check_forms(program.lambdas.as_slice(), program.forms.as_slice())
}

/// Checks the limits of the core language: nodes nest at most 1,000 deep, a call has at most 12 operands and a
/// lambda expression at most 12 parameters, the rest one counted, a body or form is at most 1,000 wide, and the
/// sum of their squared widths is at most 1,048,576. Otherwise gives the first offence in written order, the
/// number of operands or parameters of a node before its depth, and its depth before its width; those of a form that is
/// itself a call or a lambda expression come before the form's width. Takes no memory, and goes no
/// deeper than 1,001 nodes.
pub fn check(program: &Program) -> Result<(), CoreRefusal>
    ensures first_offence { MatchResult result (λ _. IsOk (judge_program (view_program program.now))) (λ refusal. judge_program (view_program program.now) ≡ Err refusal) }
    ensures width { OnOk result (width_of (view_program program.now) ≤ 1000) }
    ensures squares { OnOk result (square_sum (view_program program.now) ≤ 1048576) }
{
    program_totals(program)?;
    Ok(())
}
