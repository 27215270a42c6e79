ghost use Rattle.std.specs.Prelude.{◌≡◌, ◌+◌, ◌≤◌, ◌++◌, ◌||◌, ◌==◌, suc, cond, not, ℕ, [], ◌∷◌, length, map, IfOk, OnOk};
ghost use Rattle.tb_core.specs.FreeVariables as spec;
ghost use Rattle.tb_core.specs.OperandOrder as orders;
ghost use Rattle.tb_core.specs.Order.{view_line};
ghost use Rattle.tb_core.specs.calls.Marks.{is_marked};
ghost use Rattle.tb_core.specs.calls.Walks.{marks, lines_inside};
ghost use Rattle.tb_core.specs.Tree as tree;
ghost use Rattle.tb_core.specs.View.{view, view_core, trees, view_lambda, view_program};

use super::limits::{MAX_DEPTH, after, levels_below};
use super::{Core, Expr, Lambda, LambdaId, Program, Site, VarId};
use std::alloc::Global;
use std::slice;
use tb_prim::{NoMemory, Place, Row};

/// The numbers of operands.
pub type IndexRow = Row<u16>;

/// The order of the operands of one node.
#[derive(Debug, Drop)]
pub struct OrderLine {
    pub place: Place,
    pub site: Site,
    pub order: IndexRow,
}

/// A line for each call, primitive use, application and `let` of a program, in written order.
pub type Order = Row<OrderLine>;

/// Puts the targets of the assignments in an expression, inner lambdas apart. Goes no deeper than `levels` nodes,
/// and answers want of memory at a node below.
#[cycle(targets)]
#[tactic(auto, using(crate::proofs::Views::viewing))]
fn put_targets(levels: u32, out: &mut Vec<VarId>, expr: &Expr) -> Result<(), NoMemory>
    requires { levels ≤ 1000 }
    ensures { OnOk result (out.new.items ≡ out.old.items ++ spec.targets (view expr.now)) }
{
    let levels = levels_below(levels)?;
    match &expr.core {
        Core::Quote(_) | Core::Local(_) | Core::Global(_) | Core::Lambda(_) => Ok(()),
        Core::If(test, then, other) => {
            put_targets(levels, out, test.get())?;
            put_targets(levels, out, then.get())?;
            put_targets(levels, out, other.get())
        }
        Core::SetLocal(variable, value) => {
            out.push(*variable)?;
            put_targets(levels, out, value.get())
        }
        Core::SetGlobal(_, value) | Core::DefGlobal(_, value) | Core::Letrec(_, _, value) => {
            put_targets(levels, out, value.get())
        }
        Core::Let(_, values, body) => {
            put_targets_of_all(levels, out, values.as_slice())?;
            put_targets(levels, out, body.get())
        }
        Core::Call(operator, operands) => {
            put_targets(levels, out, operator.get())?;
            put_targets_of_all(levels, out, operands.as_slice())
        }
        Core::Seq(exprs) | Core::Prim(_, exprs) => put_targets_of_all(
            levels,
            out,
            exprs.as_slice(),
        ),
        Core::Apply(procedure, list) => {
            put_targets(levels, out, procedure.get())?;
            put_targets(levels, out, list.get())
        }
    }
}

/// The same of these expressions, one after another.
#[cycle(targets)]
#[tactic(auto, using(crate::proofs::Views::viewing))]
fn put_targets_of_all(levels: u32, out: &mut Vec<VarId>, exprs: &[Expr]) -> Result<(), NoMemory>
    requires { levels ≤ 1000 }
    ensures { OnOk result (out.new.items ≡ out.old.items ++ spec.targets_all (trees (map view exprs.now))) }
{
    for expr in exprs {
        put_targets(levels, out, expr)?;
    }
    Ok(())
}

/// The targets of all assignments of a program.
fn targets(alloc: Global, program: &Program) -> Result<Vec<VarId>, NoMemory>
    ensures { IfOk result (λ out. out.items ≡ spec.targets_all (trees (map view program.now.forms)) ++ spec.targets_of_lambdas (map view_lambda program.now.lambdas)) }
{
    let mut out = Vec::new(alloc);
    put_targets_of_all(MAX_DEPTH, &mut out, program.forms.as_slice())?;
    for lambda in program.lambdas.as_slice() {
        put_targets(MAX_DEPTH, &mut out, &lambda.body)?;
    }
    Ok(out)
}

/// Whether an operand is a constant, or a local variable that the table does not mark.
#[tactic(auto, using(crate::proofs::Views::viewing))]
fn is_simple(marked: &[bool], expr: &Expr) -> bool
    ensures { result ≡ orders.is_simple (is_marked marked.now) (view expr.now) }
{
    match &expr.core {
        Core::Quote(_) => true,
        Core::Local(variable) => !marks(marked, *variable),
        Core::Global(_)
        | Core::Lambda(_)
        | Core::If(..)
        | Core::SetLocal(..)
        | Core::SetGlobal(..)
        | Core::DefGlobal(..)
        | Core::Let(..)
        | Core::Letrec(..)
        | Core::Seq(_)
        | Core::Call(..)
        | Core::Prim(..)
        | Core::Apply(..) => false,
    }
}

/// Whether the table has a mark at the variable.
fn marks(marked: &[bool], variable: VarId) -> bool
    ensures { result ≡ is_marked marked.now variable }
{
    marked.get(variable as usize).copied().unwrap_or(false)
}

/// Marks a variable.
fn mark(marked: &mut Vec<bool>, variable: VarId) -> Result<(), NoMemory>
    ensures { OnOk result ((x : ℕ) → is_marked marked.new.items x ≡ (is_marked marked.old.items x || (variable == x))) }
{
    let index = variable as usize;
    while marked.len() <= index {
        marked.push(false)?;
    }
    marked[index] = true;
    Ok(())
}

/// A table with a mark at each of these variables, and at no other.
fn table(alloc: Global, variables: &[VarId]) -> Result<Vec<bool>, NoMemory>
    ensures { IfOk result (λ marked. (x : ℕ) → is_marked marked.items x ≡ spec.is_in variables.now x) }
{
    let mut marked = Vec::new(alloc);
    for variable in variables {
        mark(&mut marked, *variable)?;
    }
    Ok(marked)
}

/// Puts the number of an operand where it is as simple as asked for. An operand past number 65,535, which no program
/// within the limits has, is answered by want of memory.
fn put_number(
    out: &mut Vec<u16>,
    marked: &[bool],
    simple: bool,
    number: usize,
    expr: &Expr,
) -> Result<(), NoMemory>
    ensures { OnOk result (out.new.items ≡ out.old.items ++ cond (orders.is_simple (is_marked marked.now) (view expr.now)) (cond simple (number ∷ []) []) (cond simple [] (number ∷ []))) }
{
    if is_simple(marked, expr) == simple {
        if number > u16::MAX as usize {
            return Err(NoMemory);
        }
        out.push(number as u16)?;
    }
    Ok(())
}

/// Puts the numbers of the operands that are as simple as asked for, the first of them being number `from`.
fn put_numbers(
    out: &mut Vec<u16>,
    marked: &[bool],
    simple: bool,
    from: usize,
    exprs: &[Expr],
) -> Result<(), NoMemory>
    requires { from ≤ 1 }
    ensures { OnOk result (out.new.items ≡ out.old.items ++ orders.numbers (is_marked marked.now) simple from (trees (map view exprs.now))) }
{
    for (index, expr) in exprs.iter().enumerate() {
        put_number(out, marked, simple, from + index, expr)?;
    }
    Ok(())
}

/// The order of these operands.
fn order_of_all(alloc: Global, marked: &[bool], exprs: &[Expr]) -> Result<Vec<u16>, NoMemory>
    ensures { IfOk result (λ order. order.items ≡ orders.line_of (is_marked marked.now) (trees (map view exprs.now))) }
{
    let mut order = Vec::new(alloc);
    put_numbers(&mut order, marked, false, 0, exprs)?;
    put_numbers(&mut order, marked, true, 0, exprs)?;
    Ok(order)
}

/// The order of an operator and the operands behind it.
fn order_with(
    alloc: Global,
    marked: &[bool],
    operator: &Expr,
    exprs: &[Expr],
) -> Result<Vec<u16>, NoMemory>
    ensures { IfOk result (λ order. order.items ≡ orders.line_of (is_marked marked.now) (tree.more (view operator.now) (trees (map view exprs.now)))) }
{
    let mut order = Vec::new(alloc);
    put_number(&mut order, marked, false, 0, operator)?;
    put_numbers(&mut order, marked, false, 1, exprs)?;
    put_number(&mut order, marked, true, 0, operator)?;
    put_numbers(&mut order, marked, true, 1, exprs)?;
    Ok(order)
}

/// Puts the line of a node.
fn put_line(out: &mut Vec<OrderLine>, expr: &Expr, order: Vec<u16>) -> Result<(), NoMemory>
    ensures { OnOk result (map view_line out.new.items ≡ map view_line out.old.items ++ record { place = expr.now.place; site = expr.now.site; order = order.items } ∷ []) }
{
    out.push(OrderLine {
        place: expr.place,
        site: expr.site,
        order: Row::from_vec(order),
    })?;
    Ok(())
}

/// What a walk over expressions carries along: the marks of the variables that are assigned, and the lambda expressions
/// among which those inside stand, with the number of the first.
#[derive(Clone, Copy)]
struct Walk<'a> {
    alloc: Global,
    marked: &'a [bool],
    lambdas: &'a [Lambda],
    first: usize,
}

/// Puts the lines of an expression in written order, a node before its parts. Goes no deeper than `levels` nodes, and
/// answers want of memory at a node below.
#[cycle(lines)]
#[tactic(auto, using(crate::proofs::Views::viewing))]
fn put_lines(walk: Walk, levels: u32, out: &mut Vec<OrderLine>, expr: &Expr) -> Result<(), NoMemory>
    requires { levels ≤ 1000 }
    ensures { OnOk result (map view_line out.new.items ≡ map view_line out.old.items ++ orders.lines (marks walk.entry) (lines_inside walk.entry) (view expr.now)) }
{
    let levels = levels_below(levels)?;
    match &expr.core {
        Core::Quote(_) | Core::Local(_) | Core::Global(_) => Ok(()),
        Core::Lambda(number) => put_lines_of_lambda(walk, levels, out, *number),
        Core::If(test, then, other) => {
            put_lines(walk, levels, out, test.get())?;
            put_lines(walk, levels, out, then.get())?;
            put_lines(walk, levels, out, other.get())
        }
        Core::SetLocal(_, value) | Core::SetGlobal(_, value) | Core::DefGlobal(_, value) => {
            put_lines(walk, levels, out, value.get())
        }
        Core::Let(_, values, body) => {
            let order = order_of_all(walk.alloc, walk.marked, values.as_slice())?;
            put_line(out, expr, order)?;
            put_lines_of_all(walk, levels, out, values.as_slice())?;
            put_lines(walk, levels, out, body.get())
        }
        Core::Letrec(_, numbers, body) => {
            put_lines_of_lambdas(walk, levels, out, numbers.as_slice())?;
            put_lines(walk, levels, out, body.get())
        }
        Core::Seq(exprs) => put_lines_of_all(walk, levels, out, exprs.as_slice()),
        Core::Call(operator, operands) => {
            let order = order_with(walk.alloc, walk.marked, operator.get(), operands.as_slice())?;
            put_line(out, expr, order)?;
            put_lines(walk, levels, out, operator.get())?;
            put_lines_of_all(walk, levels, out, operands.as_slice())
        }
        Core::Prim(_, operands) => {
            let order = order_of_all(walk.alloc, walk.marked, operands.as_slice())?;
            put_line(out, expr, order)?;
            put_lines_of_all(walk, levels, out, operands.as_slice())
        }
        Core::Apply(procedure, list) => {
            let operands = slice::from_ref(list.get());
            let order = order_with(walk.alloc, walk.marked, procedure.get(), operands)?;
            put_line(out, expr, order)?;
            put_lines(walk, levels, out, procedure.get())?;
            put_lines(walk, levels, out, list.get())
        }
    }
}

/// The same of these expressions, one after another.
#[cycle(lines)]
#[tactic(auto, using(crate::proofs::Views::viewing))]
fn put_lines_of_all(
    walk: Walk,
    levels: u32,
    out: &mut Vec<OrderLine>,
    exprs: &[Expr],
) -> Result<(), NoMemory>
    requires { levels ≤ 1000 }
    ensures { OnOk result (map view_line out.new.items ≡ map view_line out.old.items ++ orders.lines_all (marks walk.entry) (lines_inside walk.entry) (trees (map view exprs.now))) }
{
    for expr in exprs {
        put_lines(walk, levels, out, expr)?;
    }
    Ok(())
}

/// The same of the lambda expressions of a `letrec`, one after another.
#[cycle(lines)]
#[tactic(auto, using(crate::proofs::Views::viewing))]
fn put_lines_of_lambdas(
    walk: Walk,
    levels: u32,
    out: &mut Vec<OrderLine>,
    numbers: &[LambdaId],
) -> Result<(), NoMemory>
    requires { levels ≤ 1000 }
    ensures { OnOk result (map view_line out.new.items ≡ map view_line out.old.items ++ orders.lines_of_lambdas (lines_inside walk.entry) numbers.now) }
{
    for number in numbers {
        put_lines_of_lambda(walk, levels, out, *number)?;
    }
    Ok(())
}

/// The same of a lambda expression by its number.
#[cycle(lines)]
#[tactic(auto, using(crate::proofs::Views::viewing))]
fn put_lines_of_lambda(
    walk: Walk,
    levels: u32,
    out: &mut Vec<OrderLine>,
    number: LambdaId,
) -> Result<(), NoMemory>
    requires { levels ≤ 1000 }
    ensures { OnOk result (map view_line out.new.items ≡ map view_line out.old.items ++ lines_inside walk.entry number) }
{
    let number = number as usize;
    if number < walk.first || walk.lambdas.len() <= number - walk.first {
        return Ok(());
    }
    let index = number - walk.first;
    let lambda = &walk.lambdas[index];
    let inside = Walk {
        alloc: walk.alloc,
        marked: walk.marked,
        lambdas: after(walk.lambdas, index),
        first: number + 1,
    };
    put_lines(inside, levels, out, &lambda.body)
}

/// The order in which the operands of a program are evaluated: a line for each call, primitive use, application
/// and `let`, in written order, with the numbers of the operands that are not simple, ascending, and then of
/// those that are. Operand 0 of a call is its operator. Want of memory is also the answer where nodes nest deeper
/// than 1,000, or a node has an operand past number 65,535, which `check` refuses.
pub fn operand_order(alloc: Global, program: &Program) -> Result<Order, NoMemory>
    ensures { IfOk result (λ order. map view_line order ≡ orders.order_of (view_program program.now)) }
{
    let assigned = targets(alloc, program)?;
    let marked = table(alloc, assigned.as_slice())?;
    let mut out = Vec::new(alloc);
    let walk = Walk {
        alloc,
        marked: marked.as_slice(),
        lambdas: program.lambdas.as_slice(),
        first: 0,
    };
    put_lines_of_all(walk, MAX_DEPTH, &mut out, program.forms.as_slice())?;
    Ok(Row::from_vec(out))
}
