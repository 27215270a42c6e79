//! The nodes of a text with their numbers.
ghost use Rattle.std.specs.Prelude.{◌≡◌, IfOk, OnOk, map};
ghost use Rattle.tb_core.specs.Plain as plain;
ghost use Rattle.tb_expand.specs.Numbers as spec;
ghost use Rattle.tb_expand.specs.View.{nodes as nodes_of, view, view_core, view_option, view_variable};
ghost use Rattle.tb_expand.specs.calls.Numbering.{lambda_tree, made, made_each, made_in, made_values, so_far, tree, tree_in, trees_each, value_numbers, view_tables};

use super::super::name::Variable;
use super::super::tree::{Core, Node};
use super::levels::levels_below;
use super::numbering::{Numbering, close_lambda, next_lambda, next_node, open_lambda, place};
use super::tables::{Tables, global_number, variable_number};
use sqlite_items::Boxed;
use std::alloc::Global;
use tb_core::{Core as NumberedCore, Expr, ExprRow, Lambda, LambdaIdRow, VarId, VarRow};
use tb_prim::{Const, NoMemory, Place, Row};

/// The numbers of these variables.
fn variable_numbers(
    alloc: Global,
    tables: &Tables,
    variables: &[Variable],
) -> Result<VarRow, NoMemory>
    ensures { IfOk result (λ row. row ≡ spec.variable_numbers (view_tables tables.now) (map view_variable variables.now)) }
{
    let mut out = Vec::new(alloc);
    for variable in variables {
        out.push(variable_number(tables, *variable)?)?;
    }
    Ok(Row::from_vec(out))
}

/// The number of a rest parameter, if there is one.
fn rest_number(tables: &Tables, rest: &Option<Variable>) -> Result<Option<VarId>, NoMemory>
    ensures { IfOk result (λ o. o ≡ spec.option_number (view_tables tables.now) (view_option rest.now)) }
{
    match rest {
        None => Ok(None),
        Some(variable) => Ok(Some(variable_number(tables, *variable)?)),
    }
}

/// A lambda expression at this place with its numbers.
fn lambda_of(
    alloc: Global,
    tables: &Tables,
    place: Place,
    formals: &[Variable],
    rest: &Option<Variable>,
    body: Expr,
) -> Result<Lambda, NoMemory>
    ensures { IfOk result (λ l. plain.view_lambda l ≡ lambda_tree (view_tables tables.now) place (map view_variable formals.now) (view_option rest.now) (plain.view body)) }
{
    Ok(Lambda {
        place,
        formals: variable_numbers(alloc, tables, formals)?,
        rest: rest_number(tables, rest)?,
        body,
    })
}

/// A node with its numbers. Goes no deeper than `levels` nodes, and answers want of memory at a node below.
#[cycle(number)]
#[tactic(auto, using(crate::proofs::Numbering::numbering))]
fn number_node<'a>(
    alloc: Global,
    tables: &Tables,
    levels: u32,
    state: &mut Numbering<'a>,
    node: &Node<'a>,
) -> Result<Expr, NoMemory>
    ensures tree { IfOk result (λ e. plain.view e ≡ tree (view_tables tables.now) (so_far state.old) (view node.now)) }
    ensures state { OnOk result (so_far state.new ≡ made (view_tables tables.now) (so_far state.old) (view node.now)) }
{
    let levels = levels_below(levels)?;
    let site = next_node(state)?;
    let core = number_core(alloc, tables, levels, state, node.place, &node.core)?;
    Ok(Expr {
        place: node.place,
        site,
        core,
    })
}

/// The same as a part of another node.
#[cycle(number)]
#[tactic(auto, using(crate::proofs::Numbering::numbering))]
fn number_part<'a>(
    alloc: Global,
    tables: &Tables,
    levels: u32,
    state: &mut Numbering<'a>,
    node: &Node<'a>,
) -> Result<Boxed<Expr>, NoMemory>
    ensures tree { IfOk result (λ e. plain.view e ≡ tree (view_tables tables.now) (so_far state.old) (view node.now)) }
    ensures state { OnOk result (so_far state.new ≡ made (view_tables tables.now) (so_far state.old) (view node.now)) }
{
    let levels = levels_below(levels)?;
    let site = next_node(state)?;
    let core = number_core(alloc, tables, levels, state, node.place, &node.core)?;
    let expr = Expr {
        place: node.place,
        site,
        core,
    };
    Ok(Boxed::new(alloc, expr)?)
}

/// The same of what a node at this place is.
#[cycle(number)]
#[tactic(auto, using(crate::proofs::Numbering::numbering))]
fn number_core<'a>(
    alloc: Global,
    tables: &Tables,
    levels: u32,
    state: &mut Numbering<'a>,
    at: Place,
    core: &Core<'a>,
) -> Result<NumberedCore, NoMemory>
    ensures tree { IfOk result (λ c. plain.view_core c ≡ tree_in (view_tables tables.now) (so_far state.old) (view_core core.now)) }
    ensures state { OnOk result (so_far state.new ≡ made_in (view_tables tables.now) (so_far state.old) at (view_core core.now)) }
{
    match core {
        Core::Constant(node) => Ok(NumberedCore::Quote(place(alloc, state, node)?)),
        Core::Unspecified => Ok(NumberedCore::Quote(Const::Unspecified)),
        Core::Undefined => Ok(NumberedCore::Quote(Const::Undefined)),
        Core::Local(variable) => Ok(NumberedCore::Local(variable_number(tables, *variable)?)),
        Core::Global(name) => Ok(NumberedCore::Global(global_number(tables, name)?)),
        Core::Lambda(formals, rest, body) => {
            let number = open_lambda(alloc, state, at)?;
            let body = number_node(alloc, tables, levels, state, body.get())?;
            let lambda = lambda_of(alloc, tables, at, formals.as_slice(), rest, body)?;
            close_lambda(state, number, lambda);
            Ok(NumberedCore::Lambda(number))
        }
        Core::If(test, then, other) => {
            let test = number_part(alloc, tables, levels, state, test.get())?;
            let then = number_part(alloc, tables, levels, state, then.get())?;
            let other = number_part(alloc, tables, levels, state, other.get())?;
            Ok(NumberedCore::If(test, then, other))
        }
        Core::SetLocal(variable, value) => {
            let number = variable_number(tables, *variable)?;
            let value = number_part(alloc, tables, levels, state, value.get())?;
            Ok(NumberedCore::SetLocal(number, value))
        }
        Core::SetGlobal(_, name, value) => {
            let number = global_number(tables, name)?;
            let value = number_part(alloc, tables, levels, state, value.get())?;
            Ok(NumberedCore::SetGlobal(number, value))
        }
        Core::DefGlobal(name, value) => {
            let number = global_number(tables, name)?;
            let value = number_part(alloc, tables, levels, state, value.get())?;
            Ok(NumberedCore::DefGlobal(number, value))
        }
        Core::Let(variables, values, body) => {
            let numbers = variable_numbers(alloc, tables, variables.as_slice())?;
            let values = number_each(alloc, tables, levels, state, values.as_slice())?;
            let body = number_part(alloc, tables, levels, state, body.get())?;
            Ok(NumberedCore::Let(numbers, values, body))
        }
        Core::Letrec(variables, values, body) => {
            let numbers = variable_numbers(alloc, tables, variables.as_slice())?;
            let lambdas = number_values(alloc, tables, levels, state, values.as_slice())?;
            let body = number_part(alloc, tables, levels, state, body.get())?;
            Ok(NumberedCore::Letrec(numbers, lambdas, body))
        }
        Core::Seq(nodes) => {
            let exprs = number_each(alloc, tables, levels, state, nodes.as_slice())?;
            Ok(NumberedCore::Seq(exprs))
        }
        Core::Call(operator, operands) => {
            let operator = number_part(alloc, tables, levels, state, operator.get())?;
            let operands = number_each(alloc, tables, levels, state, operands.as_slice())?;
            Ok(NumberedCore::Call(operator, operands))
        }
        Core::Prim(prim, operands) => {
            let operands = number_each(alloc, tables, levels, state, operands.as_slice())?;
            Ok(NumberedCore::Prim(*prim, operands))
        }
        Core::Apply(procedure, list) => {
            let procedure = number_part(alloc, tables, levels, state, procedure.get())?;
            let list = number_part(alloc, tables, levels, state, list.get())?;
            Ok(NumberedCore::Apply(procedure, list))
        }
    }
}

/// The same of these nodes, one after another.
#[cycle(number)]
#[tactic(auto, using(crate::proofs::Numbering::numbering))]
pub fn number_each<'a>(
    alloc: Global,
    tables: &Tables,
    levels: u32,
    state: &mut Numbering<'a>,
    nodes: &[Node<'a>],
) -> Result<ExprRow, NoMemory>
    ensures trees { IfOk result (λ row. map plain.view row ≡ trees_each (view_tables tables.now) (so_far state.old) (map view nodes.now)) }
    ensures state { OnOk result (so_far state.new ≡ made_each (view_tables tables.now) (so_far state.old) (map view nodes.now)) }
{
    let mut out = Vec::new(alloc);
    for node in nodes {
        out.push(number_node(alloc, tables, levels, state, node)?)?;
    }
    Ok(Row::from_vec(out))
}

/// The numbers of lambda expressions that a `letrec` binds, which have no nodes of their own.
#[cycle(number)]
#[tactic(auto, using(crate::proofs::Numbering::numbering))]
fn number_values<'a>(
    alloc: Global,
    tables: &Tables,
    levels: u32,
    state: &mut Numbering<'a>,
    values: &[Node<'a>],
) -> Result<LambdaIdRow, NoMemory>
    ensures numbers { IfOk result (λ row. row ≡ value_numbers (view_tables tables.now) (so_far state.old) (map view values.now)) }
    ensures state { OnOk result (so_far state.new ≡ made_values (view_tables tables.now) (so_far state.old) (map view values.now)) }
{
    let mut out = Vec::new(alloc);
    for value in values {
        out.push(next_lambda(state)?)?;
        number_core(alloc, tables, levels, state, value.place, &value.core)?;
    }
    Ok(Row::from_vec(out))
}
