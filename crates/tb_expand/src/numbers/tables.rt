//! Tables of the variables and the globals of a text, in the order of their numbers.
ghost use Rattle.std.specs.Prelude.{◌≡◌, IfOk, OnOk, Some, map};
ghost use Rattle.tb_expand.specs.Numbers as spec;
ghost use Rattle.tb_expand.specs.View.{nodes as nodes_of, view, view_core, view_option, view_variable};
ghost use Rattle.tb_expand.specs.calls.Numbering.{seen, seen_each, seen_global, seen_in, seen_option, seen_variable, seen_variables, view_key, view_tables};

use super::super::name::Variable;
use super::super::tree::{Core, Node};
use super::levels::{MAX_LEVELS, levels_below};
use indexmap::IndexSet;
use std::alloc::Global;
use tb_prim::NoMemory;

/// A variable as the key of a table.
#[derive(Clone, Copy, Debug, PartialEq, Eq, Hash)]
pub struct Key<'a> {
    pub scope: usize,
    pub text: &'a [u8],
    pub alias: u32,
}

/// The variables and the globals of a text, each once, in the order of their first occurrences.
#[derive(Debug, Drop)]
pub struct Tables<'a> {
    pub variables: IndexSet<Key<'a>>,
    pub globals: IndexSet<&'a [u8]>,
}

/// A variable as a key.
fn key_of<'a>(variable: Variable<'a>) -> Key<'a>
    ensures { view_key result ≡ view_variable variable.entry }
{
    Key {
        scope: variable.scope,
        text: variable.name.text,
        alias: variable.name.alias,
    }
}

/// Puts a variable behind the others, if it is not among them.
fn note_variable<'a>(tables: &mut Tables<'a>, variable: Variable<'a>) -> Result<(), NoMemory>
    ensures { OnOk result (view_tables tables.new ≡ seen_variable (view_tables tables.old) (view_variable variable.entry)) }
{
    tables.variables.insert(key_of(variable))?;
    Ok(())
}

/// Puts a global behind the others, if it is not among them.
fn note_global<'a>(tables: &mut Tables<'a>, name: &'a [u8]) -> Result<(), NoMemory>
    ensures { OnOk result (view_tables tables.new ≡ seen_global (view_tables tables.old) name.now) }
{
    tables.globals.insert(name)?;
    Ok(())
}

/// Puts these variables behind the others, each if it is not among them.
fn note_variables<'a>(tables: &mut Tables<'a>, variables: &[Variable<'a>]) -> Result<(), NoMemory>
    ensures { OnOk result (view_tables tables.new ≡ seen_variables (view_tables tables.old) (map view_variable variables.now)) }
{
    for variable in variables {
        note_variable(tables, *variable)?;
    }
    Ok(())
}

/// Puts a rest parameter behind the other variables, if there is one.
fn note_rest<'a>(tables: &mut Tables<'a>, rest: &Option<Variable<'a>>) -> Result<(), NoMemory>
    ensures { OnOk result (view_tables tables.new ≡ seen_option (view_tables tables.old) (view_option rest.now)) }
{
    match rest {
        None => Ok(()),
        Some(variable) => note_variable(tables, *variable),
    }
}

/// Puts the variables and the globals of a node behind the others, in written order. Goes no deeper than `levels`
/// nodes, and answers want of memory at a node below.
#[cycle(note)]
#[tactic(auto, using(crate::proofs::Tables::seeing))]
fn note_node<'a>(tables: &mut Tables<'a>, levels: u32, node: &Node<'a>) -> Result<(), NoMemory>
    ensures { OnOk result (view_tables tables.new ≡ seen (view_tables tables.old) (view node.now)) }
{
    note_core(tables, levels_below(levels)?, &node.core)
}

#[cycle(note)]
#[tactic(auto, using(crate::proofs::Tables::seeing))]
fn note_core<'a>(tables: &mut Tables<'a>, levels: u32, core: &Core<'a>) -> Result<(), NoMemory>
    ensures { OnOk result (view_tables tables.new ≡ seen_in (view_tables tables.old) (view_core core.now)) }
{
    match core {
        Core::Constant(_) | Core::Unspecified | Core::Undefined => Ok(()),
        Core::Local(variable) => note_variable(tables, *variable),
        Core::Global(name) => note_global(tables, name),
        Core::Lambda(formals, rest, body) => {
            note_variables(tables, formals.as_slice())?;
            note_rest(tables, rest)?;
            note_node(tables, levels, body.get())
        }
        Core::If(test, then, other) => {
            note_node(tables, levels, test.get())?;
            note_node(tables, levels, then.get())?;
            note_node(tables, levels, other.get())
        }
        Core::SetLocal(variable, value) => {
            note_variable(tables, *variable)?;
            note_node(tables, levels, value.get())
        }
        Core::SetGlobal(_, name, value) | Core::DefGlobal(name, value) => {
            note_global(tables, name)?;
            note_node(tables, levels, value.get())
        }
        Core::Let(variables, values, body) => {
            note_variables(tables, variables.as_slice())?;
            note_each(tables, levels, values.as_slice())?;
            note_node(tables, levels, body.get())
        }
        Core::Letrec(variables, values, body) => {
            note_variables(tables, variables.as_slice())?;
            note_values(tables, levels, values.as_slice())?;
            note_node(tables, levels, body.get())
        }
        Core::Seq(nodes) | Core::Prim(_, nodes) => note_each(tables, levels, nodes.as_slice()),
        Core::Call(operator, operands) => {
            note_node(tables, levels, operator.get())?;
            note_each(tables, levels, operands.as_slice())
        }
        Core::Apply(procedure, list) => {
            note_node(tables, levels, procedure.get())?;
            note_node(tables, levels, list.get())
        }
    }
}

#[cycle(note)]
#[tactic(auto, using(crate::proofs::Tables::seeing))]
fn note_each<'a>(tables: &mut Tables<'a>, levels: u32, nodes: &[Node<'a>]) -> Result<(), NoMemory>
    ensures { OnOk result (view_tables tables.new ≡ seen_each (view_tables tables.old) (map view nodes.now)) }
{
    for node in nodes {
        note_node(tables, levels, node)?;
    }
    Ok(())
}

/// The same of lambda expressions that a `letrec` binds, whose bodies are one level below it.
#[cycle(note)]
#[tactic(auto, using(crate::proofs::Tables::seeing))]
fn note_values<'a>(
    tables: &mut Tables<'a>,
    levels: u32,
    values: &[Node<'a>],
) -> Result<(), NoMemory>
    ensures { OnOk result (view_tables tables.new ≡ seen_each (view_tables tables.old) (map view values.now)) }
{
    for value in values {
        note_core(tables, levels, &value.core)?;
    }
    Ok(())
}

/// The variables and the globals of a text, each once, in the order of their first occurrences.
pub fn tables_of<'a>(alloc: Global, nodes: &[Node<'a>]) -> Result<Tables<'a>, NoMemory>
    ensures { IfOk result (λ t. view_tables t ≡ spec.tables_of (nodes_of (map view nodes.now))) }
{
    let mut tables = Tables {
        variables: IndexSet::new(alloc),
        globals: IndexSet::new(alloc),
    };
    note_each(&mut tables, MAX_LEVELS, nodes)?;
    Ok(tables)
}

/// An index as a number, or want of memory where there is none or it does not fit.
fn number_at(index: Option<usize>) -> Result<u32, NoMemory>
    ensures { IfOk result (λ n. index ≡ Some n) }
{
    match index {
        None => Err(NoMemory),
        Some(index) => u32::try_from(index).map_err(|_| NoMemory),
    }
}

/// The number of a variable, or want of memory where it does not fit or the table has no such variable.
pub fn variable_number(tables: &Tables, variable: Variable) -> Result<u32, NoMemory>
    ensures { IfOk result (λ n. n ≡ spec.variable_number (view_tables tables.now) (view_variable variable.entry)) }
{
    let number = number_at(tables.variables.get_index_of(&key_of(variable)))?;
    Ok(number)
}

/// The number of a global, or want of memory where it does not fit or the table has no such global.
pub fn global_number(tables: &Tables, name: &[u8]) -> Result<u32, NoMemory>
    ensures { IfOk result (λ n. n ≡ spec.global_number (view_tables tables.now) name.now) }
{
    let number = number_at(tables.globals.get_index_of(name))?;
    Ok(number)
}
