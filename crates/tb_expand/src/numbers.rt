//! The program of a text: its nodes with their numbers.
ghost use Rattle.std.specs.Prelude.{◌≡◌, IfOk, map};
ghost use Rattle.tb_core.specs.Plain.{plain_program};
ghost use Rattle.tb_expand.specs.Numbers.{global_name, program_of};
ghost use Rattle.tb_expand.specs.View.{nodes as nodes_of, text_of, view};

mod levels;
mod nodes;
mod numbering;
mod statics;
mod tables;

use super::tree::Node;
use levels::MAX_LEVELS;
use nodes::number_each;
use numbering::{Numbering, nothing_numbered};
use statics::Statics;
use std::alloc::Global;
use tables::tables_of;
use tb_core::{ExprRow, LambdaRow};
use tb_prim::{Bytes, GlobalName, NameRow, NoMemory, Row, StaticRow};

/// The parts of a program: the names of its globals, its constants, its lambda expressions in the order of their
/// numbers, and its top-level forms.
#[derive(Debug, Drop)]
pub struct Numbered {
    pub globals: NameRow,
    pub statics: StaticRow,
    pub lambdas: LambdaRow,
    pub forms: ExprRow,
}

/// The names of globals, all of the library or none.
fn global_names(alloc: Global, library: bool, names: &[&[u8]]) -> Result<NameRow, NoMemory>
    ensures { IfOk result (λ row. row ≡ map (global_name library) (map text_of names.now)) }
{
    let mut out = Vec::new(alloc);
    for name in names {
        out.push(GlobalName {
            library,
            name: Bytes::new(alloc, name)?,
        })?;
    }
    Ok(Row::from_vec(out))
}

/// The program of a text that means these nodes: globals, variables, symbols, lambda expressions and nodes are
/// numbered by first occurrence in written order, static objects as they are finished. Linear in the nodes apart from
/// look-ups. Want of memory is also the answer where a number does not fit its type, or where nodes nest deeper than
/// `MAX_LEVELS`.
pub(crate) fn number(alloc: Global, library: bool, nodes: &[Node]) -> Result<Numbered, NoMemory>
    ensures { IfOk result (λ n. plain_program n.globals n.statics n.lambdas n.forms ≡ program_of library (nodes_of (map view nodes.now))) }
{
    let tables = tables_of(alloc, nodes)?;
    let mut state = nothing_numbered(alloc);
    let forms = number_each(alloc, &tables, MAX_LEVELS, &mut state, nodes)?;
    let globals = global_names(alloc, library, tables.globals.as_slice())?;
    let Numbering {
        lambdas,
        statics,
        ..
    } = state;
    let Statics { objects, .. } = statics;
    Ok(Numbered {
        globals,
        statics: Row::from_vec(objects),
        lambdas: Row::from_vec(lambdas),
        forms,
    })
}
