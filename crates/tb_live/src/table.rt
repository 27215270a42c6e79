//! The table of the variables that are free from each block of a body on.
ghost use Rattle.std.specs.Prelude.{◌≡◌, ◌^◌, ◌-◌, ◌<◌, length, min, IfOk};
ghost use Rattle.tb_ir.specs.View.{view_anf};
ghost use Rattle.tb_live.specs.Live.{pressure_of, rows_at};

use super::captures::{Source, lambda_index};
use super::rows::put_body;
use std::alloc::Global;
use tb_core::VarRow;
use tb_ir::Anf;
use tb_prim::{NoMemory, Row};

/// One row for each block of a body, in written order: the variables that are free from there on, each once, in the
/// order of their first use.
pub type LiveTable = Row<VarRow>;

/// The table of the body of a proc: for each block the variables that are free from there on, what its lambda
/// expressions capture among them. Want of memory is also the answer where a block stands under more than 3,999
/// others, after them or in their branches. It goes over each block once, and takes time in proportion to the atoms,
/// captured variables and rows of the body, and to the number of procs.
pub fn live(alloc: Global, anf: &Anf, at: u32) -> Result<LiveTable, NoMemory>
    requires { at < length anf.now.procs }
    ensures rows { IfOk result (λ table. table ≡ rows_at (view_anf anf.now) at) }
{
    let procs = anf.procs.as_slice();
    let lambdas = lambda_index(alloc, procs)?;
    let source = Source {
        alloc,
        procs,
        lambdas: &lambdas,
    };
    let mut rows = Vec::new(alloc);
    put_body(source, &mut rows, &procs[at as usize].body)?;
    rows.reverse();
    Ok(Row::from_vec(rows))
}

/// A length as a number of 32 bits, the greatest of them for one that is greater.
fn length_32(length: usize) -> u32
    ensures { result ≡ min length (2 ^ 32 - 1) }
{
    u32::try_from(length).unwrap_or(u32::MAX)
}

/// The length of the longest of these rows, 0 of none, or the greatest number of 32 bits if that is less.
fn longest(rows: &[VarRow]) -> u32
    ensures { result ≡ min (pressure_of rows.now) (2 ^ 32 - 1) }
{
    let mut longest = 0;
    for row in rows {
        longest = length_32(row.as_slice().len()).max(longest);
    }
    longest
}

/// The length of the longest row, 0 of none. Takes no memory. Where a row has more than 2^32 - 1 variables it is
/// 2^32 - 1.
pub fn pressure(table: &LiveTable) -> u32
    ensures { result ≡ min (pressure_of table.now) (2 ^ 32 - 1) }
{
    longest(table.as_slice())
}
