//! The words of code, decoded once, with the groups that start at them.

ghost use Rattle.std.specs.Prelude.{◌≡◌, ◌<◌, ◌^◌, [], IfOk, length, slice_get};
ghost use Rattle.tb_sparc.specs.GroupedOf.{grouped_of};
ghost use Rattle.tb_sparcm.specs.calls.Cells.{cells_from, cells_of};

use std::alloc::{AllocError, Global};
use tb_sparc::{SparcCode, SparcInstr, decode};

/// A word of the code: its instruction, where it has one, and the number of the instruction whose group starts there.
#[derive(Clone, Copy)]
pub struct Cell {
    pub instr: Option<SparcInstr>,
    pub group: Option<u32>,
}

/// The words without their groups.
fn decoded(alloc: Global, words: &[u32]) -> Result<Vec<Cell>, AllocError>
    ensures { IfOk result (λ v. v.items ≡ cells_from [] 0 words.now) }
{
    let mut cells = Vec::with_capacity(alloc, words.len())?;
    for word in words {
        cells.push(Cell {
            instr: decode(*word),
            group: None,
        })?;
    }
    Ok(cells)
}

/// Marks the words at which groups start.
fn mark(cells: &mut [Cell], words: &[u32], starts: &[u32])
    requires decoded { cells.old ≡ cells_from [] 0 words.now }
    requires few { length starts.now < 2 ^ 24 }
    ensures { cells.new ≡ cells_from starts.now 0 words.now }
{
    for (number, start) in starts.iter().enumerate() {
        let at = *start as usize;
        if at < cells.len() {
            cells[at].group = Some(number as u32);
        }
    }
}

/// The words of code with their groups.
pub fn cells(alloc: Global, sparc: &SparcCode) -> Result<Vec<Cell>, AllocError>
    requires { length sparc.now.starts < 2 ^ 24 }
    ensures { IfOk result (λ v. v.items ≡ cells_of (grouped_of sparc.now)) }
{
    let words = sparc.words.as_slice();
    let mut cells = decoded(alloc, words)?;
    mark(&mut cells, words, sparc.starts.as_slice());
    Ok(cells)
}

/// The cell of the word with this number.
pub fn cell_at(cells: &[Cell], word: u32) -> Option<Cell>
    ensures { result ≡ slice_get cells.now word }
{
    cells.get(word as usize).copied()
}
