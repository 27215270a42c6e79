//! What rows of words come to.

use super::code::{four_groups, four_instructions, one_group, one_instruction};
use std::alloc::{AllocError, Global};
use std::test::Fail;
use tb_base::{MemSink, MemSource};
use tb_prim::{Event, Stop};
use tb_sparcm::{SparcMachine, Step};

/// What words come to.
#[derive(Clone, Copy)]
pub enum Want<'a> {
    /// After so many steps the next word has this address, and this register holds this.
    Next(u64, u32, u8, u32),
    /// They stop with this.
    Stops(Stop),
    /// They leave these condition codes: negative, zero, overflow and carry, one bit each.
    Codes(u32),
    /// They leave these conditions true, each the bit of its number.
    Conditions(u32),
    /// Up to their stop they emit these events.
    Events(&'a [Event]),
}

/// Words, and what they come to.
pub type Row<'a> = (&'a [u32], Want<'a>);

/// Words, the starts of the groups of four instructions, and what the words come to.
pub type GroupRow<'a> = (&'a [u32], [u32; 4], Want<'a>);

/// The words, and behind them a test of each condition, from 15 down to 0, of which register 23 collects the answers.
fn with_conditions(alloc: Global, words: &[u32]) -> Result<Vec<u32>, AllocError> {
    let mut row = Vec::new(alloc);
    row.extend_from_slice(words)?;
    for k in 0..16u32 {
        // sll %l7, 1, %l7; a branch by condition 15 - k, b.. .+12; or %l7, 1, %l7; xor %l7, 1, %l7
        row.push(0xaf2d_e001)?;
        row.push(0x0080_0003 + ((15 - k) << 25))?;
        row.push(0xae15_e001)?;
        row.push(0xae1d_e001)?;
    }
    Ok(row)
}

/// The condition codes, where these conditions are true.
fn codes_of(conditions: u32) -> u32 {
    let bit = |k: u32| conditions >> k & 1;
    bit(6) * 8 + bit(1) * 4 + bit(7) * 2 + bit(5)
}

/// The events up to the stop, or of 1,000 steps.
fn events_of(
    alloc: Global,
    machine: &mut SparcMachine<'_>,
    input: &mut MemSource,
    out: &mut MemSink,
) -> Result<Vec<Event>, AllocError> {
    let mut events = Vec::new(alloc);
    for _step in 0..1000 {
        match machine.step(input, out) {
            Step::Went(Some(event)) => events.push(event)?,
            Step::Went(None) => {}
            Step::Stopped(_) => return Ok(events),
        }
    }
    Ok(events)
}

/// The machine comes to what is wanted, with the byte b as its input.
fn comes(alloc: Global, machine: &mut SparcMachine<'_>, want: Want<'_>) -> Result<bool, Fail> {
    let mut input = MemSource::new(alloc, b"b", &[])?;
    let mut out = MemSink::new(alloc, 16, &[])?;
    match want {
        Want::Next(steps, address, register, word) => {
            let stop = machine.run(steps, &mut input, &mut out);
            Ok(
                stop == Stop::Steps
                    && machine.pc() == address
                    && register < 32
                    && machine.register(register) == word,
            )
        }
        Want::Stops(stop) => Ok(machine.run(1000, &mut input, &mut out) == stop),
        Want::Codes(codes) => {
            machine.run(1000, &mut input, &mut out);
            Ok(codes_of(machine.register(23)) == codes)
        }
        Want::Conditions(conditions) => {
            machine.run(1000, &mut input, &mut out);
            Ok(machine.register(23) == conditions)
        }
        Want::Events(events) => {
            Ok(events_of(alloc, machine, &mut input, &mut out)?.as_slice() == events)
        }
    }
}

/// The words come to what is wanted, in one group.
fn row_comes(alloc: Global, words: &[u32], want: Want<'_>) -> Result<bool, Fail> {
    let code = one_instruction(alloc)?;
    let Some(sparc) = one_group(alloc, words)? else {
        return Ok(false);
    };
    let mut machine = SparcMachine::load(alloc, &code, &sparc, 1024)?;
    comes(alloc, &mut machine, want)
}

/// The words come to what is wanted, in four groups.
fn groups_come(
    alloc: Global,
    words: &[u32],
    starts: [u32; 4],
    want: Want<'_>,
) -> Result<bool, Fail> {
    let code = four_instructions(alloc)?;
    let Some(sparc) = four_groups(alloc, words, starts)? else {
        return Ok(false);
    };
    let mut machine = SparcMachine::load(alloc, &code, &sparc, 1024)?;
    comes(alloc, &mut machine, want)
}

/// The number of the first row whose words come to something else.
pub fn first_wrong(alloc: Global, rows: &[Row<'_>]) -> Result<Option<usize>, Fail> {
    for (index, (words, want)) in rows.iter().enumerate() {
        let comes = match *want {
            Want::Codes(_) | Want::Conditions(_) => {
                row_comes(alloc, with_conditions(alloc, words)?.as_slice(), *want)?
            }
            _ => row_comes(alloc, words, *want)?,
        };
        if !comes {
            return Ok(Some(index));
        }
    }
    Ok(None)
}

/// The same of rows in four groups.
pub fn first_wrong_group(alloc: Global, rows: &[GroupRow<'_>]) -> Result<Option<usize>, Fail> {
    for (index, (words, starts, want)) in rows.iter().enumerate() {
        if !groups_come(alloc, words, *starts, *want)? {
            return Ok(Some(index));
        }
    }
    Ok(None)
}
