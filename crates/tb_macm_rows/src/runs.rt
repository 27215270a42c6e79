//! What the code of a row comes to, and whether that is what the row wants.

ghost use Rattle.std.specs.Prelude.{◌≡◌, IfOk, IfSome};
ghost use Rattle.tb_mac.specs.Layout.{start_size};

use super::code::{code_of, place_at};
use super::text::{byte, instructions, number, word};
use std::alloc::Global;
use std::str::SplitWhitespace;
use std::test::Fail;
use tb_base::{MemSink, MemSource};
use tb_mac::{MacCode, Word};
use tb_macm::{MacMachine, Step};
use tb_prim::{Cause, Event, Stop, Taken};

/// The memory of each machine, in words.
pub const WORDS: u32 = 1024;

/// The input of each run is the byte b.
const INPUT: &[u8] = b"b";

/// What a machine came to: its stop, its events, how many reads and writes failed, and whether it kept its state at each
/// of these and at each step behind its stop.
#[derive(Drop)]
struct Run {
    stop: Stop,
    events: Vec<Event>,
    faults: u32,
    kept: bool,
}

/// All that a machine shows of its state.
fn state_of(alloc: Global, machine: &MacMachine<'_>) -> Result<Vec<Word>, Fail> {
    let (heap, stack) = machine.pointers();
    let mut words = vec![in alloc;
        Word::Code(machine.pc()),
        Word::Code(heap),
        Word::Code(stack),
    ]?;
    for a in 0..17u8 {
        words.push(machine.register(a))?;
    }
    for at in 0..machine.heap_words() {
        words.push(machine.word_at(at))?;
    }
    Ok(words)
}

/// Further steps give the same stop, and leave the machine as it is.
fn stays(
    alloc: Global,
    machine: &mut MacMachine<'_>,
    stop: Stop,
    input: &mut MemSource,
    out: &mut MemSink,
) -> Result<bool, Fail> {
    let before = state_of(alloc, machine)?;
    let same = machine.step(input, out) == Step::Stopped(stop)
        && machine.run(1, input, out) == stop
        && machine.run(9, input, out) == stop
        && machine.run(0, input, out) == Stop::Steps;
    Ok(same && state_of(alloc, machine)?.as_slice() == before.as_slice())
}

/// Runs a machine to its stop, or for 1,000 steps, over reads and writes that fail.
fn run_to_stop(
    alloc: Global,
    machine: &mut MacMachine<'_>,
    input: &mut MemSource,
    out: &mut MemSink,
) -> Result<Run, Fail> {
    let mut events = Vec::new(alloc);
    let mut faults = 0u32;
    let mut kept = true;
    for _step in 0..1000 {
        let before = state_of(alloc, machine)?;
        match machine.step(input, out) {
            Step::Went(Some(event)) => events.push(event)?,
            Step::Went(None) => {}
            Step::Stopped(Stop::ReadFault | Stop::WriteFault) => {
                faults = faults.wrapping_add(1);
                kept = kept && state_of(alloc, machine)?.as_slice() == before.as_slice();
            }
            Step::Stopped(stop) => {
                let kept = kept && stays(alloc, machine, stop, input, out)?;
                return Ok(Run {
                    stop,
                    events,
                    faults,
                    kept,
                });
            }
        }
    }
    Ok(Run {
        stop: Stop::Steps,
        events,
        faults,
        kept,
    })
}

/// A cause by its name.
fn cause(name: &str) -> Option<Cause> {
    match name {
        "not-procedure" => Some(Cause::NotProcedure),
        "wrong-args" => Some(Cause::WrongArgs),
        "wrong-type" => Some(Cause::WrongType),
        "overflow" => Some(Cause::Overflow),
        "range" => Some(Cause::Range),
        "zero-divide" => Some(Cause::ZeroDivide),
        "undefined" => Some(Cause::Undefined),
        "too-many" => Some(Cause::TooMany),
        _ => None,
    }
}

/// The register with the next number holds the next word.
fn register_holds(machine: &MacMachine<'_>, words: &mut SplitWhitespace<'_>) -> Option<bool> {
    let a = number(words)?;
    let wanted = word(words)?;
    Some(a <= 16 && machine.register(a as u8) == wanted)
}

/// The memory holds the next words, from the next number on.
fn memory_holds(machine: &MacMachine<'_>, words: &mut SplitWhitespace<'_>) -> Option<bool> {
    let first = number(words)?;
    for at in first..machine.heap_words() {
        match word(words) {
            Some(wanted) if machine.word_at(at) == wanted => {}
            Some(_) => return Some(false),
            None => return Some(at != first),
        }
    }
    Some(words.next().is_none())
}

/// The next event.
fn event(words: &mut SplitWhitespace<'_>) -> Option<Event> {
    match words.next()? {
        "enter" => Some(Event::Enter(number(words)?)),
        "back" => Some(Event::Back),
        "put" => Some(Event::Put(byte(words)?)),
        "took" => Some(Event::Took(Taken::Byte(byte(words)?))),
        "took-end" => Some(Event::Took(Taken::End)),
        _ => None,
    }
}

/// These are the next events, and there are no further ones.
fn events_are(events: &[Event], words: &mut SplitWhitespace<'_>) -> bool {
    for seen in events {
        if event(words) != Some(*seen) {
            return false;
        }
    }
    words.next().is_none()
}

/// What a row wants holds; None where it is not one of the wants that are known.
fn holds(machine: &MacMachine<'_>, run: &Run, want: &str) -> Option<bool> {
    let mut words = want.split_whitespace();
    let name = words.next()?;
    let w = &mut words;
    Some(match name {
        "end" => run.stop == Stop::End,
        "steps" => run.stop == Stop::Steps,
        "fail" => {
            let cause = cause(w.next()?)?;
            run.stop == Stop::Fail(cause, place_at(number(w)?))
        }
        "full" => {
            let (pointer, stack, need) = (number(w)?, number(w)?, number(w)?);
            run.stop
                == Stop::Full {
                    pointer,
                    stack,
                    need,
                }
        }
        "stuck" => run.stop == Stop::Stuck { pc: number(w)? },
        "at" => machine.pc() == number(w)?,
        "pointers" => machine.pointers() == (number(w)?, number(w)?),
        "r" => register_holds(machine, w)?,
        "m" => memory_holds(machine, w)?,
        "events" => events_are(run.events.as_slice(), w),
        "faults" => run.faults == number(w)?,
        _ => return None,
    })
}

/// The code of two texts, one behind the other; None where one of them is not the text of code that keeps its rules.
fn code_of_texts(alloc: Global, front: &str, text: &str) -> Result<Option<MacCode>, Fail>
    ensures { IfOk result (λ o. IfSome o (λ c. start_size c.parts ≡ 16)) }
{
    let mut code = Vec::new(alloc);
    if instructions(&mut code, front)? && instructions(&mut code, text)? {
        return Ok(code_of(alloc, code.as_slice())?);
    }
    Ok(None)
}

/// What a row of a table wants holds: the code before the arrow, behind the code of `front`, comes to each of the wants
/// behind the arrow, which commas part. The reads and the writes with the numbers `fails` fail.
fn row_holds(alloc: Global, front: &str, row: &str, fails: &[u64]) -> Result<bool, Fail> {
    let Some((text, wants)) = row.split_once(" -> ") else {
        return Ok(false);
    };
    let Some(code) = code_of_texts(alloc, front, text)? else {
        return Ok(wants.trim() == "no code");
    };
    let mut machine = MacMachine::load(alloc, &code, WORDS)?;
    let mut input = MemSource::new(alloc, INPUT, fails)?;
    let mut out = MemSink::new(alloc, 16, fails)?;
    let run = run_to_stop(alloc, &mut machine, &mut input, &mut out)?;
    for want in wants.split(',') {
        if holds(&machine, &run, want) != Some(true) {
            return Ok(false);
        }
    }
    Ok(run.kept)
}

/// The first row that does not hold.
pub fn first_wrong<'a>(
    alloc: Global,
    front: &str,
    rows: &[&'a str],
    fails: &[u64],
) -> Result<Option<&'a str>, Fail> {
    for row in rows {
        if !row_holds(alloc, front, row, fails)? {
            return Ok(Some(*row));
        }
    }
    Ok(None)
}
