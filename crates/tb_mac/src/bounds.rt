//! The bounds of code. None of these calls takes memory.

ghost use Rattle.std.specs.Prelude.{◌≡◌, ◌<◌, ◌≤◌, ◌^◌, length};
ghost use Rattle.tb_mac.specs.calls.Windows.{run_behind};
ghost use Rattle.tb_mac.specs.Bounds.{extent, frame_bound, space_bound, window_bound};

use super::{Instr, MacCode};

/// The slots of a frame that the instruction makes, or the captured words of a procedure.
fn extent(instr: Instr) -> u32
    ensures { result ≡ extent instr }
{
    match instr {
        Instr::Save(slots) => slots,
        Instr::Clo(_, captured, _) => u32::from(captured),
        _ => 0,
    }
}

/// The largest frame size or number of captured words in the code, or 0.
pub fn frame_bound(code: &MacCode) -> u32
    ensures { result ≡ frame_bound code.now.code }
{
    largest_extent(code.code.as_slice())
}

fn largest_extent(code: &[Instr]) -> u32
    ensures { result ≡ frame_bound code.now }
{
    let mut largest = 0;
    for instr in code {
        largest = extent(*instr).max(largest);
    }
    largest
}

/// The factor of the bound on space.
pub fn space_bound(code: &MacCode) -> u64
    ensures { result ≡ space_bound code.now.code }
{
    4 * (u64::from(frame_bound(code)) + 16)
}

/// How many instructions the longest procedure has, or the code before the first procedure, if that is longer.
pub fn window_bound(code: &MacCode) -> u32
    ensures { result ≡ window_bound code.now.code }
{
    longest_window(code.code.as_slice())
}

/// The length of a run of so many instructions with this one behind it; a `proc` begins another.
fn run_behind(instr: Instr, run: u32) -> u32
    requires { run < 2 ^ 24 }
    ensures { result ≡ run_behind instr run }
{
    match instr {
        Instr::Proc(_) => 1,
        _ => run + 1,
    }
}

fn longest_window(code: &[Instr]) -> u32
    requires { length code.now < 2 ^ 24 }
    ensures { result ≡ window_bound code.now }
{
    let mut longest = 0;
    let mut run = 0;
    for instr in code {
        run = run_behind(*instr, run);
        longest = run.max(longest);
    }
    longest
}
