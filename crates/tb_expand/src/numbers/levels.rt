//! Levels of nodes, so that no walk over deep nodes exhausts the stack.
ghost use Rattle.std.specs.Prelude.{◌≡◌, ◌+◌, IfOk};

use tb_prim::NoMemory;

/// The most levels of nodes that a walk goes down. The limits while expanding allow 1,000.
pub const MAX_LEVELS: u32 = 1_004;

/// The levels below a node, or want of memory where there are none.
pub fn levels_below(levels: u32) -> Result<u32, NoMemory>
    ensures { IfOk result (λ below. below + 1 ≡ levels) }
{
    levels.checked_sub(1).ok_or(NoMemory)
}
