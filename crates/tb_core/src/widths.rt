ghost use Rattle.std.specs.Prelude.{◌≡◌, IsOk};
ghost use Rattle.tb_core.specs.Limits.{judge_program};
ghost use Rattle.tb_core.specs.View.{view_program};
ghost use Rattle.tb_core.specs.Width.{width_of, square_sum};

use super::Program;
use super::limits::program_totals;

/// The largest width of a body or form of a program that keeps the limits: at most 1,000. Takes no memory.
pub fn width(program: &Program) -> u32
    requires checked { IsOk (judge_program (view_program program.now)) }
    ensures { result ≡ width_of (view_program program.now) }
{
    match program_totals(program) {
        Ok(totals) => totals.widest as u32,
        Err(_) => unreachable!(),
    }
}

/// The sum of the squared widths of the bodies and forms of a program that keeps the limits: at most 1,048,576.
/// Takes no memory.
pub fn squared_widths(program: &Program) -> u32
    requires checked { IsOk (judge_program (view_program program.now)) }
    ensures { result ≡ square_sum (view_program program.now) }
{
    match program_totals(program) {
        Ok(totals) => totals.squares as u32,
        Err(_) => unreachable!(),
    }
}
