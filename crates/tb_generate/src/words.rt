//! The captured words of procedures.
ghost use Rattle.std.specs.Prelude.{◌≡◌, ◌++◌, OnOk};
ghost use Rattle.tb_generate.specs.calls.Bodies.{body_at, home_at, captured_at};
ghost use Rattle.tb_generate.specs.calls.Items.{one_word};

use super::bits::{RESULT, one_register, with_register};
use super::body::{Body, home};
use super::put::{Code, put};
use tb_core::VarId;
use tb_mac::Instr;
use tb_prim::NoMemory;

/// Puts the captured word with this number of the procedure in RESULT.
pub(crate) fn put_word(
    body: Body,
    code: &mut Code,
    slots: &[bool],
    number: u32,
    variable: VarId,
) -> Result<(), NoMemory>
    ensures { OnOk result (code.new.items.items ≡ code.old.items.items ++ one_word (body_at body.entry) slots.now number variable) }
{
    let registers = one_register(RESULT);
    put(code, Instr::Load(1, home(body, variable)), registers, slots)?;
    put(
        code,
        Instr::CaptSet(RESULT, 1, number),
        with_register(registers, 1),
        slots,
    )
}
