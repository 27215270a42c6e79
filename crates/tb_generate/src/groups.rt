//! The code of procedures that are made together.
ghost use Rattle.std.specs.Prelude.{◌≡◌, ◌++◌, OnOk};
ghost use Rattle.tb_generate.specs.calls.Bodies.{body_at, captured_at, home_at};
ghost use Rattle.tb_generate.specs.calls.Items.{all_word_items, group_items, make_items, word_items, write_items};

use super::bits::{RESULT, no_registers, number_32, one_register};
use super::body::{Body, captured, home, mark, with_slots};
use super::operations::closed;
use super::put::{Code, put};
use super::words::put_word;
use tb_core::{LambdaId, VarId};
use tb_mac::Instr;
use tb_prim::NoMemory;

/// Puts the making of each procedure and its way to the slot of its variable.
fn put_makes(
    body: Body,
    code: &mut Code,
    slots: Vec<bool>,
    variables: &[VarId],
    lambdas: &[LambdaId],
) -> Result<(), NoMemory>
    ensures { OnOk result (code.new.items.items ≡ code.old.items.items ++ make_items (body_at body.entry) slots.items variables.now lambdas.now) }
{
    let mut slots = slots;
    for index in 0..variables.len().min(lambdas.len()) {
        let variable = variables[index];
        put(
            code,
            closed(body, lambdas[index])?,
            no_registers(),
            slots.as_slice(),
        )?;
        let store = Instr::Store(RESULT, home(body, variable));
        put(code, store, one_register(RESULT), slots.as_slice())?;
        mark(body, &mut slots, &[variable]);
    }
    Ok(())
}

/// Puts the captured words of the procedure in RESULT.
fn put_words(
    body: Body,
    code: &mut Code,
    slots: &[bool],
    variables: &[VarId],
) -> Result<(), NoMemory>
    ensures { OnOk result (code.new.items.items ≡ code.old.items.items ++ word_items (body_at body.entry) slots.now 0 variables.now) }
{
    for (index, variable) in variables.iter().enumerate() {
        put_word(body, code, slots, number_32(index)?, *variable)?;
    }
    Ok(())
}

/// Puts the captured words of the procedure that a variable is bound to.
fn put_all_words(
    body: Body,
    code: &mut Code,
    variable: VarId,
    slots: &[bool],
    variables: &[VarId],
) -> Result<(), NoMemory>
    ensures { OnOk result (code.new.items.items ≡ code.old.items.items ++ all_word_items (body_at body.entry) variable slots.now variables.now) }
{
    if variables.is_empty() {
        return Ok(());
    }
    put(
        code,
        Instr::Load(RESULT, home(body, variable)),
        no_registers(),
        slots,
    )?;
    put_words(body, code, slots, variables)
}

/// Puts the captured words of each procedure.
fn put_writes(
    body: Body,
    code: &mut Code,
    slots: &[bool],
    variables: &[VarId],
    lambdas: &[LambdaId],
) -> Result<(), NoMemory>
    ensures { OnOk result (code.new.items.items ≡ code.old.items.items ++ write_items (body_at body.entry) slots.now variables.now lambdas.now) }
{
    for index in 0..variables.len().min(lambdas.len()) {
        put_all_words(
            body,
            code,
            variables[index],
            slots,
            captured(body, lambdas[index]),
        )?;
    }
    Ok(())
}

/// Puts procedures that are made together, with these slots live before it.
pub(crate) fn put_group(
    body: Body,
    code: &mut Code,
    slots: Vec<bool>,
    variables: &[VarId],
    lambdas: &[LambdaId],
) -> Result<(), NoMemory>
    ensures { OnOk result (code.new.items.items ≡ code.old.items.items ++ group_items (body_at body.entry) variables.now lambdas.now slots.items) }
{
    let all = with_slots(body, slots.as_slice(), variables)?;
    put_makes(body, code, slots, variables, lambdas)?;
    put_writes(body, code, all.as_slice(), variables, lambdas)
}
