//! The code of lambdas and of top-level forms.
ghost use Rattle.std.specs.Prelude.{◌≡◌, ◌+◌, ◌++◌, ◌∷◌, [], nat_eq, IfOk, OnOk};
ghost use Rattle.indexmap.specs.IndexSet.{contains};
ghost use Rattle.tb_ir.specs.AnfPlain.{view_block, view_proc};
ghost use Rattle.tb_codegen.specs.Generate.{counting, labels_in};
ghost use Rattle.tb_generate.specs.calls.Bodies.{body_at};
ghost use Rattle.tb_generate.specs.calls.Entries.{captured_items, entry_items, entry_registers, form_items, frame_items, itself_bits, lambda_items, no_slots, parameter_bits, parameter_item, parameter_items, parameter_slots};

use super::bits::{RESULT, Registers, no_registers, number_32, register_of, with_register};
use super::blocks::put_block;
use super::body::{Body, home, mark, with_slots};
use super::free::{MAX_DEPTH, block_free};
use super::put::{Code, put, put_away, put_label};
use super::waiting::{Ending, Waiting};
use indexmap::IndexSet;
use tb_core::VarId;
use tb_ir::AnfProc;
use tb_mac::Instr;
use tb_prim::{NoMemory, Row};

/// So many slots, none of which is live.
fn no_slots(body: Body) -> Result<Vec<bool>, NoMemory>
    ensures { IfOk result (λ slots. slots.items ≡ no_slots body.entry.size) }
{
    let mut slots = Vec::new(body.alloc);
    slots.resize(body.size as usize, false)?;
    Ok(slots)
}

/// These registers, and those of the parameters that are named, from a register on.
fn parameter_registers(
    named: &IndexSet<VarId>,
    registers: Registers,
    first: u8,
    params: &[VarId],
) -> Result<Registers, NoMemory>
    ensures { IfOk result (λ rs. rs ≡ parameter_bits (contains nat_eq named.now) registers first params.now) }
{
    let mut registers = registers;
    for (index, param) in params.iter().enumerate() {
        if named.contains(param) {
            registers = with_register(registers, register_of(index + usize::from(first))?);
        }
    }
    Ok(registers)
}

/// These registers, and that of the procedure while captured variables are left.
fn with_itself(captured: &[VarId], registers: Registers) -> Registers
    ensures { result ≡ itself_bits captured.now registers }
{
    if captured.is_empty() {
        registers
    } else {
        with_register(registers, 0)
    }
}

/// Puts the way of captured variables to their slots.
fn put_captured(
    body: Body,
    code: &mut Code,
    operands: Registers,
    slots: Vec<bool>,
    captured: &[VarId],
) -> Result<(), NoMemory>
    ensures { OnOk result (code.new.items.items ≡ code.old.items.items ++ captured_items (body_at body.entry) operands slots.items 0 captured.now) }
{
    let mut slots = slots;
    for (index, variable) in captured.iter().enumerate() {
        let load = Instr::Capt(RESULT, 0, number_32(index)?);
        put(code, load, with_register(operands, 0), slots.as_slice())?;
        let left = with_itself(&captured[index + 1..], operands);
        let store = Instr::Store(RESULT, home(body, *variable));
        put(code, store, with_register(left, RESULT), slots.as_slice())?;
        mark(body, &mut slots, &[*variable]);
    }
    Ok(())
}

/// Puts the way of an operand to the slot of its parameter, where that is named.
fn put_parameter(
    body: Body,
    code: &mut Code,
    named: &IndexSet<VarId>,
    slots: &mut Vec<bool>,
    register: u8,
    param: VarId,
    left: &[VarId],
) -> Result<(), NoMemory>
    ensures items { OnOk result (code.new.items.items ≡ code.old.items.items ++ parameter_item (body_at body.entry) (contains nat_eq named.now) slots.old.items register param left.now) }
    ensures slots { OnOk result (slots.new.items ≡ parameter_slots (body_at body.entry) (contains nat_eq named.now) slots.old.items param) }
{
    if named.contains(&param) {
        let registers = parameter_registers(named, no_registers(), register, left)?;
        let store = Instr::Store(register, home(body, param));
        put(code, store, registers, slots.as_slice())?;
        mark(body, slots, &[param]);
    }
    Ok(())
}

/// Puts the way of operands to the slots of the parameters that are named.
fn put_parameters(
    body: Body,
    code: &mut Code,
    named: &IndexSet<VarId>,
    slots: Vec<bool>,
    params: &[VarId],
) -> Result<(), NoMemory>
    ensures { OnOk result (code.new.items.items ≡ code.old.items.items ++ parameter_items (body_at body.entry) (contains nat_eq named.now) slots.items 1 params.now) }
{
    let mut slots = slots;
    for (index, param) in params.iter().enumerate() {
        let register = register_of(index + 1)?;
        put_parameter(
            body,
            code,
            named,
            &mut slots,
            register,
            *param,
            &params[index..],
        )?;
    }
    Ok(())
}

/// Puts the making of the frame, and the way of captured variables and operands to their slots.
fn put_frame(
    body: Body,
    code: &mut Code,
    named: &IndexSet<VarId>,
    params: &[VarId],
    captured: &[VarId],
) -> Result<(), NoMemory>
    ensures { OnOk result (code.new.items.items ≡ code.old.items.items ++ frame_items (body_at body.entry) (contains nat_eq named.now) params.now captured.now) }
{
    let before = parameter_registers(named, with_itself(captured, no_registers()), 1, params)?;
    put_away(code, Instr::Save(body.size), before, None)?;
    let operands = parameter_registers(named, no_registers(), 1, params)?;
    let slots = no_slots(body)?;
    let stored = with_slots(body, slots.as_slice(), captured)?;
    put_captured(body, code, operands, slots, captured)?;
    put_parameters(body, code, named, stored, params)
}

/// The registers that are live at an entry.
fn entry_registers() -> Registers
    ensures { result ≡ entry_registers }
{
    [
        true, true, true, true, true, true, true, true, true, true, true, true, true, false, false,
        false, true,
    ]
}

/// The count of operands.
fn counting(rest: bool, params: &[VarId]) -> Result<Instr, NoMemory>
    ensures { IfOk result (λ i. i ≡ counting rest params.now) }
{
    if rest {
        Ok(Instr::ArgsGe(register_of(params.len().saturating_sub(1))?))
    } else {
        Ok(Instr::Args(register_of(params.len())?))
    }
}

/// Puts the entry of a lambda.
fn put_entry(
    code: &mut Code,
    named: &IndexSet<VarId>,
    number: u32,
    proc: &AnfProc,
) -> Result<(), NoMemory>
    ensures { OnOk result (code.new.items.items ≡ code.old.items.items ++ entry_items (contains nat_eq named.now) number (view_proc proc.now)) }
{
    let params = proc.params.as_slice();
    if proc.lifted {
        let registers = parameter_registers(named, no_registers(), 1, params)?;
        return put_away(code, Instr::Proc(number), registers, None);
    }
    put_away(code, Instr::Proc(number), entry_registers(), None)?;
    let count = counting(proc.rest, params)?;
    put_away(code, count, entry_registers(), Some(proc.place))
}

/// Puts the code of a lambda, whose entry has its number as its label.
pub(crate) fn put_lambda(
    body: Body,
    code: &mut Code,
    number: u32,
    proc: &AnfProc,
    label: &mut u32,
) -> Result<(), NoMemory>
    ensures label { OnOk result (label.new ≡ label.old + labels_in (view_block proc.now.body)) }
    ensures items { OnOk result (code.new.items.items ≡ code.old.items.items ++ lambda_items (body_at body.entry) number (view_proc proc.now) label.old) }
{
    let named = block_free(body, &proc.body)?;
    put_label(code, number)?;
    put_entry(code, &named, number, proc)?;
    put_frame(
        body,
        code,
        &named,
        proc.params.as_slice(),
        proc.captured.as_slice(),
    )?;
    let waiting = Waiting {
        slots: Row::from_vec(no_slots(body)?),
        ending: Ending::ToCaller,
    };
    put_block(body, MAX_DEPTH, code, &proc.body, &waiting, label)
}

/// Puts the code of a top-level form.
pub(crate) fn put_form(
    body: Body,
    code: &mut Code,
    proc: &AnfProc,
    label: &mut u32,
) -> Result<(), NoMemory>
    ensures label { OnOk result (label.new ≡ label.old + labels_in (view_block proc.now.body)) }
    ensures items { OnOk result (code.new.items.items ≡ code.old.items.items ++ form_items (body_at body.entry) (view_proc proc.now) label.old) }
{
    put_away(code, Instr::Save(body.size), no_registers(), None)?;
    let waiting = Waiting {
        slots: Row::from_vec(no_slots(body)?),
        ending: Ending::ToTop,
    };
    put_block(body, MAX_DEPTH, code, &proc.body, &waiting, label)
}
