//! The code of one operation: its operands go to registers, its value to RESULT.
ghost use Rattle.std.specs.Prelude.{◌≡◌, ◌++◌, ◌∷◌, [], map, length, cond, IfOk, OnOk, None, slice_get};
ghost use Rattle.tb_mac.specs.declared.code.Instr.TheVariants as I;
ghost use Rattle.tb_mac.specs.Layout.{const_word, static_tag};
ghost use Rattle.tb_mac.specs.Words.{imm_bits, on_some, unspecified};
ghost use Rattle.tb_prim.specs.Primitives.{can_fail};
ghost use Rattle.tb_ir.specs.AnfPlain.{view_atom, view_op};
ghost use Rattle.tb_codegen.specs.Operations as spec;
ghost use Rattle.tb_codegen.specs.Operations.{act, constant, first_register, is_call, load, operands, place, use_of};
ghost use Rattle.tb_generate.specs.calls.Bits.{no_registers, with_bit, with_slots};
ghost use Rattle.tb_generate.specs.calls.Bodies.{body_at, captured_at, home_at};
ghost use Rattle.tb_generate.specs.calls.Items.{behind_items, evaluated_items, fill_items, given_items, is_caller, keep_items, last_items, leaving_items, loaded_bits, loads_items, operand_bits, operand_items, returning_items, simple_items, test_items, unspecified_items};

use super::bits::{
    RESULT, Registers, no_registers, number_16, number_32, one_register, register_of, with_register,
};
use super::body::{Body, captured, home, with_slots};
use super::put::{Code, put, put_away, put_label, put_placed};
use super::waiting::{Ending, Waiting};
use super::words::put_word;
use tb_core::VarId;
use tb_ir::{Atom, AtomRow, Op};
use tb_mac::{Instr, Word, immediate_bits};
use tb_prim::{Const, NoMemory, Place, Prim, Static, is_fixnum, number_of};

/// The tag of a pointer to a static object.
fn static_tag(object: &Static) -> u8
    ensures { result ≡ static_tag object.now }
{
    match object {
        Static::Pair(_, _) => 1,
        Static::Vector(_) => 3,
        Static::Str(_) | Static::Sym(_) => 5,
    }
}

/// The tag of the static object with this number.
fn tag_at(statics: &[Static], number: u32) -> u8
    ensures { result ≡ on_some (slice_get statics.now number) 0 static_tag }
{
    match statics.get(number as usize) {
        None => 0,
        Some(object) => static_tag(object),
    }
}

/// A register gets a constant: want of memory is the answer for a number that is no fixnum.
fn constant(statics: &[Static], register: u8, value: Const) -> Result<Instr, NoMemory>
    ensures { IfOk result (λ i. i ≡ constant statics.now register value) }
{
    match value {
        Const::Stat(number) => Ok(Instr::Stat(register, tag_at(statics, number), number)),
        Const::Fix(n) => {
            if is_fixnum(i64::from(n)) {
                Ok(Instr::Imm(register, immediate_bits(Word::Fix(n))))
            } else {
                Err(NoMemory)
            }
        }
        Const::Char(c) => Ok(Instr::Imm(register, immediate_bits(Word::Char(c)))),
        Const::Bool(true) => Ok(Instr::Imm(register, immediate_bits(Word::Special(1)))),
        Const::Bool(false) => Ok(Instr::Imm(register, immediate_bits(Word::Special(0)))),
        Const::Nil => Ok(Instr::Imm(register, immediate_bits(Word::Special(2)))),
        Const::Unspecified => Ok(Instr::Imm(register, immediate_bits(Word::Special(3)))),
        Const::Undefined => Ok(Instr::Imm(register, immediate_bits(Word::Special(4)))),
    }
}

/// A register gets the value of an atom.
fn load(body: Body, register: u8, atom: &Atom) -> Result<Instr, NoMemory>
    ensures { IfOk result (λ i. i ≡ load (body_at body.entry) register (view_atom atom.now)) }
{
    match atom {
        Atom::Quote(value) => constant(body.statics, register, *value),
        Atom::Var(variable) => Ok(Instr::Load(register, home(body, *variable))),
    }
}

/// Puts the load of an atom, and answers the registers that are live behind it.
fn put_load(
    body: Body,
    code: &mut Code,
    slots: &[bool],
    registers: Registers,
    register: u8,
    atom: &Atom,
) -> Result<Registers, NoMemory>
    ensures items { OnOk result (code.new.items.items ≡ code.old.items.items ++ loads_items (body_at body.entry) slots.now registers register (view_atom atom.now ∷ [])) }
    ensures registers { IfOk result (λ rs. rs ≡ with_bit registers register) }
{
    put(code, load(body, register, atom)?, registers, slots)?;
    Ok(with_register(registers, register))
}

/// Puts the loads of atoms to registers that follow one another, and answers the registers that are live behind them.
fn put_loads(
    body: Body,
    code: &mut Code,
    slots: &[bool],
    registers: Registers,
    first: u8,
    atoms: &[Atom],
) -> Result<Registers, NoMemory>
    ensures items { OnOk result (code.new.items.items ≡ code.old.items.items ++ loads_items (body_at body.entry) slots.now registers first (map view_atom atoms.now)) }
    ensures registers { IfOk result (λ rs. rs ≡ loaded_bits registers first (map view_atom atoms.now)) }
{
    let mut registers = registers;
    for (index, atom) in atoms.iter().enumerate() {
        let register = register_of(index + usize::from(first))?;
        registers = put_load(body, code, slots, registers, register, atom)?;
    }
    Ok(registers)
}

/// Puts the loads of the operands of an operation, and answers the registers that are live behind them.
#[tactic(auto, using(crate::proofs::Views::viewing))]
fn put_operands(body: Body, code: &mut Code, slots: &[bool], op: &Op) -> Result<Registers, NoMemory>
    ensures items { OnOk result (code.new.items.items ≡ code.old.items.items ++ operand_items (body_at body.entry) slots.now (view_op op.now)) }
    ensures registers { IfOk result (λ rs. rs ≡ operand_bits (view_op op.now)) }
{
    let none = no_registers();
    match op {
        Op::Atom(_) | Op::Global(_, _) | Op::Close(_) => Ok(none),
        Op::SetGlobal(_, atom, _)
        | Op::DefGlobal(_, atom)
        | Op::NewCell(atom)
        | Op::CellGet(atom, _)
        | Op::Branch(atom, _, _) => put_load(body, code, slots, none, 1, atom),
        Op::CellSet(cell, value) => {
            let registers = put_load(body, code, slots, none, 1, cell)?;
            put_load(body, code, slots, registers, 2, value)
        }
        Op::Prim(_, atoms, _) | Op::Direct(_, atoms) => {
            put_loads(body, code, slots, none, 1, atoms.as_slice())
        }
        Op::Call(procedure, atoms, _) => {
            let registers = put_load(body, code, slots, none, 0, procedure)?;
            put_loads(body, code, slots, registers, 1, atoms.as_slice())
        }
        Op::Apply(procedure, list, _) => {
            let registers = put_load(body, code, slots, none, 0, procedure)?;
            put_load(body, code, slots, registers, 1, list)
        }
    }
}

/// The use of a primitive by the number of its operands.
fn use_of(prim: Prim, atoms: &AtomRow) -> Instr
    ensures { result ≡ use_of prim (map view_atom atoms.now) }
{
    let number = u32::from(number_of(prim));
    match atoms.as_slice().len() {
        0 => Instr::Op0(RESULT, number),
        1 => Instr::Op1(RESULT, 1, number),
        2 => Instr::Op2(RESULT, 1, 2, number),
        _ => Instr::Op3(1, 2, 3, number),
    }
}

/// The instruction of an operation whose operands are in registers. A branch goes on at a label where its test is false.
#[tactic(auto, using(crate::proofs::Views::viewing))]
fn act(body: Body, label: u32, op: &Op) -> Result<Instr, NoMemory>
    ensures { IfOk result (λ i. i ≡ act (body_at body.entry) label (view_op op.now)) }
{
    match op {
        Op::Atom(atom) => load(body, RESULT, atom),
        Op::Global(global, _) => Ok(Instr::GlobalGet(RESULT, *global)),
        Op::SetGlobal(global, _, _) => Ok(Instr::GlobalSet(1, *global)),
        Op::DefGlobal(global, _) => Ok(Instr::GlobalDef(1, *global)),
        Op::Prim(prim, atoms, _) => Ok(use_of(*prim, atoms)),
        Op::NewCell(_) => Ok(Instr::Cell(RESULT, 1)),
        Op::CellGet(_, _) => Ok(Instr::CellGet(RESULT, 1)),
        Op::CellSet(_, _) => Ok(Instr::CellSet(1, 2)),
        Op::Close(lambda) => closed(body, *lambda),
        Op::Call(_, atoms, _) => Ok(Instr::Invoke(register_of(atoms.as_slice().len())?)),
        Op::Direct(lambda, _) => Ok(Instr::Jump(*lambda)),
        Op::Apply(_, _, _) => Ok(Instr::Apply),
        Op::Branch(_, _, _) => Ok(Instr::Brf(1, label)),
    }
}

/// RESULT gets a new procedure of a lambda.
pub(crate) fn closed(body: Body, lambda: u32) -> Result<Instr, NoMemory>
    ensures { IfOk result (λ i. i ≡ I.Clo spec.result (length (captured_at body.entry lambda)) lambda) }
{
    let count = number_16(captured(body, lambda).len())?;
    Ok(Instr::Clo(RESULT, count, lambda))
}

/// Whether a primitive can fail.
fn can_fail(prim: Prim) -> bool
    ensures { result ≡ can_fail prim }
{
    match prim {
        Prim::Cons
        | Prim::IsPair
        | Prim::IsNull
        | Prim::Not
        | Prim::IsBoolean
        | Prim::IsSymbol
        | Prim::IsChar
        | Prim::IsString
        | Prim::IsVector
        | Prim::IsProcedure
        | Prim::IsInteger
        | Prim::IsEof
        | Prim::Eq
        | Prim::ReadChar
        | Prim::PeekChar
        | Prim::Unspecified => false,
        _ => true,
    }
}

/// The place of an operation, where it can fail.
#[tactic(auto, using(crate::proofs::Views::viewing))]
fn place(op: &Op) -> Option<Place>
    ensures { result ≡ place (view_op op.now) }
{
    match op {
        Op::Global(_, place) | Op::SetGlobal(_, _, place) | Op::CellGet(_, place) => Some(*place),
        Op::Call(_, _, place) | Op::Apply(_, _, place) => Some(*place),
        Op::Prim(prim, _, place) => can_fail(*prim).then_some(*place),
        Op::Atom(_) | Op::DefGlobal(_, _) | Op::NewCell(_) | Op::CellSet(_, _) => None,
        Op::Close(_) | Op::Direct(_, _) | Op::Branch(_, _, _) => None,
    }
}

/// Whether an operation transfers to a procedure.
#[tactic(auto, using(crate::proofs::Views::viewing))]
fn is_call(op: &Op) -> bool
    ensures { result ≡ is_call (view_op op.now) }
{
    match op {
        Op::Call(_, _, _) | Op::Direct(_, _) | Op::Apply(_, _, _) => true,
        Op::Atom(_) | Op::Global(_, _) | Op::SetGlobal(_, _, _) | Op::DefGlobal(_, _) => false,
        Op::Prim(_, _, _) | Op::NewCell(_) | Op::CellGet(_, _) | Op::CellSet(_, _) => false,
        Op::Close(_) | Op::Branch(_, _, _) => false,
    }
}

/// Puts the words of a new procedure in RESULT that it captures, each with the slots of those that are left.
fn put_fills(
    body: Body,
    code: &mut Code,
    waiting: &[bool],
    variables: &[VarId],
) -> Result<(), NoMemory>
    ensures { OnOk result (code.new.items.items ≡ code.old.items.items ++ fill_items (body_at body.entry) waiting.now 0 variables.now) }
{
    for (index, variable) in variables.iter().enumerate() {
        let slots = with_slots(body, waiting, &variables[index..])?;
        put_word(body, code, slots.as_slice(), number_32(index)?, *variable)?;
    }
    Ok(())
}

/// Puts what is behind the instruction of an operation before its value is in RESULT.
#[tactic(auto, using(crate::proofs::Views::viewing))]
fn put_behind(body: Body, code: &mut Code, waiting: &[bool], op: &Op) -> Result<(), NoMemory>
    ensures { OnOk result (code.new.items.items ≡ code.old.items.items ++ behind_items (body_at body.entry) waiting.now (view_op op.now)) }
{
    match op {
        Op::SetGlobal(_, _, _) | Op::DefGlobal(_, _) | Op::CellSet(_, _) => {
            let instr = Instr::Imm(RESULT, immediate_bits(Word::Special(3)));
            put(code, instr, no_registers(), waiting)
        }
        Op::Close(lambda) => put_fills(body, code, waiting, captured(body, *lambda)),
        Op::Atom(_) | Op::Global(_, _) | Op::Prim(_, _, _) | Op::NewCell(_) => Ok(()),
        Op::CellGet(_, _) | Op::Call(_, _, _) | Op::Direct(_, _) => Ok(()),
        Op::Apply(_, _, _) | Op::Branch(_, _, _) => Ok(()),
    }
}

/// Puts an operation that is no call.
fn put_simple(
    body: Body,
    code: &mut Code,
    op: &Op,
    waiting: &[bool],
    slots: &[bool],
) -> Result<(), NoMemory>
    ensures { OnOk result (code.new.items.items ≡ code.old.items.items ++ simple_items (body_at body.entry) (view_op op.now) waiting.now slots.now) }
{
    let registers = put_operands(body, code, slots, op)?;
    put_placed(code, act(body, 0, op)?, registers, slots, place(op))?;
    put_behind(body, code, waiting, op)
}

/// Puts a call that comes back to a label.
fn put_returning(
    body: Body,
    code: &mut Code,
    op: &Op,
    label: u32,
    slots: &[bool],
) -> Result<(), NoMemory>
    ensures { OnOk result (code.new.items.items ≡ code.old.items.items ++ returning_items (body_at body.entry) (view_op op.now) label slots.now) }
{
    let registers = put_operands(body, code, slots, op)?;
    put(code, Instr::SetRtn(label), registers, slots)?;
    put_placed(code, act(body, label, op)?, registers, slots, place(op))?;
    put_label(code, label)
}

/// Puts a call in tail position, behind which the own frame is not there.
fn put_leaving(body: Body, code: &mut Code, op: &Op, slots: &[bool]) -> Result<(), NoMemory>
    ensures { OnOk result (code.new.items.items ≡ code.old.items.items ++ leaving_items (body_at body.entry) (view_op op.now) slots.now) }
{
    let registers = put_operands(body, code, slots, op)?;
    put(code, Instr::Pop(body.size), registers, slots)?;
    put_away(code, act(body, 0, op)?, registers, place(op))
}

/// Puts an operation whose value comes to RESULT.
pub(crate) fn put_evaluated(
    body: Body,
    code: &mut Code,
    op: &Op,
    waiting: &[bool],
    label: u32,
    slots: &[bool],
) -> Result<(), NoMemory>
    ensures { OnOk result (code.new.items.items ≡ code.old.items.items ++ evaluated_items (body_at body.entry) (view_op op.now) waiting.now label slots.now) }
{
    if is_call(op) {
        put_returning(body, code, op, label, slots)
    } else {
        put_simple(body, code, op, waiting, slots)
    }
}

/// Puts that a value in RESULT goes to a slot.
pub(crate) fn put_kept(code: &mut Code, slot: u32, waiting: &[bool]) -> Result<(), NoMemory>
    ensures { OnOk result (code.new.items.items ≡ code.old.items.items ++ keep_items slot waiting.now) }
{
    put(
        code,
        Instr::Store(RESULT, slot),
        one_register(RESULT),
        waiting,
    )
}

/// Puts that a value in RESULT goes to what waits for it.
fn put_given(body: Body, code: &mut Code, waiting: &[bool], ending: &Ending) -> Result<(), NoMemory>
    ensures { OnOk result (code.new.items.items ≡ code.old.items.items ++ given_items (body_at body.entry) waiting.now ending.now) }
{
    match ending {
        Ending::ToCaller => {
            put(code, Instr::Pop(body.size), one_register(RESULT), waiting)?;
            put_away(code, Instr::Return, one_register(RESULT), None)
        }
        Ending::ToTop => put(code, Instr::Pop(body.size), one_register(RESULT), waiting),
        Ending::Then(slot, label, next) => {
            put_kept(code, *slot, waiting)?;
            put(code, Instr::Jump(*label), no_registers(), next.as_slice())
        }
    }
}

/// Puts an operation in tail position, with what waits for its value.
pub(crate) fn put_last(
    body: Body,
    code: &mut Code,
    op: &Op,
    waiting: &Waiting,
    label: u32,
    slots: &[bool],
) -> Result<(), NoMemory>
    ensures { OnOk result (code.new.items.items ≡ code.old.items.items ++ last_items (body_at body.entry) (view_op op.now) waiting.now.slots waiting.now.ending label slots.now) }
{
    if is_call(op) && is_caller(&waiting.ending) {
        return put_leaving(body, code, op, slots);
    }
    put_evaluated(body, code, op, waiting.slots.as_slice(), label, slots)?;
    put_given(body, code, waiting.slots.as_slice(), &waiting.ending)
}

/// Whether a value goes to the caller.
fn is_caller(ending: &Ending) -> bool
    ensures { result ≡ is_caller ending.now }
{
    match ending {
        Ending::ToCaller => true,
        Ending::ToTop | Ending::Then(_, _, _) => false,
    }
}

/// Puts the test of a branch, which goes on at a label where it is false.
pub(crate) fn put_test(
    body: Body,
    code: &mut Code,
    slots: &[bool],
    atom: &Atom,
    label: u32,
) -> Result<(), NoMemory>
    ensures { OnOk result (code.new.items.items ≡ code.old.items.items ++ test_items (body_at body.entry) slots.now (view_atom atom.now) label) }
{
    let registers = put_load(body, code, slots, no_registers(), 1, atom)?;
    put(code, Instr::Brf(1, label), registers, slots)
}
