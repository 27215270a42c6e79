//! The code of blocks.
ghost use Rattle.std.specs.Prelude.{◌≡◌, ◌+◌, ◌++◌, IfOk, OnOk};
ghost use Rattle.tb_ir.specs.AnfPlain.{view_block, view_op};
ghost use Rattle.tb_ir.specs.AnfTree.{Bind};
ghost use Rattle.tb_codegen.specs.Generate.{labels_in, labels_of};
ghost use Rattle.tb_generate.specs.calls.Bodies.{body_at};
ghost use Rattle.tb_generate.specs.calls.Items.{block_items, block_slots, bound_items, passed_items, passing_items, plain_items, tail_items, arm_ending};

use super::bits::no_registers;
use super::body::{Body, home};
use super::free::{MAX_DEPTH, block_slots, bound_slots, levels_below, settled};
use super::groups::put_group;
use super::operations::{put_evaluated, put_kept, put_last, put_test};
use super::put::{Code, put_away, put_label};
use super::waiting::{Ending, Waiting};
use tb_core::VarId;
use tb_ir::{Block, Op};
use tb_mac::Instr;
use tb_prim::{NoMemory, Row};

/// Takes the next label, or answers want of memory where there is none.
fn take_label(label: &mut u32) -> Result<u32, NoMemory>
    ensures taken { IfOk result (λ l. l ≡ label.old) }
    ensures next { OnOk result (label.new ≡ label.old + 1) }
{
    let taken = *label;
    *label = taken.checked_add(1).ok_or(NoMemory)?;
    Ok(taken)
}

/// At the top level the first arm of a branch in tail position goes on behind the second one.
fn put_passing(code: &mut Code, ending: &Ending, label: u32) -> Result<(), NoMemory>
    ensures { OnOk result (code.new.items.items ≡ code.old.items.items ++ passing_items ending.now label) }
{
    match ending {
        Ending::ToTop => put_away(code, Instr::Jump(label), no_registers(), None),
        Ending::ToCaller | Ending::Then(_, _, _) => Ok(()),
    }
}

/// The label behind the second one.
fn put_passed(code: &mut Code, ending: &Ending, label: u32) -> Result<(), NoMemory>
    ensures { OnOk result (code.new.items.items ≡ code.old.items.items ++ passed_items ending.now label) }
{
    match ending {
        Ending::ToTop => put_label(code, label),
        Ending::ToCaller | Ending::Then(_, _, _) => Ok(()),
    }
}

/// Puts an operation that is no branch, to whose value a variable is bound.
fn put_plain(
    body: Body,
    code: &mut Code,
    slots: &[bool],
    variable: VarId,
    op: &Op,
    value: &[bool],
    label: u32,
) -> Result<(), NoMemory>
    ensures { OnOk result (code.new.items.items ≡ code.old.items.items ++ plain_items (body_at body.entry) (view_op op.now) variable value.now label slots.now) }
{
    put_evaluated(body, code, op, value, label, slots)?;
    put_kept(code, home(body, variable), value)
}

/// What waits for the values of a branch's arms.
fn arm(
    body: Body,
    waiting: &[bool],
    variable: VarId,
    rest: &Block,
    value: Vec<bool>,
    label: u32,
) -> Result<Waiting, NoMemory>
    ensures ending { IfOk result (λ w. w.ending ≡ arm_ending (body_at body.entry) waiting.now variable (view_block rest.now) label) }
    ensures slots { IfOk result (λ w. w.slots ≡ value.items) }
{
    let next = block_slots(body, waiting, settled(MAX_DEPTH, rest)?)?;
    Ok(Waiting {
        slots: Row::from_vec(value),
        ending: Ending::Then(home(body, variable), label, Row::from_vec(next)),
    })
}

/// Puts an operation to whose value a variable is bound, with these slots live before it.
#[cycle(blocks)]
#[tactic(auto, using(crate::proofs::Forms::making))]
fn put_bound(
    body: Body,
    levels: u32,
    code: &mut Code,
    slots: &[bool],
    variable: VarId,
    op: &Op,
    rest: &Block,
    waiting: &[bool],
    label: &mut u32,
) -> Result<(), NoMemory>
    ensures label { OnOk result (label.new ≡ label.old + labels_of (view_op op.now)) }
    ensures items { OnOk result (code.new.items.items ≡ code.old.items.items ++ bound_items (body_at body.entry) (view_op op.now) variable (view_block rest.now) waiting.now slots.now label.old) }
{
    let value = bound_slots(body, waiting, variable, rest)?;
    let own = take_label(label)?;
    match op {
        Op::Branch(atom, then, other) => {
            let second = take_label(label)?;
            let arm = arm(body, waiting, variable, rest, value, own)?;
            put_test(body, code, slots, atom, second)?;
            put_block(body, levels, code, then.get(), &arm, label)?;
            put_label(code, second)?;
            put_block(body, levels, code, other.get(), &arm, label)?;
            put_label(code, own)
        }
        Op::Atom(_) | Op::Global(_, _) | Op::SetGlobal(_, _, _) | Op::DefGlobal(_, _) => {
            put_plain(body, code, slots, variable, op, value.as_slice(), own)
        }
        Op::Prim(_, _, _) | Op::NewCell(_) | Op::CellGet(_, _) | Op::CellSet(_, _) => {
            put_plain(body, code, slots, variable, op, value.as_slice(), own)
        }
        Op::Close(_) | Op::Call(_, _, _) | Op::Direct(_, _) | Op::Apply(_, _, _) => {
            put_plain(body, code, slots, variable, op, value.as_slice(), own)
        }
    }
}

/// Puts an operation in tail position, with these slots live before it.
#[cycle(blocks)]
#[tactic(auto, using(crate::proofs::Forms::making))]
fn put_tail(
    body: Body,
    levels: u32,
    code: &mut Code,
    slots: &[bool],
    op: &Op,
    waiting: &Waiting,
    label: &mut u32,
) -> Result<(), NoMemory>
    ensures label { OnOk result (label.new ≡ label.old + labels_of (view_op op.now)) }
    ensures items { OnOk result (code.new.items.items ≡ code.old.items.items ++ tail_items (body_at body.entry) (view_op op.now) waiting.now.slots slots.now waiting.now.ending label.old) }
{
    let own = take_label(label)?;
    match op {
        Op::Branch(atom, then, other) => {
            let second = take_label(label)?;
            put_test(body, code, slots, atom, second)?;
            put_block(body, levels, code, then.get(), waiting, label)?;
            put_passing(code, &waiting.ending, own)?;
            put_label(code, second)?;
            put_block(body, levels, code, other.get(), waiting, label)?;
            put_passed(code, &waiting.ending, own)
        }
        Op::Atom(_) | Op::Global(_, _) | Op::SetGlobal(_, _, _) | Op::DefGlobal(_, _) => {
            put_last(body, code, op, waiting, own, slots)
        }
        Op::Prim(_, _, _) | Op::NewCell(_) | Op::CellGet(_, _) | Op::CellSet(_, _) => {
            put_last(body, code, op, waiting, own, slots)
        }
        Op::Close(_) | Op::Call(_, _, _) | Op::Direct(_, _) | Op::Apply(_, _, _) => {
            put_last(body, code, op, waiting, own, slots)
        }
    }
}

/// Puts a block, whose labels are counted on from one. Goes no deeper than `levels` blocks, and answers want of memory
/// at one below.
#[cycle(blocks)]
#[tactic(auto, using(crate::proofs::Forms::making))]
pub(crate) fn put_block(
    body: Body,
    levels: u32,
    code: &mut Code,
    block: &Block,
    waiting: &Waiting,
    label: &mut u32,
) -> Result<(), NoMemory>
    ensures label { OnOk result (label.new ≡ label.old + labels_in (view_block block.now)) }
    ensures items { OnOk result (code.new.items.items ≡ code.old.items.items ++ block_items (body_at body.entry) (view_block block.now) waiting.now.slots waiting.now.ending label.old) }
{
    let levels = levels_below(levels)?;
    let slots = block_slots(body, waiting.slots.as_slice(), block)?;
    match block {
        Block::Bind(variable, op, rest) => {
            put_bound(
                body,
                levels,
                code,
                slots.as_slice(),
                *variable,
                op,
                rest.get(),
                waiting.slots.as_slice(),
                label,
            )?;
            put_block(body, levels, code, rest.get(), waiting, label)
        }
        Block::CloseAll(variables, lambdas, rest) => {
            put_group(body, code, slots, variables.as_slice(), lambdas.as_slice())?;
            put_block(body, levels, code, rest.get(), waiting, label)
        }
        Block::Tail(op) => put_tail(body, levels, code, slots.as_slice(), op, waiting, label),
    }
}
