//! Items that are put behind others.
ghost use Rattle.std.specs.Prelude.{◌≡◌, ◌++◌, ◌∷◌, [], OnOk};
ghost use Rattle.tb_mac.specs.declared.item.Item.TheVariants.{Label, Ins};
ghost use Rattle.tb_generate.specs.calls.Bits.{away_item, here_item};

use super::bits::{Registers, copy_slots, register_number};
use std::alloc::Global;
use tb_mac::{Instr, Item, LiveMap};
use tb_prim::{NoMemory, Place};

/// Items, and where memory is taken from.
#[derive(Drop)]
pub(crate) struct Code {
    pub alloc: Global,
    pub items: Vec<Item>,
}

/// Puts a label.
pub(crate) fn put_label(code: &mut Code, label: u32) -> Result<(), NoMemory>
    ensures { OnOk result (code.new.items.items ≡ code.old.items.items ++ Label label ∷ []) }
{
    code.items.push(Item::Label(label))?;
    Ok(())
}

/// Puts an instruction with this map, where the own frame is not there.
pub(crate) fn put_away(
    code: &mut Code,
    instr: Instr,
    registers: Registers,
    place: Option<Place>,
) -> Result<(), NoMemory>
    ensures { OnOk result (code.new.items.items ≡ code.old.items.items ++ away_item instr registers place ∷ []) }
{
    let map = LiveMap {
        regs: register_number(registers),
        slots: None,
    };
    code.items.push(Item::Ins(instr, map, place))?;
    Ok(())
}

/// Puts an instruction with this map, where the own frame is there.
pub(crate) fn put_placed(
    code: &mut Code,
    instr: Instr,
    registers: Registers,
    slots: &[bool],
    place: Option<Place>,
) -> Result<(), NoMemory>
    ensures { OnOk result (code.new.items.items ≡ code.old.items.items ++ here_item instr registers slots.now place ∷ []) }
{
    let map = LiveMap {
        regs: register_number(registers),
        slots: Some(copy_slots(code.alloc, slots)?),
    };
    code.items.push(Item::Ins(instr, map, place))?;
    Ok(())
}

/// The same of an instruction that cannot fail.
pub(crate) fn put(
    code: &mut Code,
    instr: Instr,
    registers: Registers,
    slots: &[bool],
) -> Result<(), NoMemory>
    ensures { OnOk result (code.new.items.items ≡ code.old.items.items ++ here_item instr registers slots.now None ∷ []) }
{
    put_placed(code, instr, registers, slots, None)
}
