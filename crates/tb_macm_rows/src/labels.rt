//! Labels that are assembled, that stand nowhere, and that stand twice.

ghost use Rattle.std.specs.Prelude.{◌≡◌, [], ◌∷◌, None, IfOk};
ghost use Rattle.tb_mac.specs.declared.code.Instr.TheVariants as instr;
ghost use Rattle.tb_mac.specs.declared.code.LiveMap.{LiveMap};
ghost use Rattle.tb_mac.specs.declared.item.Item.TheVariants.{Label, Ins};
ghost use Rattle.tb_mac.specs.Rules.{PartsOk};

use std::alloc::{AllocError, Global};
use std::test::Fail;
use tb_mac::{AsmRefusal, Instr, Item, LiveMap, Parts, assemble};
use tb_prim::Row;

fn no_parts(alloc: Global) -> Parts
    ensures rules { PartsOk result }
    ensures lambdas { result.lambdas ≡ [] }
{
    Parts {
        globals: Row::from_vec(Vec::new(alloc)),
        statics: Row::from_vec(Vec::new(alloc)),
        lambdas: Row::from_vec(Vec::new(alloc)),
        order: Row::from_vec(Vec::new(alloc)),
    }
}

fn item(instr: Instr) -> Item
    ensures { result ≡ Ins instr (record { regs = 0; slots = None }) None }
{
    let map = LiveMap {
        regs: 0,
        slots: None,
    };
    Item::Ins(instr, map, None)
}

/// A jump to `target` and an end, each behind a label.
fn items_of(alloc: Global, first: u32, second: u32, target: u32) -> Result<Vec<Item>, AllocError>
    ensures { IfOk result (λ v. let map : LiveMap = record { regs = 0; slots = None } in
        v.items ≡ Label first ∷ Ins (instr.Jump target) map None ∷ Label second ∷ Ins instr.End map None ∷ []) }
{
    Ok(vec![in alloc;
        Item::Label(first),
        item(Instr::Jump(target)),
        Item::Label(second),
        item(Instr::End),
    ]?)
}

/// The instruction to which the jump is assembled.
#[tactic(auto, using(crate::proofs::Items::items_ok))]
fn assembled(
    alloc: Global,
    first: u32,
    second: u32,
    target: u32,
) -> Result<Result<Option<Instr>, AsmRefusal>, AllocError> {
    let items = items_of(alloc, first, second, target)?;
    match assemble(alloc, &no_parts(alloc), items.as_slice()) {
        Ok(code) => Ok(Ok(code.code.as_slice().first().copied())),
        Err(refusal) => Ok(Err(refusal)),
    }
}

#[test]
fn labels_stand_once(rt: HostRuntime) -> Result<(), Fail> {
    let alloc = rt.alloc();
    let jump = |number: u32| Ok(Some(Instr::Jump(number)));
    assert_eq!(rt; assembled(alloc, 3, 4, 3)?, jump(0));
    assert_eq!(rt; assembled(alloc, 3, 4, 4)?, jump(1));
    assert_eq!(rt; assembled(alloc, 3, 4, 7)?, Err(AsmRefusal::NoLabel(7)));
    assert_eq!(rt; assembled(alloc, 3, 3, 4)?, Err(AsmRefusal::TwiceLabel(3)));
    assert_eq!(rt; assembled(alloc, 3, 3, 7)?, Err(AsmRefusal::TwiceLabel(3)));
    Ok(())
}
