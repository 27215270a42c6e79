//! One loop that is run: it loads, counts down from a million, writes a character and ends.

ghost use Rattle.tb_mac.specs.Rules.{MapOk, PartsOk};
ghost use Rattle.tb_mac.specs.Layout.{start_size};
ghost use Rattle.std.specs.Prelude.{◌≡◌, [], IfOk};

use super::{MacMachine, Step};
use std::alloc::{AllocError, Global};
use std::test::Fail;
use tb_base::{MemSink, MemSource};
use tb_mac::{Instr, LiveMap, MacCode, Parts, PlaceEntry, Word};
use tb_prim::{Place, Row, Stop};

fn no_parts(alloc: Global) -> Parts
    ensures rules { PartsOk result }
    ensures lambdas { result.lambdas ≡ [] }
    ensures size { start_size result ≡ 0 }
{
    Parts {
        globals: Row::from_vec(Vec::new(alloc)),
        statics: Row::from_vec(Vec::new(alloc)),
        lambdas: Row::from_vec(Vec::new(alloc)),
        order: Row::from_vec(Vec::new(alloc)),
    }
}

fn no_map() -> LiveMap
    ensures { MapOk result }
{
    LiveMap {
        regs: 0,
        slots: None,
    }
}

fn placed(instr: u32) -> PlaceEntry
    ensures { result.instr ≡ instr }
{
    let place = Place {
        library: false,
        line: 1,
        column: 1,
    };
    PlaceEntry { instr, place }
}

/// Counts down from 1,000,000 by `=`, `-` and a jump, and writes the character a.
fn countdown(alloc: Global) -> Result<MacCode, AllocError>
    ensures { IfOk result (λ c. start_size c.parts ≡ 0) }
{
    let code = vec![in alloc;
        Instr::Imm(1, 4_000_000),
        Instr::Imm(2, 4),
        Instr::Imm(3, 0),
        Instr::Op2(4, 1, 3, 23),
        Instr::Brf(4, 8),
        Instr::Imm(1, 24842),
        Instr::Op1(16, 1, 42),
        Instr::End,
        Instr::Op2(1, 1, 2, 18),
        Instr::Jump(3),
    ]?;
    let maps = vec![in alloc;
        no_map(),
        no_map(),
        no_map(),
        no_map(),
        no_map(),
        no_map(),
        no_map(),
        no_map(),
        no_map(),
        no_map(),
    ]?;
    let places = vec![in alloc; placed(3), placed(6), placed(8)]?;
    Ok(MacCode {
        parts: no_parts(alloc),
        code: Row::from_vec(code),
        maps: Row::from_vec(maps),
        places: Row::from_vec(places),
    })
}

#[test]
fn counts_down_and_writes(rt: HostRuntime) -> Result<(), Fail> {
    let alloc = rt.alloc();
    let code = countdown(alloc)?;
    let mut machine = MacMachine::load(alloc, &code, 1024)?;
    let mut input = MemSource::new(alloc, b"", &[])?;
    let mut out = MemSink::new(alloc, 16, &[])?;
    assert_eq!(rt; machine.step(&mut input, &mut out), Step::Went(None));
    assert_eq!(rt; machine.register(1), Word::Fix(1_000_000));
    assert_eq!(rt; machine.run(9, &mut input, &mut out), Stop::Steps);
    assert_eq!(rt; machine.run(5_000_000, &mut input, &mut out), Stop::End);
    assert_eq!(rt; machine.run(1, &mut input, &mut out), Stop::End);
    assert_eq!(rt; machine.pc(), 7);
    assert_eq!(rt; out.held(), b"a".as_slice());
    Ok(())
}
