//! One machine that is run, and the words that it holds by the registers that are live where it ends.

ghost use Rattle.tb_mac.specs.Rules.{MapOk, PartsOk};
ghost use Rattle.tb_mac.specs.Layout.{start_size};
ghost use Rattle.std.specs.Prelude.{◌≡◌, ◌<◌, ◌^◌, [], IfOk};

use super::Walk;
use std::alloc::{AllocError, Global};
use std::test::Fail;
use tb_base::{MemSink, MemSource};
use tb_mac::{Instr, LiveMap, MacCode, Parts, PlaceEntry};
use tb_macm::MacMachine;
use tb_prim::{Place, Row, Stop};

fn no_parts(alloc: Global) -> Parts
    ensures rules { PartsOk result }
    ensures lambdas { result.lambdas ≡ [] }
    ensures size { start_size result ≡ 0 }
{
    Parts {
        globals: Row::from_vec(Vec::new(alloc)),
        statics: Row::from_vec(Vec::new(alloc)),
        lambdas: Row::from_vec(Vec::new(alloc)),
        order: Row::from_vec(Vec::new(alloc)),
    }
}

fn map(regs: u32) -> LiveMap
    requires { regs < 2 ^ 17 }
    ensures { MapOk result }
{
    LiveMap { regs, slots: None }
}

fn placed(instr: u32) -> PlaceEntry
    ensures { result.instr ≡ instr }
{
    let place = Place {
        library: false,
        line: 1,
        column: 1,
    };
    PlaceEntry { instr, place }
}

/// Makes a list in register 3, a pair of twice that list in 4, a pair that leads back to itself in 5, a vector of three
/// elements in 6, and a procedure that has captured the vector in 7. These registers are live where it ends.
fn objects(alloc: Global, live: u16) -> Result<MacCode, AllocError>
    ensures { IfOk result (λ c. start_size c.parts ≡ 0) }
{
    let code = vec![in alloc;
        Instr::Imm(1, 514),
        Instr::Imm(2, 4),
        Instr::Op2(3, 2, 1, 0),
        Instr::Op2(4, 3, 3, 0),
        Instr::Op2(5, 2, 1, 0),
        Instr::Op2(16, 5, 5, 4),
        Instr::Imm(6, 12),
        Instr::Op1(6, 6, 30),
        Instr::Clo(7, 1, 10),
        Instr::CaptSet(7, 6, 0),
        Instr::End,
    ]?;
    let maps = vec![in alloc;
        map(0),
        map(0),
        map(0),
        map(0),
        map(0),
        map(0),
        map(0),
        map(0),
        map(0),
        map(0),
        map(u32::from(live)),
    ]?;
    let places = vec![in alloc; placed(5), placed(7)]?;
    Ok(MacCode {
        parts: no_parts(alloc),
        code: Row::from_vec(code),
        maps: Row::from_vec(maps),
        places: Row::from_vec(places),
    })
}

/// The words that the machine holds where it has ended, counted twice by the same walk.
fn words_held(alloc: Global, live: u16) -> Result<(u64, u64), Fail> {
    let code = objects(alloc, live)?;
    let mut machine = MacMachine::load(alloc, &code, 1024)?;
    let mut input = MemSource::new(alloc, b"", &[])?;
    let mut out = MemSink::new(alloc, 16, &[])?;
    let _ = machine.run(100, &mut input, &mut out);
    if machine.heap_words() > 1024 {
        return Ok((0, 0));
    }
    let mut walk = Walk::new(alloc, machine.heap_words())?;
    Ok((walk.mac_words(&machine), walk.mac_words(&machine)))
}

#[test]
fn counts_what_is_live(rt: HostRuntime) -> Result<(), Fail> {
    let alloc = rt.alloc();
    assert_eq!(rt; words_held(alloc, 0)?, (17, 17));
    assert_eq!(rt; words_held(alloc, 8)?, (19, 19));
    assert_eq!(rt; words_held(alloc, 24)?, (21, 21));
    assert_eq!(rt; words_held(alloc, 32)?, (19, 19));
    assert_eq!(rt; words_held(alloc, 128)?, (25, 25));
    assert_eq!(rt; words_held(alloc, 248)?, (31, 31));
    Ok(())
}
