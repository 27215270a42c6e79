//! One loop that is run: it loads, counts down from a million, writes a character and ends.

ghost use Rattle.std.specs.Prelude.{◌≡◌, [], IfOk, length};
ghost use Rattle.tb_mac.specs.Layout.{start_size};
ghost use Rattle.tb_mac.specs.Rules.{MapOk, PartsOk};

use super::{SparcMachine, Step};
use std::alloc::{AllocError, Global};
use std::test::Fail;
use tb_base::{MemSink, MemSource};
use tb_mac::{Instr, LiveMap, MacCode, Parts};
use tb_prim::{Row, Stop};
use tb_sparc::SparcCode;

fn no_parts(alloc: Global) -> Parts
    ensures rules { PartsOk result }
    ensures lambdas { result.lambdas ≡ [] }
    ensures size { start_size result ≡ 0 }
{
    Parts {
        globals: Row::from_vec(Vec::new(alloc)),
        statics: Row::from_vec(Vec::new(alloc)),
        lambdas: Row::from_vec(Vec::new(alloc)),
        order: Row::from_vec(Vec::new(alloc)),
    }
}

fn no_map() -> LiveMap
    ensures { MapOk result }
{
    LiveMap {
        regs: 0,
        slots: None,
    }
}

/// One instruction, which ends.
fn ending(alloc: Global) -> Result<MacCode, AllocError>
    ensures parts { IfOk result (λ c. start_size c.parts ≡ 0) }
    ensures one { IfOk result (λ c. length c.code ≡ 1) }
{
    let code = vec![in alloc; Instr::End]?;
    let maps = vec![in alloc; no_map()]?;
    Ok(MacCode {
        parts: no_parts(alloc),
        code: Row::from_vec(code),
        maps: Row::from_vec(maps),
        places: Row::from_vec(Vec::new(alloc)),
    })
}

/// Counts register 16 down from 1,000,000, puts the character a and ends.
fn countdown(alloc: Global) -> Result<SparcCode, AllocError>
    ensures { IfOk result (λ c. length c.starts ≡ 1) }
{
    let words = vec![in alloc;
        0x2100_03d0,
        0xa014_2240,
        0xa0a4_2001,
        0x12bf_ffff,
        0x0100_0000,
        0x1100_0018,
        0x9012_210a,
        0x91d0_2003,
        0x91d0_2000,
    ]?;
    let starts = vec![in alloc; 0]?;
    Ok(SparcCode {
        words: Row::from_vec(words),
        starts: Row::from_vec(starts),
    })
}

#[test]
fn counts_down_and_writes(rt: HostRuntime) -> Result<(), Fail> {
    let alloc = rt.alloc();
    let code = ending(alloc)?;
    let sparc = countdown(alloc)?;
    let mut machine = SparcMachine::load(alloc, &code, &sparc, 1024)?;
    let mut input = MemSource::new(alloc, b"", &[])?;
    let mut out = MemSink::new(alloc, 16, &[])?;
    assert!(rt; machine.at_start());
    assert_eq!(rt; machine.pointers(), (0, 1024));
    assert_eq!(rt; machine.step(&mut input, &mut out), Step::Went(None));
    assert_eq!(rt; machine.step(&mut input, &mut out), Step::Went(None));
    assert_eq!(rt; machine.register(16), 1_000_000);
    assert_eq!(rt; machine.run(9, &mut input, &mut out), Stop::Steps);
    assert_eq!(rt; machine.register(16), 999_997);
    assert_eq!(rt; machine.run(5_000_000, &mut input, &mut out), Stop::End);
    assert_eq!(rt; machine.run(1, &mut input, &mut out), Stop::End);
    assert_eq!(rt; machine.pc(), 32);
    assert!(rt; !machine.at_start());
    assert_eq!(rt; out.held(), b"a".as_slice());
    Ok(())
}
