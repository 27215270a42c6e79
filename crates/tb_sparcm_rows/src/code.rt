//! Code of the MAC machine with few instructions, and words with their groups.

ghost use Rattle.std.specs.Prelude.{◌≡◌, ◌<◌, ◌^◌, [], IfOk, IfSome, length, vec_len};
ghost use Rattle.tb_mac.specs.Layout.{start_size};
ghost use Rattle.tb_mac.specs.Rules.{MapOk, PartsOk};

use std::alloc::{AllocError, Global};
use tb_mac::{Instr, LambdaEntry, LiveMap, MacCode, Parts, PlaceEntry};
use tb_prim::{Place, Row};
use tb_sparc::SparcCode;

/// The place of each instruction that has one.
pub const SPOT: Place = Place {
    library: false,
    line: 1,
    column: 1,
};

/// These lambdas, and nothing else.
fn parts(alloc: Global, lambdas: Vec<LambdaEntry>) -> Parts
    requires few { vec_len lambdas < 2 ^ 20 }
    ensures rules { PartsOk result }
    ensures lambdas { result.lambdas ≡ lambdas.items }
    ensures size { start_size result ≡ 0 }
{
    Parts {
        globals: Row::from_vec(Vec::new(alloc)),
        statics: Row::from_vec(Vec::new(alloc)),
        lambdas: Row::from_vec(lambdas),
        order: Row::from_vec(Vec::new(alloc)),
    }
}

fn no_map() -> LiveMap
    ensures { MapOk result }
{
    LiveMap {
        regs: 0,
        slots: None,
    }
}

fn placed(instr: u32) -> PlaceEntry
    ensures { result.instr ≡ instr }
{
    PlaceEntry { instr, place: SPOT }
}

/// One instruction, which can fail.
pub fn one_instruction(alloc: Global) -> Result<MacCode, AllocError>
    ensures parts { IfOk result (λ c. start_size c.parts ≡ 0) }
    ensures one { IfOk result (λ c. length c.code ≡ 1) }
{
    let code = vec![in alloc; Instr::Args(0)]?;
    let maps = vec![in alloc; no_map()]?;
    let places = vec![in alloc; placed(0)]?;
    Ok(MacCode {
        parts: parts(alloc, Vec::new(alloc)),
        code: Row::from_vec(code),
        maps: Row::from_vec(maps),
        places: Row::from_vec(places),
    })
}

/// An entry of a lambda, an instruction that can fail, a return and an end.
pub fn four_instructions(alloc: Global) -> Result<MacCode, AllocError>
    ensures parts { IfOk result (λ c. start_size c.parts ≡ 0) }
    ensures four { IfOk result (λ c. length c.code ≡ 4) }
{
    let code = vec![in alloc; Instr::Proc(0), Instr::Args(0), Instr::Return, Instr::End]?;
    let maps = vec![in alloc; no_map(), no_map(), no_map(), no_map()]?;
    let places = vec![in alloc; placed(1)]?;
    let lambdas = vec![in alloc;
        LambdaEntry {
            place: SPOT,
            lifted: false,
            entry: 0,
        },
    ]?;
    Ok(MacCode {
        parts: parts(alloc, lambdas),
        code: Row::from_vec(code),
        maps: Row::from_vec(maps),
        places: Row::from_vec(places),
    })
}

/// 1 to 1,000 words with one group, which starts at the first; None for other numbers of words.
pub fn one_group(alloc: Global, words: &[u32]) -> Result<Option<SparcCode>, AllocError>
    ensures { IfOk result (λ o. IfSome o (λ c. length c.starts ≡ 1)) }
{
    if words.is_empty() || words.len() > 1000 {
        return Ok(None);
    }
    let mut row = Vec::new(alloc);
    row.extend_from_slice(words)?;
    let starts = vec![in alloc; 0]?;
    Ok(Some(SparcCode {
        words: Row::from_vec(row),
        starts: Row::from_vec(starts),
    }))
}

/// At most 1,000 words with four groups; None for others, and where the starts do not rise or are behind the words.
pub fn four_groups(
    alloc: Global,
    words: &[u32],
    starts: [u32; 4],
) -> Result<Option<SparcCode>, AllocError>
    ensures { IfOk result (λ o. IfSome o (λ c. length c.starts ≡ 4)) }
{
    let [first, second, third, fourth] = starts;
    if first >= second || second >= third || third >= fourth {
        return Ok(None);
    }
    if fourth as usize >= words.len() || words.len() > 1000 {
        return Ok(None);
    }
    let mut row = Vec::new(alloc);
    row.extend_from_slice(words)?;
    let starts = vec![in alloc; first, second, third, fourth]?;
    Ok(Some(SparcCode {
        words: Row::from_vec(row),
        starts: Row::from_vec(starts),
    }))
}
