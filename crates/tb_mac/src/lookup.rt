//! Reading code.

ghost use Rattle.std.specs.Prelude.{◌≡◌, ◌^◌, ◌<◌, IfSome, slice_get, length};
ghost use Rattle.tb_mac.specs.MacStep.{place_of};
ghost use Rattle.tb_mac.specs.Rules.{InstrOk};

use super::{Instr, MacCode, PlaceEntry};
use tb_prim::Place;

fn instr_at(code: &[Instr], number: u32) -> Option<Instr>
    ensures { result ≡ slice_get code.now number }
{
    code.get(number as usize).copied()
}

/// The instruction with this number, where there is one; its fields are in range.
pub fn fetch(code: &MacCode, number: u32) -> Option<Instr>
    ensures instr { result ≡ slice_get code.now.code number }
    ensures keeps { IfSome result (InstrOk code.now.parts (length code.now.code)) }
    ensures few { IfSome result (λ _. number < 2 ^ 24) }
{
    instr_at(code.code.as_slice(), number)
}

/// The place of an instruction that can fail.
pub fn place_of(places: &[PlaceEntry], instr: u32) -> Option<Place>
    ensures { result ≡ place_of places.now instr }
{
    places
        .iter()
        .find(|entry| entry.instr == instr)
        .map(|entry| entry.place)
}
