//! The ranges of an instruction's fields.

ghost use Rattle.std.specs.Prelude.{◌≡◌, ◌↔◌, ◌≤◌, IsTrue, IsSome, Some};
ghost use Rattle.tb_prim.specs.Primitives.{arity_at};
ghost use Rattle.tb_mac.specs.Layout.{static_tag};
ghost use Rattle.tb_mac.specs.Rules.{InstrOk, tag_at};

use super::{Instr, Parts, immediate_word, primitive_at};
use tb_prim::{Static, arity};

fn static_tag(object: &Static) -> u8
    ensures { result ≡ static_tag object.now }
{
    match object {
        Static::Pair(_, _) => 1,
        Static::Vector(_) => 3,
        Static::Str(_) => 5,
        Static::Sym(_) => 5,
    }
}

/// The tag of the static object with this number.
fn tag_at(statics: &[Static], number: u32) -> Option<u8>
    ensures { result ≡ tag_at statics.now number }
{
    match statics.get(number as usize) {
        Some(object) => Some(static_tag(object)),
        None => None,
    }
}

fn has_arity(number: u32, operands: u8) -> bool
    ensures { IsTrue result ↔ (arity_at number ≡ Some operands) }
{
    match primitive_at(number) {
        Some(prim) => arity(prim) == operands,
        None => false,
    }
}

fn has_tag(parts: &Parts, number: u32, tag: u8) -> bool
    ensures { IsTrue result ↔ (tag_at parts.now.statics number ≡ Some tag) }
{
    match tag_at(parts.statics.as_slice(), number) {
        Some(found) => found == tag,
        None => false,
    }
}

/// The fields of an instruction are in their ranges, in code of `count` instructions with these parts. Whether
/// a `proc` stands at a lambda's entry is a rule of the whole code. Takes no memory.
pub fn instr_ok(parts: &Parts, count: u32, instr: &Instr) -> bool
    ensures { IsTrue result ↔ InstrOk parts.now count instr.now }
{
    match *instr {
        Instr::Proc(x) => (x as usize) < parts.lambdas.as_slice().len(),
        Instr::Args(a) => a <= 12,
        Instr::ArgsGe(a) => a <= 11,
        Instr::Save(x) => x <= 1000,
        Instr::SetRtn(x) => x < count,
        Instr::Load(a, x) => a <= 16 && x < 1000,
        Instr::Store(a, x) => a <= 16 && x < 1000,
        Instr::Pop(_) => true,
        Instr::Return => true,
        Instr::Invoke(a) => a <= 12,
        Instr::Jump(x) => x < count,
        Instr::Brf(a, x) => a <= 16 && x < count,
        Instr::Imm(a, x) => a <= 16 && immediate_word(x).is_some(),
        Instr::Stat(a, b, x) => a <= 16 && has_tag(parts, x, b),
        Instr::Move(a, b) => a <= 16 && b <= 16,
        Instr::GlobalGet(a, x) => a <= 16 && (x as usize) < parts.globals.as_slice().len(),
        Instr::GlobalSet(a, x) => a <= 16 && (x as usize) < parts.globals.as_slice().len(),
        Instr::GlobalDef(a, x) => a <= 16 && (x as usize) < parts.globals.as_slice().len(),
        Instr::Cell(a, b) => a <= 16 && b <= 16,
        Instr::CellGet(a, b) => a <= 16 && b <= 16,
        Instr::CellSet(a, b) => a <= 16 && b <= 16,
        Instr::Clo(a, n, x) => a <= 16 && n <= 1000 && x < count,
        Instr::Capt(a, b, x) => a <= 16 && b <= 16 && x < 1000,
        Instr::CaptSet(a, b, x) => a <= 16 && b <= 16 && x < 1000,
        Instr::Apply => true,
        Instr::End => true,
        Instr::Op0(a, x) => a <= 16 && has_arity(x, 0),
        Instr::Op1(a, b, x) => a <= 16 && b <= 16 && has_arity(x, 1),
        Instr::Op2(a, b, c, x) => a <= 16 && b <= 16 && c <= 16 && has_arity(x, 2),
        Instr::Op3(a, b, c, x) => a <= 16 && b <= 16 && c <= 16 && has_arity(x, 3),
    }
}
