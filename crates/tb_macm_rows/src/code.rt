//! Code of the MAC machine of any instructions that keep its rules, over the same globals and static objects.

ghost use Rattle.std.specs.Prelude.{◌≡◌, ◌<◌, ◌^◌, ℕ, pos, All, IfOk, IfSome, IsTrue, Some, length, map, slice_get, vec_len, [], ◌∷◌};
ghost use Rattle.tb_prim.specs.Primitives.{can_fail};
ghost use Rattle.tb_prim.specs.declared.constant.Const.TheVariants.{Fix, Char, Stat};
ghost use Rattle.tb_prim.specs.declared.constant.Static.TheVariants.{Pair, Vector, Str, Sym};
ghost use Rattle.tb_mac.specs.declared.code.Instr.TheVariants.{Proc};
ghost use Rattle.tb_mac.specs.Layout.{start_size};
ghost use Rattle.tb_mac.specs.Rules.{EntryOk, InstrOk, MapOk, PartsOk, NameOk, failing_from, instr_can_fail, number_can_fail};

use std::alloc::{AllocError, Global};
use tb_mac::{Instr, LambdaEntry, LiveMap, MacCode, Parts, PlaceEntry, instr_ok, primitive_at};
use tb_prim::{Bytes, Const, GlobalName, NoMemory, Place, Prim, Row, Static};

/// The place of the instruction with this number.
pub fn place_at(instr: u32) -> Place {
    Place {
        library: false,
        line: 1,
        column: instr,
    }
}

fn can_fail(prim: Prim) -> bool
    ensures { result ≡ can_fail prim }
{
    match prim {
        Prim::Cons
        | Prim::IsPair
        | Prim::IsNull
        | Prim::Not
        | Prim::IsBoolean
        | Prim::IsSymbol
        | Prim::IsChar
        | Prim::IsString
        | Prim::IsVector
        | Prim::IsProcedure
        | Prim::IsInteger
        | Prim::IsEof
        | Prim::Eq
        | Prim::ReadChar
        | Prim::PeekChar
        | Prim::Unspecified => false,
        _ => true,
    }
}

fn number_can_fail(number: u32) -> bool
    ensures { result ≡ number_can_fail number }
{
    match primitive_at(number) {
        Some(prim) => can_fail(prim),
        None => false,
    }
}

fn instr_can_fail(instr: Instr) -> bool
    ensures { result ≡ instr_can_fail instr }
{
    match instr {
        Instr::Args(_) | Instr::ArgsGe(_) | Instr::Invoke(_) | Instr::Apply => true,
        Instr::GlobalGet(_, _) | Instr::GlobalSet(_, _) | Instr::CellGet(_, _) => true,
        Instr::Op0(_, x) | Instr::Op1(_, _, x) => number_can_fail(x),
        Instr::Op2(_, _, _, x) | Instr::Op3(_, _, _, x) => number_can_fail(x),
        _ => false,
    }
}

fn no_map() -> LiveMap
    ensures { MapOk result }
{
    LiveMap {
        regs: 0,
        slots: None,
    }
}

fn placed(instr: u32) -> PlaceEntry
    ensures { result.instr ≡ instr }
{
    PlaceEntry {
        instr,
        place: place_at(instr),
    }
}

/// Places for the instructions that can fail.
fn places_of(alloc: Global, code: &[Instr]) -> Result<Vec<PlaceEntry>, NoMemory>
    requires { length code.now < 2 ^ 24 }
    ensures { IfOk result (λ v. map (λ p. p.instr) v.items ≡ failing_from 0 code.now) }
{
    let mut places = Vec::new(alloc);
    for (number, instr) in code.iter().enumerate() {
        if instr_can_fail(*instr) {
            places.push(placed(number as u32))?;
        }
    }
    Ok(places)
}

/// The fields of each instruction are in range.
fn fields_ok(parts: &Parts, code: &[Instr]) -> bool
    requires { length code.now < 2 ^ 24 }
    ensures { IsTrue result → All (InstrOk parts.now (length code.now)) code.now }
{
    for instr in code {
        if !instr_ok(parts, code.len() as u32, instr) {
            return false;
        }
    }
    true
}

/// The first instruction that enters lambda 0.
fn entry_of(code: &[Instr]) -> Option<u32>
    requires { length code.now < 2 ^ 24 }
    ensures { IfSome result (λ n. slice_get code.now n ≡ Some (Proc 0)) }
{
    for (number, instr) in code.iter().enumerate() {
        if matches!(*instr, Instr::Proc(0)) {
            return Some(number as u32);
        }
    }
    None
}

/// A map for each instruction, in which nothing is live.
fn maps_of(alloc: Global, count: usize) -> Result<Vec<LiveMap>, NoMemory>
    requires { count < 2 ^ 24 }
    ensures count { IfOk result (λ v. length v.items ≡ count) }
    ensures each { IfOk result (λ v. All MapOk v.items) }
{
    let mut maps = Vec::new(alloc);
    for _map in 0..count {
        maps.push(no_map())?;
    }
    Ok(maps)
}

/// A lambda for the first instruction that enters lambda 0, where one does.
fn lambdas_of(alloc: Global, code: &[Instr]) -> Result<Vec<LambdaEntry>, NoMemory>
    requires { length code.now < 2 ^ 24 }
    ensures few { IfOk result (λ v. vec_len v < 2 ^ 20) }
    ensures entries { IfOk result (λ v. (n : ℕ) → EntryOk v.items code.now n) }
{
    let mut lambdas = Vec::new(alloc);
    if let Some(entry) = entry_of(code) {
        lambdas.push(LambdaEntry {
            place: place_at(entry),
            lifted: false,
            entry,
        })?;
    }
    Ok(lambdas)
}

fn global(alloc: Global, name: u8) -> Result<GlobalName, NoMemory>
    ensures { IfOk result (λ g. NameOk g) }
{
    Ok(GlobalName {
        library: false,
        name: Bytes::new(alloc, &[name])?,
    })
}

/// Three globals.
fn globals(alloc: Global) -> Result<Vec<GlobalName>, NoMemory>
    ensures three { IfOk result (λ v. length v.items ≡ 3) }
    ensures names { IfOk result (λ v. All NameOk v.items) }
{
    let (f, g, h) = (
        global(alloc, 102)?,
        global(alloc, 103)?,
        global(alloc, 104)?,
    );
    Ok(vec![in alloc; f, g, h]?)
}

/// The pair (1 . 2), the string abcde, the symbol xyz, and the vector of 7, the pair and the character A.
fn statics(alloc: Global) -> Result<Vec<Static>, NoMemory>
    ensures { IfOk result (λ v. v.items ≡ Pair (Fix (pos 1)) (Fix (pos 2)) ∷ Str (97 ∷ 98 ∷ 99 ∷ 100 ∷ 101 ∷ [])
        ∷ Sym (120 ∷ 121 ∷ 122 ∷ []) ∷ Vector (Fix (pos 7) ∷ Stat 0 ∷ Char 65 ∷ []) ∷ []) }
{
    let text = Bytes::new(alloc, b"abcde")?;
    let name = Bytes::new(alloc, b"xyz")?;
    let elements = vec![in alloc; Const::Fix(7), Const::Stat(0), Const::Char(65)]?;
    Ok(vec![in alloc;
        Static::Pair(Const::Fix(1), Const::Fix(2)),
        Static::Str(text),
        Static::Sym(name),
        Static::Vector(Row::from_vec(elements)),
    ]?)
}

/// These lambdas, the globals and the static objects, which take the words from 0 to 15.
fn parts(alloc: Global, lambdas: Vec<LambdaEntry>) -> Result<Parts, NoMemory>
    requires { vec_len lambdas < 2 ^ 20 }
    ensures rules { IfOk result (λ p. PartsOk p) }
    ensures lambdas { IfOk result (λ p. p.lambdas ≡ lambdas.items) }
    ensures size { IfOk result (λ p. start_size p ≡ 16) }
{
    Ok(Parts {
        globals: Row::from_vec(globals(alloc)?),
        statics: Row::from_vec(statics(alloc)?),
        lambdas: Row::from_vec(lambdas),
        order: Row::from_vec(Vec::new(alloc)),
    })
}

/// The code of these instructions; None where they are none, are too many, or break a rule of code. The globals are
/// the words 0 to 2, and the pair, the string, the symbol and the vector stand from the words 4, 6, 10 and 12 on. A
/// lambda is entered by the first `proc 0`.
pub fn code_of(alloc: Global, code: &[Instr]) -> Result<Option<MacCode>, NoMemory>
    ensures code { IfOk result (λ o. IfSome o (λ c. c.code ≡ code.now)) }
    ensures size { IfOk result (λ o. IfSome o (λ c. start_size c.parts ≡ 16)) }
{
    if code.len() < 1 || code.len() >= 16_777_216 {
        return Ok(None);
    }
    let parts = parts(alloc, lambdas_of(alloc, code)?)?;
    if !fields_ok(&parts, code) {
        return Ok(None);
    }
    let maps = maps_of(alloc, code.len())?;
    let places = places_of(alloc, code)?;
    let mut row = Vec::new(alloc);
    row.extend_from_slice(code)?;
    Ok(Some(MacCode {
        parts,
        code: Row::from_vec(row),
        maps: Row::from_vec(maps),
        places: Row::from_vec(places),
    }))
}
