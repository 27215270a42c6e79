//! Assembling items: labels become numbers of instructions.

ghost use Rattle.std.specs.Prelude.{◌≡◌, ◌++◌, ◌+◌, ◌<◌, ◌≤◌, ◌^◌, ℕ, length, map, nat_eq, IfOk, IfErr, OnOk, [], ◌∷◌, IsSome, is_some, OnErr};
ghost use Rattle.indexmap.specs.IndexMap.{get, keys};
ghost use Rattle.std.specs.Map.{keys_of};
ghost use Rattle.tb_semantics.specs.Graph.{IsApart, IsIn};
ghost use Rattle.tb_mac.specs.Assemble as spec;
ghost use Rattle.tb_mac.specs.Assemble.{AreResolved, ItemsOk, assembled, entry_labels, instructions, item_maps, item_places, labels, placed_at, target, targets, with_entry, with_target};
ghost use Rattle.tb_mac.specs.CodeOf.{code_of};
ghost use Rattle.tb_mac.specs.Refused.{IsRefused};
ghost use Rattle.tb_mac.specs.calls.Labels.{HasAll, Misses, StandsTwice, StoodBefore, labelled, number_in};

use super::copy::{copy_map, copy_parts};
use super::refusal::AsmRefusal;
use super::{Instr, Item, LambdaEntry, LiveMap, MacCode, Parts, PlaceEntry};
use indexmap::IndexMap;
use std::alloc::Global;
use tb_prim::{NoMemory, Place, Row};

/// Notes that a label stands before the instruction with this number.
fn note_label(labels: &mut IndexMap<u32, u32>, label: u32, number: u32) -> Result<(), AsmRefusal>
    ensures noted { OnOk result (labels.new.entries ≡ labels.old.entries ++ (label, number) ∷ []) }
    ensures absent { OnOk result (IsIn label (keys_of labels.old.entries) → ⊥) }
    ensures twice { IfErr result (StoodBefore labels.old.entries label) }
{
    match labels.insert(label, number) {
        Ok(None) => Ok(()),
        Ok(Some(_number)) => Err(AsmRefusal::TwiceLabel(label)),
        Err(_failed) => Err(AsmRefusal::NoMemory),
    }
}

/// The labels that stand among items, with the numbers of their instructions.
fn find_labels(alloc: Global, items: &[Item]) -> Result<IndexMap<u32, u32>, AsmRefusal>
    requires { length (instructions items.now) < 2 ^ 24 }
    ensures found { IfOk result (λ labels. labels.entries ≡ labelled 0 items.now) }
    ensures apart { IfOk result (λ _. IsApart (labels items.now)) }
    ensures twice { IfErr result (StandsTwice items.now) }
{
    let mut found = IndexMap::new(alloc);
    let mut count = 0;
    for item in items {
        match item {
            Item::Label(label) => note_label(&mut found, *label, count)?,
            Item::Ins(_, _, _) => count += 1,
        }
    }
    Ok(found)
}

/// The number of the instruction before which a label stands.
fn number_of(found: &IndexMap<u32, u32>, label: u32) -> Result<u32, AsmRefusal>
    ensures number { IfOk result (λ n. n ≡ number_in found.now.entries label) }
    ensures stands { IfOk result (λ _. HasAll found.now.entries (label ∷ [])) }
    ensures missing { IfErr result (Misses found.now.entries (label ∷ [])) }
{
    match found.get(&label) {
        Some(number) => Ok(*number),
        None => Err(AsmRefusal::NoLabel(label)),
    }
}

/// An instruction with a number in place of its label.
fn with_number(found: &IndexMap<u32, u32>, instr: Instr) -> Result<Instr, AsmRefusal>
    ensures made { IfOk result (λ i. i ≡ with_target (number_in found.now.entries) instr) }
    ensures stands { IfOk result (λ _. HasAll found.now.entries (target instr)) }
    ensures missing { IfErr result (Misses found.now.entries (target instr)) }
{
    match instr {
        Instr::SetRtn(x) => Ok(Instr::SetRtn(number_of(found, x)?)),
        Instr::Jump(x) => Ok(Instr::Jump(number_of(found, x)?)),
        Instr::Brf(a, x) => Ok(Instr::Brf(a, number_of(found, x)?)),
        Instr::Clo(a, n, x) => Ok(Instr::Clo(a, n, number_of(found, x)?)),
        _ => Ok(instr),
    }
}

/// The instructions of items, with numbers in place of labels.
fn numbered(
    alloc: Global,
    found: &IndexMap<u32, u32>,
    items: &[Item],
) -> Result<Vec<Instr>, AsmRefusal>
    ensures made { IfOk result (λ code. code.items ≡ map (with_target (number_in found.now.entries)) (instructions items.now)) }
    ensures stands { IfOk result (λ _. HasAll found.now.entries (targets (instructions items.now))) }
    ensures missing { IfErr result (Misses found.now.entries (targets (instructions items.now))) }
{
    let mut code = Vec::new(alloc);
    for item in items {
        match item {
            Item::Label(_) => {}
            Item::Ins(instr, _, _) => code.push(with_number(found, *instr)?)?,
        }
    }
    Ok(code)
}

/// An entry with a number in place of its label.
fn entry_with_number(
    found: &IndexMap<u32, u32>,
    lambda: LambdaEntry,
) -> Result<LambdaEntry, AsmRefusal>
    ensures made { IfOk result (λ l. l ≡ with_entry (number_in found.now.entries) lambda) }
    ensures stands { IfOk result (λ _. HasAll found.now.entries (lambda.entry ∷ [])) }
    ensures missing { IfErr result (Misses found.now.entries (lambda.entry ∷ [])) }
{
    Ok(LambdaEntry {
        entry: number_of(found, lambda.entry)?,
        ..lambda
    })
}

/// The entries of lambdas, with numbers in place of labels.
fn numbered_entries(
    alloc: Global,
    found: &IndexMap<u32, u32>,
    lambdas: &[LambdaEntry],
) -> Result<Vec<LambdaEntry>, AsmRefusal>
    ensures made { IfOk result (λ out. out.items ≡ map (with_entry (number_in found.now.entries)) lambdas.now) }
    ensures stands { IfOk result (λ _. HasAll found.now.entries (entry_labels lambdas.now)) }
    ensures missing { IfErr result (Misses found.now.entries (entry_labels lambdas.now)) }
{
    let mut out = Vec::new(alloc);
    for lambda in lambdas {
        out.push(entry_with_number(found, *lambda)?)?;
    }
    Ok(out)
}

/// The live maps of items.
fn maps_of(alloc: Global, items: &[Item]) -> Result<Vec<LiveMap>, NoMemory>
    ensures { IfOk result (λ maps. maps.items ≡ item_maps items.now) }
{
    let mut maps = Vec::new(alloc);
    for item in items {
        match item {
            Item::Label(_) => {}
            Item::Ins(_, map, _) => maps.push(copy_map(alloc, map)?)?,
        }
    }
    Ok(maps)
}

/// The place of an instruction, where one is given, goes behind those of others.
fn put_place(places: &mut Vec<PlaceEntry>, instr: u32, place: Option<Place>) -> Result<(), NoMemory>
    ensures { OnOk result (places.new.items ≡ places.old.items ++ placed_at instr place) }
{
    if let Some(place) = place {
        places.push(PlaceEntry { instr, place })?;
    }
    Ok(())
}

/// The places of items.
fn places_of(alloc: Global, items: &[Item]) -> Result<Vec<PlaceEntry>, NoMemory>
    requires { length (instructions items.now) < 2 ^ 24 }
    ensures { IfOk result (λ places. places.items ≡ item_places 0 items.now) }
{
    let mut places = Vec::new(alloc);
    let mut count = 0;
    for item in items {
        match item {
            Item::Label(_) => {}
            Item::Ins(_, _, place) => {
                put_place(&mut places, count, *place)?;
                count += 1;
            }
        }
    }
    Ok(places)
}

/// Code of these items, where each label has become the number of the instruction before which it stands, in the
/// entries of `parts` too. The items and all of `parts` but the entries keep the rules of code, with any label where
/// a target stands; there are 1 to 2^24 - 1 instructions; each label stands before one, and that of an entry before
/// the `proc` of that lambda's number. `TwiceLabel` is looked for first, `NoLabel` in the items before the entries.
/// Linear in the items and parts.
pub fn assemble(alloc: Global, parts: &Parts, items: &[Item]) -> Result<MacCode, AsmRefusal>
    requires { ItemsOk parts.now items.now }
    ensures code { IfOk result (λ c. code_of c ≡ assembled parts.now items.now) }
    ensures resolved { IfOk result (λ _. AreResolved parts.now items.now) }
    ensures refused { IfErr result (IsRefused parts.now items.now) }
{
    let found = find_labels(alloc, items)?;
    let code = numbered(alloc, &found, items)?;
    let lambdas = numbered_entries(alloc, &found, parts.lambdas.as_slice())?;
    let parts = copy_parts(alloc, parts, lambdas)?;
    let maps = maps_of(alloc, items)?;
    let places = places_of(alloc, items)?;
    Ok(MacCode {
        parts,
        code: Row::from_vec(code),
        maps: Row::from_vec(maps),
        places: Row::from_vec(places),
    })
}
