//! The static objects of a text, as they are finished.
ghost use Rattle.std.specs.Prelude.{◌≡◌, ◌++◌, ◌∷◌, [], IfOk, OnOk, Option, length};
ghost use Rattle.std.specs.List.{list_any};
ghost use Rattle.tb_prim.specs.declared.constant.Const.TheVariants as constant;
ghost use Rattle.tb_prim.specs.declared.constant.Static.TheVariants as object;
ghost use Rattle.tb_expand.specs.Numbers as spec;
ghost use Rattle.tb_expand.specs.View.{data_of};
ghost use Rattle.tb_expand.specs.calls.Placing.{IsNoSymbol, KnowsSymbols, pairs_behind};
ghost use Rattle.tb_sexp.specs.View.{view, view_node};

use indexmap::IndexMap;
use std::alloc::Global;
use tb_prim::{Bytes, Const, NoMemory, Row, Static};
use tb_sexp::{Datum, Node};

/// The static objects that are finished, and the numbers of the symbols among them.
#[derive(Debug, Drop)]
pub struct Statics<'a> {
    pub objects: Vec<Static>,
    pub symbols: IndexMap<&'a [u8], u32>,
    ghost known: { KnowsSymbols objects.items symbols },
}

/// No static objects.
pub fn no_statics<'a>(alloc: Global) -> Statics<'a>
    ensures { result.objects.items ≡ [] }
{
    Statics {
        objects: Vec::new(alloc),
        symbols: IndexMap::new(alloc),
    }
}

fn object_number(objects: &[Static]) -> Result<u32, NoMemory>
    ensures { IfOk result (λ n. n ≡ length objects.now) }
{
    u32::try_from(objects.len()).map_err(|_| NoMemory)
}

/// A new object that is no symbol.
fn finish<'a>(statics: &mut Statics<'a>, object: Static) -> Result<Const, NoMemory>
    requires { IsNoSymbol object }
    ensures constant { IfOk result (λ c. c ≡ constant.Stat (length statics.old.objects.items)) }
    ensures objects { OnOk result (statics.new.objects.items ≡ statics.old.objects.items ++ object ∷ []) }
{
    let number = object_number(statics.objects.as_slice())?;
    statics.objects.push(object)?;
    Ok(Const::Stat(number))
}

/// A symbol, which is an object once.
fn place_symbol<'a>(
    alloc: Global,
    statics: &mut Statics<'a>,
    text: &'a [u8],
) -> Result<Const, NoMemory>
    ensures constant { IfOk result (λ c. c ≡ (spec.placed_symbol (list_any (spec.is_symbol text.now) statics.old.objects.items) statics.old.objects.items text.now).constant) }
    ensures objects { OnOk result (statics.new.objects.items ≡ (spec.placed_symbol (list_any (spec.is_symbol text.now) statics.old.objects.items) statics.old.objects.items text.now).statics) }
{
    if let Some(number) = statics.symbols.get(&text) {
        return Ok(Const::Stat(*number));
    }
    let number = object_number(statics.objects.as_slice())?;
    let symbol = Static::Sym(Bytes::new(alloc, text)?);
    statics.objects.reserve(1)?;
    statics.symbols.insert(text, number)?;
    statics.objects.push(symbol)?;
    Ok(Const::Stat(number))
}

/// A pair for each of the constants, the last one first, before what is behind them.
#[tactic(auto, using(crate::proofs::Placing::placing))]
fn finish_pairs<'a>(
    statics: &mut Statics<'a>,
    mut constants: Vec<Const>,
    tail: Const,
) -> Result<Const, NoMemory>
    ensures constant { IfOk result (λ c. c ≡ (pairs_behind constants.items (spec.unplaced statics.old.objects.items tail)).constant) }
    ensures objects { OnOk result (statics.new.objects.items ≡ (pairs_behind constants.items (spec.unplaced statics.old.objects.items tail)).statics) }
{
    let mut rest = tail;
    while let Some(constant) = constants.pop() {
        rest = finish(statics, Static::Pair(constant, rest))?;
    }
    Ok(rest)
}

/// The constant of a quoted datum, its parts before it. The recursion is as deep as the datum nests.
#[cycle(place)]
#[tactic(auto, using(crate::proofs::Placing::placing))]
fn place_datum<'a>(
    alloc: Global,
    statics: &mut Statics<'a>,
    datum: &'a Datum,
) -> Result<Const, NoMemory>
    ensures constant { IfOk result (λ c. c ≡ (spec.placed statics.old.objects.items (view datum.now)).constant) }
    ensures objects { OnOk result (statics.new.objects.items ≡ (spec.placed statics.old.objects.items (view datum.now)).statics) }
{
    place_constant(alloc, statics, &datum.node)
}

/// The same of what a datum is.
#[cycle(place)]
#[tactic(auto, using(crate::proofs::Placing::placing))]
pub fn place_constant<'a>(
    alloc: Global,
    statics: &mut Statics<'a>,
    node: &'a Node,
) -> Result<Const, NoMemory>
    ensures constant { IfOk result (λ c. c ≡ (spec.placed_in statics.old.objects.items (view_node node.now)).constant) }
    ensures objects { OnOk result (statics.new.objects.items ≡ (spec.placed_in statics.old.objects.items (view_node node.now)).statics) }
{
    match node {
        Node::Nil => Ok(Const::Nil),
        Node::Bool(truth) => Ok(Const::Bool(*truth)),
        Node::Fix(number) => Ok(Const::Fix(*number)),
        Node::Char(byte) => Ok(Const::Char(*byte)),
        Node::Str(text) => finish(statics, Static::Str(Bytes::new(alloc, text.as_slice())?)),
        Node::Name(text, _) => place_symbol(alloc, statics, text.as_slice()),
        Node::List(elements, tail) => {
            let constants = place_all(alloc, statics, elements.as_slice())?;
            match tail {
                None => finish_pairs(statics, constants, Const::Nil),
                Some(tail) => {
                    let last = place_datum(alloc, statics, tail.get())?;
                    finish_pairs(statics, constants, last)
                }
            }
        }
        Node::Vector(elements) => {
            let constants = place_all(alloc, statics, elements.as_slice())?;
            finish(statics, Static::Vector(Row::from_vec(constants)))
        }
    }
}

/// The constants of quoted data, one after another.
#[cycle(place)]
#[tactic(auto, using(crate::proofs::Placing::placing))]
fn place_all<'a>(
    alloc: Global,
    statics: &mut Statics<'a>,
    data: &'a [Datum],
) -> Result<Vec<Const>, NoMemory>
    ensures constants { IfOk result (λ cs. cs.items ≡ (spec.placed_all statics.old.objects.items (data_of data.now)).constants) }
    ensures objects { OnOk result (statics.new.objects.items ≡ (spec.placed_all statics.old.objects.items (data_of data.now)).statics) }
{
    let mut out = Vec::new(alloc);
    for datum in data {
        out.push(place_datum(alloc, statics, datum)?)?;
    }
    Ok(out)
}
