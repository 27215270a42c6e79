//! Copies of the parts of code.

ghost use Rattle.std.specs.Prelude.{◌≡◌, IfOk};

use super::{BitRow, LambdaEntry, LiveMap, OrderEntry, Parts};
use std::alloc::Global;
use tb_prim::{Bytes, Const, GlobalName, NoMemory, Row, Static};

/// A copy of these elements.
fn copy_row<T: Copy>(alloc: Global, items: &[T]) -> Result<Row<T>, NoMemory>
    ensures { IfOk result (λ row. row ≡ items.now) }
{
    Ok(Row::from_vec(Vec::from_slice(alloc, items)?))
}

fn copy_slots(alloc: Global, slots: &Option<BitRow>) -> Result<Option<BitRow>, NoMemory>
    ensures { IfOk result (λ copy. copy ≡ slots.now) }
{
    match slots {
        None => Ok(None),
        Some(bits) => Ok(Some(copy_row(alloc, bits.as_slice())?)),
    }
}

/// A copy of a live map.
pub(super) fn copy_map(alloc: Global, map: &LiveMap) -> Result<LiveMap, NoMemory>
    ensures { IfOk result (λ copy. copy ≡ map.now) }
{
    Ok(LiveMap {
        regs: map.regs,
        slots: copy_slots(alloc, &map.slots)?,
    })
}

fn copy_bytes(alloc: Global, bytes: &Bytes) -> Result<Bytes, NoMemory>
    ensures { IfOk result (λ copy. copy ≡ bytes.now) }
{
    Bytes::new(alloc, bytes.as_slice())
}

fn copy_name(alloc: Global, global: &GlobalName) -> Result<GlobalName, NoMemory>
    ensures { IfOk result (λ copy. copy ≡ global.now) }
{
    Ok(GlobalName {
        library: global.library,
        name: copy_bytes(alloc, &global.name)?,
    })
}

fn copy_names(alloc: Global, globals: &[GlobalName]) -> Result<Row<GlobalName>, NoMemory>
    ensures { IfOk result (λ copy. copy ≡ globals.now) }
{
    let mut copy = Vec::new(alloc);
    for global in globals {
        copy.push(copy_name(alloc, global)?)?;
    }
    Ok(Row::from_vec(copy))
}

fn copy_static(alloc: Global, object: &Static) -> Result<Static, NoMemory>
    ensures { IfOk result (λ copy. copy ≡ object.now) }
{
    match object {
        Static::Pair(first, second) => Ok(Static::Pair(*first, *second)),
        Static::Vector(elements) => Ok(Static::Vector(copy_row(alloc, elements.as_slice())?)),
        Static::Str(bytes) => Ok(Static::Str(copy_bytes(alloc, bytes)?)),
        Static::Sym(bytes) => Ok(Static::Sym(copy_bytes(alloc, bytes)?)),
    }
}

fn copy_statics(alloc: Global, statics: &[Static]) -> Result<Row<Static>, NoMemory>
    ensures { IfOk result (λ copy. copy ≡ statics.now) }
{
    let mut copy = Vec::new(alloc);
    for object in statics {
        copy.push(copy_static(alloc, object)?)?;
    }
    Ok(Row::from_vec(copy))
}

fn copy_order(alloc: Global, entry: &OrderEntry) -> Result<OrderEntry, NoMemory>
    ensures { IfOk result (λ copy. copy ≡ entry.now) }
{
    Ok(OrderEntry {
        place: entry.place,
        order: copy_row(alloc, entry.order.as_slice())?,
    })
}

fn copy_orders(alloc: Global, order: &[OrderEntry]) -> Result<Row<OrderEntry>, NoMemory>
    ensures { IfOk result (λ copy. copy ≡ order.now) }
{
    let mut copy = Vec::new(alloc);
    for entry in order {
        copy.push(copy_order(alloc, entry)?)?;
    }
    Ok(Row::from_vec(copy))
}

/// A copy of these parts with these lambdas.
pub(super) fn copy_parts(
    alloc: Global,
    parts: &Parts,
    lambdas: Vec<LambdaEntry>,
) -> Result<Parts, NoMemory>
    ensures { IfOk result (λ copy. copy ≡ record parts.now { lambdas = lambdas.items }) }
{
    Ok(Parts {
        globals: copy_names(alloc, parts.globals.as_slice())?,
        statics: copy_statics(alloc, parts.statics.as_slice())?,
        lambdas: Row::from_vec(lambdas),
        order: copy_orders(alloc, parts.order.as_slice())?,
    })
}
