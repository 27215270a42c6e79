//! What the code of a program refers to.
ghost use Rattle.std.specs.Prelude.{◌≡◌, filter, map, not, IfOk};
ghost use Rattle.tb_core.specs.Order.{view_line};
ghost use Rattle.tb_ir.specs.AnfPlain.{view_proc};
ghost use Rattle.tb_ir.specs.AnfRules.{is_form};
ghost use Rattle.tb_ir.specs.View.{view_anf};
ghost use Rattle.tb_codegen.specs.PlainCode.{entries, order_entry, parts_of};

use std::alloc::Global;
use tb_core::OrderLine;
use tb_ir::{Anf, AnfProc};
use tb_mac::{LambdaEntry, OrderEntry, Parts};
use tb_prim::{Bytes, Const, GlobalName, NoMemory, Row, Static};

/// A copy of these elements.
fn copy_row<T: Copy>(alloc: Global, items: &[T]) -> Result<Row<T>, NoMemory>
    ensures { IfOk result (λ row. row ≡ items.now) }
{
    Ok(Row::from_vec(Vec::from_slice(alloc, items)?))
}

fn copy_bytes(alloc: Global, bytes: &Bytes) -> Result<Bytes, NoMemory>
    ensures { IfOk result (λ copy. copy ≡ bytes.now) }
{
    Bytes::new(alloc, bytes.as_slice())
}

fn copy_name(alloc: Global, global: &GlobalName) -> Result<GlobalName, NoMemory>
    ensures { IfOk result (λ copy. copy ≡ global.now) }
{
    Ok(GlobalName {
        library: global.library,
        name: copy_bytes(alloc, &global.name)?,
    })
}

fn copy_names(alloc: Global, globals: &[GlobalName]) -> Result<Row<GlobalName>, NoMemory>
    ensures { IfOk result (λ copy. copy ≡ globals.now) }
{
    let mut copy = Vec::new(alloc);
    for global in globals {
        copy.push(copy_name(alloc, global)?)?;
    }
    Ok(Row::from_vec(copy))
}

fn copy_static(alloc: Global, object: &Static) -> Result<Static, NoMemory>
    ensures { IfOk result (λ copy. copy ≡ object.now) }
{
    match object {
        Static::Pair(first, second) => Ok(Static::Pair(*first, *second)),
        Static::Vector(elements) => Ok(Static::Vector(copy_row(alloc, elements.as_slice())?)),
        Static::Str(bytes) => Ok(Static::Str(copy_bytes(alloc, bytes)?)),
        Static::Sym(bytes) => Ok(Static::Sym(copy_bytes(alloc, bytes)?)),
    }
}

fn copy_statics(alloc: Global, statics: &[Static]) -> Result<Row<Static>, NoMemory>
    ensures { IfOk result (λ copy. copy ≡ statics.now) }
{
    let mut copy = Vec::new(alloc);
    for object in statics {
        copy.push(copy_static(alloc, object)?)?;
    }
    Ok(Row::from_vec(copy))
}

/// The order of the operands at a place.
fn order_entry(alloc: Global, line: &OrderLine) -> Result<OrderEntry, NoMemory>
    ensures { IfOk result (λ entry. entry ≡ order_entry (view_line line.now)) }
{
    Ok(OrderEntry {
        place: line.place,
        order: copy_row(alloc, line.order.as_slice())?,
    })
}

fn order_entries(alloc: Global, lines: &[OrderLine]) -> Result<Row<OrderEntry>, NoMemory>
    ensures { IfOk result (λ row. row ≡ map order_entry (map view_line lines.now)) }
{
    let mut out = Vec::new(alloc);
    for line in lines {
        out.push(order_entry(alloc, line)?)?;
    }
    Ok(Row::from_vec(out))
}

/// The lambdas among procs, each with its number as the label of its entry.
fn lambda_entries(alloc: Global, procs: &[AnfProc]) -> Result<Row<LambdaEntry>, NoMemory>
    ensures { IfOk result (λ row. row ≡ entries 0 (filter (λ q. not (is_form q)) (map view_proc procs.now))) }
{
    let mut out = Vec::new(alloc);
    let mut number: u32 = 0;
    for proc in procs {
        if proc.lambda.is_some() {
            out.push(LambdaEntry {
                place: proc.place,
                lifted: proc.lifted,
                entry: number,
            })?;
            number = number.checked_add(1).ok_or(NoMemory)?;
        }
    }
    Ok(Row::from_vec(out))
}

/// What the code of a program refers to.
pub(crate) fn program_parts(alloc: Global, anf: &Anf) -> Result<Parts, NoMemory>
    ensures { IfOk result (λ parts. parts ≡ parts_of (view_anf anf.now)) }
{
    Ok(Parts {
        globals: copy_names(alloc, anf.globals.as_slice())?,
        statics: copy_statics(alloc, anf.statics.as_slice())?,
        lambdas: lambda_entries(alloc, anf.procs.as_slice())?,
        order: order_entries(alloc, anf.order.as_slice())?,
    })
}
