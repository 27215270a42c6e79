//! A whole program in A-normal form.
ghost use Rattle.std.specs.Prelude.{◌≡◌, ℕ, List, map, IfOk};
ghost use Rattle.tb_semantics.specs.Keeps.{Keeps};
ghost use Rattle.tb_core.specs.Order.{view_line};
ghost use Rattle.tb_ir.specs.AnfWidth as anf_width;
ghost use Rattle.tb_ir.specs.Measures.{anf_measured, tree_measured};
ghost use Rattle.tb_ir.specs.Rules.{IsOrderOf};
ghost use Rattle.tb_ir.specs.View.{view_anf, view_lifted};
ghost use Rattle.tb_ir.specs.Width as width;
ghost use Rattle.tb_anf.specs.NormalForm.{normal_form};
ghost use Rattle.tb_anf.specs.Wider.{AreNoWider};

use super::normal::normal_procs;
use std::alloc::Global;
use tb_core::{Order, OrderLine};
use tb_ir::{Anf, Lifted};
use tb_prim::{NoMemory, Row, copy_names, copy_statics};

/// A copy of a line of an order.
fn copy_line(alloc: Global, line: &OrderLine) -> Result<OrderLine, NoMemory>
    ensures { IfOk result (λ l. l ≡ line.now) }
{
    Ok(OrderLine {
        place: line.place,
        site: line.site,
        order: Row::from_vec(Vec::from_slice(alloc, line.order.as_slice())?),
    })
}

/// A copy of these lines.
fn copy_lines(alloc: Global, lines: &[OrderLine]) -> Result<Order, NoMemory>
    ensures { IfOk result (λ row. row ≡ lines.now) }
{
    let mut out = Vec::new(alloc);
    for line in lines {
        out.push(copy_line(alloc, line)?)?;
    }
    Ok(Row::from_vec(out))
}

/// A program in A-normal form, for a program and an order of it. Linear in the nodes, but for what closures capture.
/// Want of memory is also the answer where nodes nest deeper than 1,000.
pub fn normalise(alloc: Global, lifted: &Lifted, order: &Order) -> Result<Anf, NoMemory>
    requires { IsOrderOf (view_lifted lifted.now) (map view_line order.now) }
    ensures normal { IfOk result (λ anf. view_anf anf ≡ normal_form (view_lifted lifted.now) (map view_line order.now)) }
    ensures keeps { IfOk result (λ anf. (input : List ℕ) → Keeps (anf_measured (view_anf anf) input) (tree_measured (view_lifted lifted.now) (map view_line order.now) input) 0) }
    ensures no_wider { IfOk result (λ anf. AreNoWider (anf_width.all_widths (view_anf anf)) (width.all_widths (view_lifted lifted.now) (map view_line order.now))) }
{
    let procs = normal_procs(alloc, lifted, order)?;
    Ok(Anf {
        globals: copy_names(alloc, lifted.globals.as_slice())?,
        statics: copy_statics(alloc, lifted.statics.as_slice())?,
        order: copy_lines(alloc, order.as_slice())?,
        procs,
    })
}
