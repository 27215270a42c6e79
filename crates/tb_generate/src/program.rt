//! The code of whole programs.
ghost use Rattle.std.specs.Prelude.{◌≡◌, ◌+◌, ◌++◌, ℕ, Some, cond, filter, length, map, nat_eq, not, IfOk, OnOk};
ghost use Rattle.indexmap.specs.IndexMap.{get};
ghost use Rattle.tb_ir.specs.AnfMachine.{captured_by, is_number, proc_of};
ghost use Rattle.tb_ir.specs.AnfPlain.{view_block, view_proc};
ghost use Rattle.tb_ir.specs.AnfRules.{is_form};
ghost use Rattle.tb_ir.specs.View.{view_anf};
ghost use Rattle.tb_codegen.specs.Generate.{labels_in, labels_within, noted_items};
ghost use Rattle.tb_codegen.specs.Notes.{item_of};
ghost use Rattle.tb_generate.specs.calls.Bodies.{captured_in};
ghost use Rattle.tb_generate.specs.calls.Entries.{form_items, forms_items, lambda_items, lambdas_items};
ghost use Rattle.tb_generate.specs.calls.Programs.{body_for, procs_items};

use super::bits::{no_registers, number_32};
use super::body::Body;
use super::entries::{put_form, put_lambda};
use super::homes::homes;
use super::put::{Code, put_away};
use indexmap::IndexMap;
use std::alloc::Global;
use tb_core::LambdaId;
use tb_ir::{Anf, AnfProc};
use tb_mac::{Instr, Item};
use tb_prim::{NoMemory, Static};

/// The procs of a program with the index of each lambda's, and its static objects.
#[derive(Clone, Copy)]
struct Source<'a> {
    alloc: Global,
    procs: &'a [AnfProc],
    lambdas: &'a IndexMap<LambdaId, usize>,
    statics: &'a [Static],
}

/// Where the first proc of each lambda is.
fn lambda_index(alloc: Global, procs: &[AnfProc]) -> Result<IndexMap<LambdaId, usize>, NoMemory>
    ensures { IfOk result (λ index. (m : ℕ) → captured_in procs.now (get nat_eq index m) ≡ captured_by (proc_of (map view_proc procs.now) m)) }
{
    let mut index = IndexMap::new(alloc);
    for at in (0..procs.len()).rev() {
        note_lambda(&mut index, at, &procs[at])?;
    }
    Ok(index)
}

/// Notes where the proc of a lambda is.
fn note_lambda(
    index: &mut IndexMap<LambdaId, usize>,
    at: usize,
    proc: &AnfProc,
) -> Result<(), NoMemory>
    ensures { OnOk result ((m : ℕ) → get nat_eq index.new m ≡ cond (is_number proc.now.lambda m) (Some at) (get nat_eq index.old m)) }
{
    if let Some(lambda) = proc.lambda {
        index.insert(lambda, at)?;
    }
    Ok(())
}

/// Puts the code of a proc that is a form.
fn put_form_of(
    source: Source,
    code: &mut Code,
    proc: &AnfProc,
    label: &mut u32,
) -> Result<(), NoMemory>
    ensures label { OnOk result (label.new ≡ label.old + labels_in (view_block proc.now.body)) }
    ensures items { OnOk result (code.new.items.items ≡ code.old.items.items ++ form_items (body_for source.entry (view_proc proc.now)) (view_proc proc.now) label.old) }
{
    let homes = homes(source.alloc, proc)?;
    let body = Body {
        alloc: source.alloc,
        procs: source.procs,
        lambdas: source.lambdas,
        statics: source.statics,
        slots: &homes.slots,
        origins: &homes.origins,
        size: homes.size,
    };
    put_form(body, code, proc, label)
}

/// Puts the code of the proc of a lambda.
fn put_lambda_of(
    source: Source,
    code: &mut Code,
    number: u32,
    proc: &AnfProc,
    label: &mut u32,
) -> Result<(), NoMemory>
    ensures label { OnOk result (label.new ≡ label.old + labels_in (view_block proc.now.body)) }
    ensures items { OnOk result (code.new.items.items ≡ code.old.items.items ++ lambda_items (body_for source.entry (view_proc proc.now)) number (view_proc proc.now) label.old) }
{
    let homes = homes(source.alloc, proc)?;
    let body = Body {
        alloc: source.alloc,
        procs: source.procs,
        lambdas: source.lambdas,
        statics: source.statics,
        slots: &homes.slots,
        origins: &homes.origins,
        size: homes.size,
    };
    put_lambda(body, code, number, proc, label)
}

/// Puts the code of the forms among procs.
fn put_forms(
    source: Source,
    code: &mut Code,
    procs: &[AnfProc],
    label: &mut u32,
) -> Result<(), NoMemory>
    ensures label { OnOk result (label.new ≡ label.old + labels_within (filter is_form (map view_proc procs.now))) }
    ensures items { OnOk result (code.new.items.items ≡ code.old.items.items ++ forms_items (body_for source.entry) (filter is_form (map view_proc procs.now)) label.old) }
{
    for proc in procs {
        if proc.lambda.is_none() {
            put_form_of(source, code, proc, label)?;
        }
    }
    Ok(())
}

/// Puts the code of the lambdas among procs, the first of which has this number.
fn put_lambdas(
    source: Source,
    code: &mut Code,
    procs: &[AnfProc],
    label: &mut u32,
) -> Result<(), NoMemory>
    ensures { OnOk result (code.new.items.items ≡ code.old.items.items ++ lambdas_items (body_for source.entry) 0 (filter (λ q. not (is_form q)) (map view_proc procs.now)) label.old) }
{
    let mut number = 0;
    for proc in procs {
        if proc.lambda.is_some() {
            put_lambda_of(source, code, number, proc, label)?;
            number = number.checked_add(1).ok_or(NoMemory)?;
        }
    }
    Ok(())
}

/// How many of the procs are lambdas.
fn lambda_count(procs: &[AnfProc]) -> Result<u32, NoMemory>
    ensures { IfOk result (λ n. n ≡ length (filter (λ q. not (is_form q)) (map view_proc procs.now))) }
{
    let mut count: usize = 0;
    for proc in procs {
        if proc.lambda.is_some() {
            count += 1;
        }
    }
    number_32(count)
}

/// The items of the code of procs.
fn items_of(alloc: Global, procs: &[AnfProc], statics: &[Static]) -> Result<Vec<Item>, NoMemory>
    ensures { IfOk result (λ items. items.items ≡ procs_items (map view_proc procs.now) statics.now) }
{
    let lambdas = lambda_index(alloc, procs)?;
    let source = Source {
        alloc,
        procs,
        lambdas: &lambdas,
        statics,
    };
    let mut code = Code {
        alloc,
        items: Vec::new(alloc),
    };
    let mut label = lambda_count(procs)?;
    put_forms(source, &mut code, procs, &mut label)?;
    put_away(&mut code, Instr::End, no_registers(), None)?;
    put_lambdas(source, &mut code, procs, &mut label)?;
    Ok(code.items)
}

/// The items of the code of a program.
pub(crate) fn program_items(alloc: Global, anf: &Anf) -> Result<Vec<Item>, NoMemory>
    ensures { IfOk result (λ items. items.items ≡ map item_of (noted_items (view_anf anf.now))) }
{
    items_of(alloc, anf.procs.as_slice(), anf.statics.as_slice())
}
