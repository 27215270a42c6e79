//! The code of a program.
ghost use Rattle.std.specs.Prelude.{◌≡◌, IfOk};
ghost use Rattle.tb_ir.specs.View.{view_anf};
ghost use Rattle.tb_mac.specs.CodeOf.{code_of};
ghost use Rattle.tb_codegen.specs.Fits.{Fits};
ghost use Rattle.tb_codegen.specs.PlainCode as plain;

use super::laws::labels_are_resolved;
use super::parts::program_parts;
use super::program::program_items;
use std::alloc::Global;
use tb_codegen::laws::{code_is_short, items_can_be_assembled};
use tb_ir::Anf;
use tb_mac::{AsmRefusal, MacCode, assemble};
use tb_prim::NoMemory;

/// The plain code of a program that fits, or `NoMemory`: the assembler refuses none of its labels.
pub fn generate(alloc: Global, anf: &Anf) -> Result<MacCode, NoMemory>
    requires { Fits (view_anf anf.now) }
    ensures code { IfOk result (λ code. code_of code ≡ plain.code_of (view_anf anf.now)) }
{
    code_is_short();
    items_can_be_assembled();
    labels_are_resolved();
    let parts = program_parts(alloc, anf)?;
    let items = program_items(alloc, anf)?;
    match assemble(alloc, &parts, items.as_slice()) {
        Ok(code) => Ok(code),
        Err(AsmRefusal::NoMemory) => Err(NoMemory),
        Err(AsmRefusal::TwiceLabel(_)) => unreachable!(),
        Err(AsmRefusal::NoLabel(_)) => unreachable!(),
    }
}
