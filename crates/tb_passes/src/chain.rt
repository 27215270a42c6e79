//! The passes in code, one after another.
ghost use Rattle.std.specs.Prelude.{◌≡◌, ◌^◌, IfOk};
ghost use Rattle.tb_core.specs.View.{view_program};
ghost use Rattle.tb_ir.specs.Rules.{KeepsRules};
ghost use Rattle.tb_ir.specs.View.{view_cells, view_lifted};
ghost use Rattle.tb_mac.specs.CodeOf.{code_of};
ghost use Rattle.tb_passes.specs.Compilable.{IsCompilable};
ghost use Rattle.tb_passes.specs.Passes.{program_code};

use super::laws::normal_form_fits;
use std::alloc::Global;
use tb_anf::normalise;
use tb_assign::eliminate;
use tb_core::{Program, operand_order};
use tb_generate::generate;
use tb_ir::{CellProgram, Lifted};
use tb_mac::MacCode;
use tb_prim::{NoMemory, Row};

/// A program in which no lambda expression is lifted.
fn none_lifted(alloc: Global, cells: CellProgram) -> Lifted
    requires { KeepsRules (2 ^ 31) (view_cells cells) }
    ensures { view_lifted result ≡ view_cells cells }
{
    let CellProgram {
        globals,
        statics,
        lambdas,
        forms,
    } = cells;
    Lifted {
        globals,
        statics,
        lambdas,
        forms,
        set: Row::from_vec(Vec::new(alloc)),
    }
}

/// The code of a program: assigned variables become cells, the program comes into A-normal form, and code is made of it.
/// Want of memory is the only other answer.
pub fn code_of_program(alloc: Global, program: &Program) -> Result<MacCode, NoMemory>
    requires { IsCompilable (view_program program.now) }
    ensures { IfOk result (λ code. code_of code ≡ program_code (view_program program.now)) }
{
    normal_form_fits();
    tb_assign::laws::rules_keep();
    let order = operand_order(alloc, program)?;
    let cells = eliminate(alloc, program, &order)?;
    let lifted = none_lifted(alloc, cells);
    let anf = normalise(alloc, &lifted, &order)?;
    generate(alloc, &anf)
}
