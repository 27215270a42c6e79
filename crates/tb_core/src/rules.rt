ghost use Rattle.std.specs.Prelude.{[]};
ghost use Rattle.tb_prim.specs.declared.constant.Const.{Const};
ghost use Rattle.tb_core.specs.Examples.{applied, early_read, letrec_closures, local, node, one, program, tail_loop};
ghost use Rattle.tb_core.specs.Rules.{KeepsRules};
ghost use Rattle.tb_core.specs.Tree.{Quote};
ghost use Rattle.tb_core.specs.View.{view_program};

use super::Program;

/// Each program keeps the rules of its type.
pub fn program_keeps_rules(_program: &Program)
    ensures { KeepsRules (view_program _program.now) }
{}

/// Small programs that keep the rules, and two that do not: a variable out of its scope, and the mark of a
/// variable without a value that is no operand of a `let`.
pub fn worked_rules()
    ensures tail_loop { KeepsRules tail_loop }
    ensures early_read { KeepsRules early_read }
    ensures letrec_closures { KeepsRules letrec_closures }
    ensures applied { KeepsRules (applied 2) }
    ensures out_of_scope { ¬ (KeepsRules (program 0 [] [] (one (local 1 0)))) }
    ensures misplaced_mark { ¬ (KeepsRules (program 0 [] [] (one (node 1 (Quote Const.Undefined))))) }
{}
