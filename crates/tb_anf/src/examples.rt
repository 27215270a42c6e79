//! Small programs in A-normal form.
ghost use Rattle.std.specs.Prelude.{◌≡◌, List, [], ◌∷◌, map};
ghost use Rattle.tb_prim.specs.declared.event.Cause.{Cause};
ghost use Rattle.tb_prim.specs.declared.event.Event.{Event};
ghost use Rattle.tb_core.specs.Examples.{spot};
ghost use Rattle.tb_core.specs.Rules.{Every};
ghost use Rattle.tb_ir.specs.AnfRules.{KeepsRules};
ghost use Rattle.tb_ir.specs.AnfWidth.{all_widths as anf_widths};
ghost use Rattle.tb_ir.specs.Width.{all_widths};
ghost use Rattle.tb_ir.specs.Examples.{applied, complex_first, deep, dropped_string, early_read, failure_after_output, lifted_call, rest_parameter, shared_cell, tail_loop};
ghost use Rattle.tb_anf.specs.Examples.{NormalEmits, normal};
ghost use Rattle.tb_anf.specs.Worked.{IsWorked, rows};

/// The events of small programs are those of their sources.
pub fn worked_programs()
    ensures tail_loop { NormalEmits tail_loop (Event.Enter 0 ∷ Event.Enter 0 ∷ Event.Enter 0 ∷ Event.Put 65 ∷ Event.Back ∷ Event.End ∷ []) }
    ensures deep { NormalEmits deep (Event.Enter 0 ∷ Event.Enter 0 ∷ Event.Enter 0 ∷ Event.Back ∷ Event.Back ∷ Event.Back ∷ Event.End ∷ []) }
    ensures shared_cell { NormalEmits shared_cell (Event.Enter 0 ∷ Event.Back ∷ Event.Enter 1 ∷ Event.Back ∷ Event.Put 66 ∷ Event.End ∷ []) }
    ensures early_read { NormalEmits early_read (Event.Fail Cause.Undefined (spot 6) ∷ []) }
    ensures lifted_call { NormalEmits lifted_call (Event.Enter 0 ∷ Event.Put 65 ∷ Event.Put 66 ∷ Event.Back ∷ Event.End ∷ []) }
    ensures complex_first { NormalEmits complex_first (Event.Put 65 ∷ Event.Put 66 ∷ Event.End ∷ []) }
    ensures rest_parameter { NormalEmits rest_parameter (Event.Enter 0 ∷ Event.Put 66 ∷ Event.Back ∷ Event.End ∷ []) }
    ensures applied { NormalEmits applied (Event.Enter 0 ∷ Event.Put 65 ∷ Event.Back ∷ Event.End ∷ []) }
    ensures failure_after_output { NormalEmits failure_after_output (Event.Put 65 ∷ Event.Fail Cause.WrongType (spot 3) ∷ []) }
    ensures dropped_string { NormalEmits dropped_string (Event.End ∷ []) }
{}

/// The procs of small programs, worked by hand: nested uses from the left and from the right, a branch as an operand and
/// in tail position, a `let` in an arm and one with two operands, a sequence of three, a `letrec` of two, a call in tail
/// position and one that is not, an application, a cell, captured variables and a direct call.
pub fn worked_forms()
    ensures rows { Every IsWorked rows }
{}
