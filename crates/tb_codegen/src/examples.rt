//! Small programs, whose code runs as they do.
ghost use Rattle.std.specs.Prelude.{List, [], ◌∷◌};
ghost use Rattle.tb_prim.specs.declared.event.Cause.{Cause};
ghost use Rattle.tb_prim.specs.declared.event.Event.{Event};
ghost use Rattle.tb_prim.specs.declared.event.Stop.{Stop};
ghost use Rattle.tb_core.specs.Examples.{spot};
ghost use Rattle.tb_ir.specs.Examples.{anf_loop, char, lifted_cell, mutual_closures};
ghost use Rattle.tb_codegen.specs.Examples.{SameEvents, StopsWith, applies_list, branches_at_top, calls_number, captures_one, drops_string, fails_after_output, joins_arms, reads_early, sets_elements, takes_rest};

/// Programs and their code emit the same events.
pub fn worked_programs()
    ensures failure { SameEvents fails_after_output 64 10 10 (Event.Put 65 ∷ Event.Fail Cause.WrongType (spot 3) ∷ []) }
    ensures closures { SameEvents mutual_closures 64 50 40 (Event.Enter 0 ∷ Event.Enter 1 ∷ Event.Put 66 ∷ Event.Back ∷ Event.End ∷ []) }
    ensures lifted { SameEvents lifted_cell 64 40 40 (Event.Enter 0 ∷ Event.Put 66 ∷ Event.Back ∷ Event.End ∷ []) }
    ensures loop_call { SameEvents anf_loop 64 90 90 (Event.Enter 0 ∷ Event.Enter 0 ∷ Event.Enter 0 ∷ Event.Back ∷ Event.End ∷ []) }
    ensures rest { SameEvents takes_rest 64 40 40 (Event.Enter 0 ∷ Event.Put 66 ∷ Event.Back ∷ Event.End ∷ []) }
    ensures applied { SameEvents applies_list 64 40 40 (Event.Enter 0 ∷ Event.Put 65 ∷ Event.Back ∷ Event.End ∷ []) }
    ensures early { SameEvents reads_early 64 20 20 (Event.Fail Cause.Undefined (spot 6) ∷ []) }
    ensures arms { SameEvents joins_arms 64 40 40 (Event.Enter 0 ∷ Event.Back ∷ Event.Put 89 ∷ Event.End ∷ []) }
    ensures captured { SameEvents (captures_one (char 66 ∷ [])) 64 40 40 (Event.Enter 0 ∷ Event.Put 65 ∷ Event.Put 66 ∷ Event.Back ∷ Event.End ∷ []) }
    ensures operands { SameEvents (captures_one (char 66 ∷ char 67 ∷ [])) 64 40 40 (Event.Enter 0 ∷ Event.Fail Cause.WrongArgs (spot 2) ∷ []) }
    ensures no_procedure { SameEvents calls_number 64 10 10 (Event.Fail Cause.NotProcedure (spot 1) ∷ []) }
    ensures elements { SameEvents sets_elements 64 40 60 (Event.Put 65 ∷ Event.End ∷ []) }
    ensures top_arms { SameEvents branches_at_top 64 30 40 (Event.Put 78 ∷ Event.Put 90 ∷ Event.End ∷ []) }
    ensures dropped { SameEvents drops_string 64 20 20 (Event.End ∷ []) }
{}

/// A request for words is refused where they do not fit: the frame of the form, or the string.
pub fn worked_requests()
    ensures string { StopsWith drops_string 6 10 (Stop.Full 0 3 4) [] }
    ensures frame { StopsWith drops_string 2 10 (Stop.Full 0 2 3) [] }
{}
