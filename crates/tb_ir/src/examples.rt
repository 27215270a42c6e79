//! Small programs of the three languages, as the machine of values runs them.
ghost use Rattle.std.specs.Prelude.{◌≡◌, ◌^◌, List, [], ◌∷◌, map};
ghost use Rattle.tb_prim.specs.declared.event.Cause.{Cause};
ghost use Rattle.tb_prim.specs.declared.event.Event.{Event};
ghost use Rattle.tb_core.specs.Examples.{spot};
ghost use Rattle.tb_ir.specs.AnfRules.{KeepsRules as AnfKeepsRules};
ghost use Rattle.tb_ir.specs.AnfWidth.{all_widths as anf_widths};
ghost use Rattle.tb_ir.specs.Rules.{IsOrderOf, KeepsRules};
ghost use Rattle.tb_ir.specs.Width.{all_widths};
ghost use Rattle.tb_ir.specs.Examples.{AnfEmits, Emits, anf_held, anf_loop, applied, complex_first, deep, dropped_string, early_read, failure_after_output, held, lifted_call, lifted_cell, mutual_closures, rest_parameter, shared_cell, tail_loop};

/// The events of small programs.
pub fn worked_programs()
    ensures tail_loop { Emits tail_loop (Event.Enter 0 ∷ Event.Enter 0 ∷ Event.Enter 0 ∷ Event.Put 65 ∷ Event.Back ∷ Event.End ∷ []) }
    ensures deep { Emits deep (Event.Enter 0 ∷ Event.Enter 0 ∷ Event.Enter 0 ∷ Event.Back ∷ Event.Back ∷ Event.Back ∷ Event.End ∷ []) }
    ensures shared_cell { Emits shared_cell (Event.Enter 0 ∷ Event.Back ∷ Event.Enter 1 ∷ Event.Back ∷ Event.Put 66 ∷ Event.End ∷ []) }
    ensures early_read { Emits early_read (Event.Fail Cause.Undefined (spot 6) ∷ []) }
    ensures lifted_call { Emits lifted_call (Event.Enter 0 ∷ Event.Put 65 ∷ Event.Put 66 ∷ Event.Back ∷ Event.End ∷ []) }
    ensures complex_first { Emits complex_first (Event.Put 65 ∷ Event.Put 66 ∷ Event.End ∷ []) }
    ensures rest_parameter { Emits rest_parameter (Event.Enter 0 ∷ Event.Put 66 ∷ Event.Back ∷ Event.End ∷ []) }
    ensures applied { Emits applied (Event.Enter 0 ∷ Event.Put 65 ∷ Event.Back ∷ Event.End ∷ []) }
    ensures failure_after_output { Emits failure_after_output (Event.Put 65 ∷ Event.Fail Cause.WrongType (spot 3) ∷ []) }
    ensures dropped_string { Emits dropped_string (Event.End ∷ []) }
    ensures mutual_closures { AnfEmits mutual_closures (Event.Enter 0 ∷ Event.Enter 1 ∷ Event.Put 66 ∷ Event.Back ∷ Event.End ∷ []) }
    ensures lifted_cell { AnfEmits lifted_cell (Event.Enter 0 ∷ Event.Put 66 ∷ Event.Back ∷ Event.End ∷ []) }
    ensures anf_loop { AnfEmits anf_loop (Event.Enter 0 ∷ Event.Enter 0 ∷ Event.Enter 0 ∷ Event.Back ∷ Event.End ∷ []) }
{}

/// The frames that wait, the procedures and the words that are held, and what was made, after some steps. A
/// loop of tail calls keeps its frames, a deep recursion has one more at each call, and a string that nothing
/// names any more is no longer held.
pub fn worked_shapes()
    ensures tail_loop { map (held tail_loop) (3 ∷ 10 ∷ 27 ∷ 44 ∷ 55 ∷ 57 ∷ [])
        ≡ (0 ∷ 1 ∷ 1 ∷ 1 ∷ []) ∷ (1 ∷ 1 ∷ 1 ∷ 1 ∷ []) ∷ (1 ∷ 1 ∷ 1 ∷ 1 ∷ []) ∷ (1 ∷ 1 ∷ 1 ∷ 1 ∷ []) ∷ (1 ∷ 1 ∷ 1 ∷ 1 ∷ []) ∷ (0 ∷ 1 ∷ 1 ∷ 1 ∷ []) ∷ [] }
    ensures deep { map (held deep) (3 ∷ 10 ∷ 28 ∷ 46 ∷ 56 ∷ 60 ∷ 64 ∷ [])
        ≡ (0 ∷ 1 ∷ 1 ∷ 1 ∷ []) ∷ (1 ∷ 1 ∷ 1 ∷ 1 ∷ []) ∷ (2 ∷ 1 ∷ 1 ∷ 1 ∷ []) ∷ (3 ∷ 1 ∷ 1 ∷ 1 ∷ []) ∷ (2 ∷ 1 ∷ 1 ∷ 1 ∷ []) ∷ (1 ∷ 1 ∷ 1 ∷ 1 ∷ []) ∷ (0 ∷ 1 ∷ 1 ∷ 1 ∷ []) ∷ [] }
    ensures shared_cell { map (held shared_cell) (8 ∷ 11 ∷ 13 ∷ 18 ∷ 19 ∷ 31 ∷ 34 ∷ [])
        ≡ (0 ∷ 0 ∷ 2 ∷ 2 ∷ []) ∷ (0 ∷ 1 ∷ 2 ∷ 3 ∷ []) ∷ (0 ∷ 2 ∷ 2 ∷ 4 ∷ []) ∷ (1 ∷ 2 ∷ 2 ∷ 4 ∷ []) ∷ (1 ∷ 1 ∷ 2 ∷ 4 ∷ []) ∷ (1 ∷ 0 ∷ 2 ∷ 4 ∷ []) ∷ (1 ∷ 0 ∷ 0 ∷ 4 ∷ []) ∷ [] }
    ensures lifted_call { map (held lifted_call) (8 ∷ 9 ∷ 18 ∷ 19 ∷ [])
        ≡ (0 ∷ 0 ∷ 0 ∷ 0 ∷ []) ∷ (1 ∷ 0 ∷ 0 ∷ 0 ∷ []) ∷ (1 ∷ 0 ∷ 0 ∷ 0 ∷ []) ∷ (0 ∷ 0 ∷ 0 ∷ 0 ∷ []) ∷ [] }
    ensures dropped_string { map (held dropped_string) (4 ∷ 5 ∷ 6 ∷ [])
        ≡ (0 ∷ 0 ∷ 0 ∷ 0 ∷ []) ∷ (0 ∷ 0 ∷ 10 ∷ 10 ∷ []) ∷ (0 ∷ 0 ∷ 0 ∷ 10 ∷ []) ∷ [] }
    ensures mutual_closures { map (anf_held mutual_closures) (4 ∷ 5 ∷ 8 ∷ 11 ∷ 14 ∷ 17 ∷ [])
        ≡ (0 ∷ 0 ∷ 0 ∷ 0 ∷ []) ∷ (0 ∷ 2 ∷ 0 ∷ 2 ∷ []) ∷ (1 ∷ 2 ∷ 0 ∷ 2 ∷ []) ∷ (1 ∷ 2 ∷ 0 ∷ 2 ∷ []) ∷ (1 ∷ 0 ∷ 0 ∷ 2 ∷ []) ∷ (0 ∷ 0 ∷ 0 ∷ 2 ∷ []) ∷ [] }
    ensures lifted_cell { map (anf_held lifted_cell) (6 ∷ 9 ∷ 15 ∷ 19 ∷ [])
        ≡ (1 ∷ 0 ∷ 0 ∷ 0 ∷ []) ∷ (1 ∷ 0 ∷ 2 ∷ 2 ∷ []) ∷ (1 ∷ 0 ∷ 0 ∷ 2 ∷ []) ∷ (0 ∷ 0 ∷ 0 ∷ 2 ∷ []) ∷ [] }
    ensures anf_loop { map (anf_held anf_loop) (3 ∷ 12 ∷ 26 ∷ 40 ∷ [])
        ≡ (0 ∷ 1 ∷ 1 ∷ 1 ∷ []) ∷ (1 ∷ 1 ∷ 1 ∷ 1 ∷ []) ∷ (1 ∷ 1 ∷ 1 ∷ 1 ∷ []) ∷ (1 ∷ 1 ∷ 1 ∷ 1 ∷ []) ∷ [] }
{}

/// The programs keep the rules of their types, and their orders are orders for them.
pub fn worked_rules()
    ensures tail_loop { KeepsRules (2 ^ 27) tail_loop.tree × IsOrderOf tail_loop.tree tail_loop.order }
    ensures deep { KeepsRules (2 ^ 27) deep.tree × IsOrderOf deep.tree deep.order }
    ensures shared_cell { KeepsRules (2 ^ 27) shared_cell.tree × IsOrderOf shared_cell.tree shared_cell.order }
    ensures early_read { KeepsRules (2 ^ 27) early_read.tree × IsOrderOf early_read.tree early_read.order }
    ensures lifted_call { KeepsRules (2 ^ 31) lifted_call.tree × IsOrderOf lifted_call.tree lifted_call.order }
    ensures mutual_closures { AnfKeepsRules mutual_closures }
    ensures lifted_cell { AnfKeepsRules lifted_cell }
    ensures anf_loop { AnfKeepsRules anf_loop }
{}

/// The widths of bodies and forms, counted by hand.
pub fn worked_widths()
    ensures tail_loop { all_widths tail_loop.tree tail_loop.order ≡ 2 ∷ 12 ∷ 3 ∷ [] }
    ensures shared_cell { all_widths shared_cell.tree shared_cell.order ≡ 11 ∷ 3 ∷ 2 ∷ [] }
    ensures lifted_call { all_widths lifted_call.tree lifted_call.order ≡ 4 ∷ 7 ∷ [] }
    ensures mutual_closures { anf_widths mutual_closures ≡ 4 ∷ 2 ∷ 5 ∷ [] }
    ensures lifted_cell { anf_widths lifted_cell ≡ 3 ∷ 4 ∷ [] }
{}
