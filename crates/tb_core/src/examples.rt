ghost use Rattle.std.specs.Prelude.{◌≡◌, List, [], ◌∷◌, map, pos, negsuc, Err};
ghost use Rattle.tb_prim.specs.declared.event.Cause.{Cause};
ghost use Rattle.tb_prim.specs.declared.event.Event.{Event};
ghost use Rattle.tb_prim.specs.declared.event.Taken.{Taken};
ghost use Rattle.tb_prim.specs.declared.primitive.Primitive.{Primitive};
ghost use Rattle.tb_semantics.specs.Runs.{after};
ghost use Rattle.tb_core.specs.Effects.{Changes, Fails, Gives, effect_of};
ghost use Rattle.tb_core.specs.Examples.{Emits, Stores, applied, applied_number, applied_to_number, assigned_capture, assigned_in_order, closure_of_one, complex_first, early_assignment, early_read, failure_after_output, lambda, letrec_closures, mixed_operands, no_procedure, no_room, reads, rest_parameter, spot, tail_loop, thirteen, three_objects, wrong_count};
ghost use Rattle.tb_core.specs.Limits.{form_measures, judge};
ghost use Rattle.tb_core.specs.declared.limits.CoreRefusal.TheVariants.{TooManyArgs};
ghost use Rattle.tb_core.specs.OperandOrder.{order_of};
ghost use Rattle.tb_core.specs.Reference.{reference};
ghost use Rattle.tb_core.specs.Space.{made_of, space_of};
ghost use Rattle.tb_core.specs.Width.{all_widths, factor_bound, square_sum, width_of};
ghost use Rattle.tb_core.specs.Store.{At, Bind, Char, Clo, Empty, Fix, Nil, Pair, contents};

/// The events of small programs, as the definitions of the reference machine compute them.
pub fn worked_programs()
    ensures tail_loop { Emits tail_loop [] (Event.Enter 0 ∷ Event.Enter 0 ∷ Event.Enter 0 ∷ Event.Put 65 ∷ Event.Back ∷ Event.End ∷ []) }
    ensures closure_of_one { Emits closure_of_one [] (Event.Enter 0 ∷ Event.Put 66 ∷ Event.Back ∷ Event.End ∷ []) }
    ensures assigned_capture { Emits assigned_capture [] (Event.Enter 0 ∷ Event.Back ∷ Event.Put 66 ∷ Event.End ∷ []) }
    ensures early_read { Emits early_read [] (Event.Fail Cause.Undefined (spot 5) ∷ []) }
    ensures early_assignment { Emits early_assignment [] (Event.Fail Cause.Undefined (spot 1) ∷ []) }
    ensures no_procedure { Emits no_procedure [] (Event.Fail Cause.NotProcedure (spot 1) ∷ []) }
    ensures wrong_count { Emits wrong_count [] (Event.Enter 0 ∷ Event.Fail Cause.WrongArgs (spot 2) ∷ []) }
    ensures rest_parameter { Emits rest_parameter [] (Event.Enter 0 ∷ Event.Put 66 ∷ Event.Back ∷ Event.End ∷ []) }
    ensures twelve_applied { Emits (applied 11) [] (Event.Enter 0 ∷ Event.Put 65 ∷ Event.Back ∷ Event.End ∷ []) }
    ensures thirteen_applied { Emits (applied 12) [] (Event.Fail Cause.TooMany (spot 1) ∷ []) }
    ensures reads { Emits reads (97 ∷ []) (Event.Took (Taken.Byte 97) ∷ Event.Took Taken.End ∷ Event.Took Taken.End ∷ Event.End ∷ []) }
    ensures complex_first { Emits complex_first [] (Event.Put 65 ∷ Event.Put 66 ∷ Event.End ∷ []) }
    ensures assigned_in_order { Emits assigned_in_order [] (Event.Put 66 ∷ Event.End ∷ []) }
    ensures mixed_operands { Emits mixed_operands [] (Event.Put 120 ∷ Event.Enter 0 ∷ Event.Put 50 ∷ Event.Put 51 ∷ Event.Put 52 ∷ Event.Back ∷ Event.End ∷ []) }
    ensures applied_number { Emits applied_number [] (Event.Fail Cause.NotProcedure (spot 1) ∷ []) }
    ensures applied_to_number { Emits applied_to_number [] (Event.Fail Cause.WrongType (spot 1) ∷ []) }
    ensures failure_after_output { Emits failure_after_output [] (Event.Put 65 ∷ Event.Fail Cause.WrongType (spot 3) ∷ []) }
    ensures letrec_closures { Emits letrec_closures [] (Event.Enter 0 ∷ Event.Enter 1 ∷ Event.Put 66 ∷ Event.Back ∷ Event.End ∷ []) }
{}

/// The lines of the operand order of two programs: an operand that is complex stands before one that is
/// simple, and a variable that is assigned is complex.
pub fn worked_orders()
    ensures complex_first { map (λ l. l.order) (order_of complex_first) ≡ (0 ∷ []) ∷ (0 ∷ []) ∷ (0 ∷ []) ∷ (1 ∷ 0 ∷ []) ∷ (0 ∷ []) ∷ [] }
    ensures assigned_in_order { map (λ l. l.order) (order_of assigned_in_order) ≡ (0 ∷ []) ∷ (0 ∷ []) ∷ (0 ∷ []) ∷ (0 ∷ 1 ∷ []) ∷ [] }
{}

/// The procedures that the programs make keep the variables that they name, and no more.
pub fn worked_closures()
    ensures one { Stores closure_of_one [] (Clo 0 (Bind 1 1 Empty)) }
    ensures first { Stores letrec_closures [] (Clo 0 (Bind 3 3 Empty)) }
    ensures second { Stores letrec_closures [] (Clo 1 (Bind 1 1 Empty)) }
{}

/// The space of a program that makes two variables and a procedure which keeps one of them: when the body of
/// the `let` begins (a variable, the frame of the top level, and the item of the variable), when the procedure
/// is made (its location, two frames, the items of the variable and of the procedure), and when it is entered.
pub fn worked_spaces()
    ensures at_body { space_of closure_of_one (after (reference closure_of_one (order_of closure_of_one) []) 6) ≡ 4 }
    ensures at_closure { space_of closure_of_one (after (reference closure_of_one (order_of closure_of_one) []) 8) ≡ 7 }
    ensures at_entry { space_of closure_of_one (after (reference closure_of_one (order_of closure_of_one) []) 9) ≡ 6 }
    ensures made { made_of (after (reference closure_of_one (order_of closure_of_one) []) 9) ≡ 6 }
{}

/// The widths of the bodies and forms of two programs, counted by hand. The lambda expression of the first has
/// one variable and eleven nodes; those of the second have four variables in scope and two nodes, and the form
/// round them has eight, two of which are the lambda expressions of its `letrec`.
pub fn worked_widths()
    ensures tail_loop { all_widths tail_loop ≡ 2 ∷ 12 ∷ 3 ∷ [] }
    ensures letrec_closures { all_widths letrec_closures ≡ 8 ∷ 6 ∷ 6 ∷ [] }
    ensures widest { width_of tail_loop ≡ 12 }
    ensures squares { square_sum tail_loop ≡ 157 }
    ensures factor { factor_bound tail_loop ≡ 192 }
{}

/// The arithmetic of the primitives at the ends of the fixnums, and the signs of division.
pub fn worked_primitives()
    ensures add { effect_of (contents []) Primitive.Add (Fix (pos 536870911) ∷ Fix (pos 1) ∷ []) ≡ Fails Cause.Overflow }
    ensures sub { effect_of (contents []) Primitive.Sub (Fix (pos 0) ∷ Fix (negsuc 536870911) ∷ []) ≡ Fails Cause.Overflow }
    ensures least { effect_of (contents []) Primitive.Sub (Fix (negsuc 536870910) ∷ Fix (pos 1) ∷ []) ≡ Gives (Fix (negsuc 536870911)) }
    ensures quotient { effect_of (contents []) Primitive.Quotient (Fix (negsuc 6) ∷ Fix (pos 2) ∷ []) ≡ Gives (Fix (negsuc 2)) }
    ensures quotient_overflow { effect_of (contents []) Primitive.Quotient (Fix (negsuc 536870911) ∷ Fix (negsuc 0) ∷ []) ≡ Fails Cause.Overflow }
    ensures zero_divide { effect_of (contents []) Primitive.Modulo (Fix (pos 1) ∷ Fix (pos 0) ∷ []) ≡ Fails Cause.ZeroDivide }
    ensures remainder { effect_of (contents []) Primitive.Remainder (Fix (negsuc 6) ∷ Fix (pos 2) ∷ []) ≡ Gives (Fix (negsuc 0)) }
    ensures modulo { effect_of (contents []) Primitive.Modulo (Fix (negsuc 6) ∷ Fix (pos 2) ∷ []) ≡ Gives (Fix (pos 1)) }
    ensures modulo_negative { effect_of (contents []) Primitive.Modulo (Fix (pos 7) ∷ Fix (negsuc 1) ∷ []) ≡ Gives (Fix (negsuc 0)) }
    ensures kind_before_zero { effect_of (contents []) Primitive.Quotient (Nil ∷ Fix (pos 0) ∷ []) ≡ Fails Cause.WrongType }
{}

/// The primitives on objects: an index at the end, past it and below it, kinds before ranges, and what is changed.
pub fn worked_objects()
    ensures last { effect_of (contents three_objects) Primitive.VectorRef (At 0 ∷ Fix (pos 1) ∷ []) ≡ Gives (Fix (pos 2)) }
    ensures past { effect_of (contents three_objects) Primitive.VectorRef (At 0 ∷ Fix (pos 2) ∷ []) ≡ Fails Cause.Range }
    ensures below { effect_of (contents three_objects) Primitive.VectorRef (At 0 ∷ Fix (negsuc 0) ∷ []) ≡ Fails Cause.Range }
    ensures kind_of_index { effect_of (contents three_objects) Primitive.VectorRef (At 0 ∷ Char 9 ∷ []) ≡ Fails Cause.WrongType }
    ensures kind_first { effect_of (contents three_objects) Primitive.VectorRef (At 1 ∷ Fix (pos 9) ∷ []) ≡ Fails Cause.WrongType }
    ensures string { effect_of (contents three_objects) Primitive.StringRef (At 1 ∷ Fix (pos 0) ∷ []) ≡ Gives (Char 65) }
    ensures set_car { effect_of (contents three_objects) Primitive.SetCar (At 2 ∷ Fix (pos 7) ∷ []) ≡ Changes 2 (Pair (Fix (pos 7)) Nil) }
    ensures code { effect_of (contents []) Primitive.CharToInt (Char 255 ∷ []) ≡ Gives (Fix (pos 255)) }
    ensures character { effect_of (contents []) Primitive.IntToChar (Fix (pos 255) ∷ []) ≡ Gives (Char 255) }
    ensures no_character { effect_of (contents []) Primitive.IntToChar (Fix (pos 256) ∷ []) ≡ Fails Cause.Range }
{}

/// The parameters of a form that is a lambda expression are judged before the form's width.
pub fn worked_limits()
    ensures parameters_first { judge (Ok no_room) (form_measures (thirteen ∷ []) (lambda 2 0)) ≡ Err (TooManyArgs (spot 2)) }
{}
