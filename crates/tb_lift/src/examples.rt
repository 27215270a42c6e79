//! Small programs that are lifted, as the machine of values runs them.
ghost use Rattle.std.specs.Prelude.{◌≡◌, ◌^◌, List, [], ◌∷◌};
ghost use Rattle.tb_prim.specs.declared.constant.Const.{Const};
ghost use Rattle.tb_prim.specs.declared.event.Event.{Event};
ghost use Rattle.tb_ir.specs.Examples.{Emits, call, letter, let_one, local, node, one, two};
ghost use Rattle.tb_ir.specs.Rules.{IsOrderOf, KeepsRules};
ghost use Rattle.tb_ir.specs.Tree.{Direct, Letrec, Quote, none};
ghost use Rattle.tb_lift.specs.Examples.{both, let_bound, let_bound_set, letrec_bound, lifted, second};

/// A call of a lambda expression that is lifted is direct, with the added variables after its own operands. In the place
/// of the lambda expression stands the unspecified value in a `let`, and nothing in a `letrec`.
pub fn worked_forms()
    ensures let_bound { (lifted let_bound let_bound_set).tree.forms ≡ one (let_one 1 0 (letter 2 65) (let_one 3 2 (node 5 (Quote Const.Unspecified)) (node 11 (Direct 0 (two (letter 13 66) (local 12 0)))))) }
    ensures both { (lifted letrec_bound both).tree.forms ≡ one (let_one 1 0 (letter 2 65) (node 3 (Letrec [] [] (node 10 (Direct 0 (one (local 11 0))))))) }
    ensures second { (lifted letrec_bound second).tree.forms ≡ one (let_one 1 0 (letter 2 65) (node 3 (Letrec (1 ∷ []) (0 ∷ []) (call 10 (local 11 1) none)))) }
{}

/// The events are those of the programs that are not lifted.
pub fn worked_events()
    ensures let_bound { Emits let_bound (Event.Enter 0 ∷ Event.Put 65 ∷ Event.Put 66 ∷ Event.Back ∷ Event.End ∷ []) }
    ensures let_bound_lifted { Emits (lifted let_bound let_bound_set) (Event.Enter 0 ∷ Event.Put 65 ∷ Event.Put 66 ∷ Event.Back ∷ Event.End ∷ []) }
    ensures letrec_bound { Emits letrec_bound (Event.Enter 0 ∷ Event.Enter 1 ∷ Event.Put 65 ∷ Event.Back ∷ Event.End ∷ []) }
    ensures both { Emits (lifted letrec_bound both) (Event.Enter 0 ∷ Event.Enter 1 ∷ Event.Put 65 ∷ Event.Back ∷ Event.End ∷ []) }
    ensures second { Emits (lifted letrec_bound second) (Event.Enter 0 ∷ Event.Enter 1 ∷ Event.Put 65 ∷ Event.Back ∷ Event.End ∷ []) }
{}
