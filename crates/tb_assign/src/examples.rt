//! Small programs with cells.
ghost use Rattle.std.specs.Prelude.{◌≡◌, ◌^◌, List, [], ◌∷◌, Some, None};
ghost use Rattle.tb_prim.specs.declared.constant.Const.{Const};
ghost use Rattle.tb_prim.specs.declared.event.Cause.{Cause};
ghost use Rattle.tb_prim.specs.declared.event.Event.{Event};
ghost use Rattle.tb_prim.specs.declared.primitive.Primitive.{Primitive};
ghost use Rattle.tb_core.specs.Examples.{assigned_capture, assigned_in_order, early_read, mixed_operands, spot};
ghost use Rattle.tb_core.specs.OperandOrder.{order_of};
ghost use Rattle.tb_core.specs.Width as core;
ghost use Rattle.tb_ir.specs.Rules.{IsOrderOf, KeepsRules};
ghost use Rattle.tb_ir.specs.Tree.{CellGet, CellSet, Call, Lambda, Let, Local, Node, PrimUse, Quote, Seq, more, none, tree_at};
ghost use Rattle.tb_ir.specs.Width.{all_widths};
ghost use Rattle.tb_assign.specs.Eliminate.{body_site, cells_of, fresh, let_site, name_site};
ghost use Rattle.tb_assign.specs.Examples.{CellsEmit, IsLet, assigned_rest, cells_made, cells_read, cells_set, identity};
ghost use Rattle.tb_assign.specs.calls.Cells.{made};

/// The cells that are made, each by the fresh variable that it is made of, and those that are set and read, each by
/// the variable that it is bound to: an operand that is assigned while others are evaluated; a parameter that is not
/// assigned; a parameter and a rest parameter; and a variable of a `letrec` that is no lambda expression.
pub fn worked_cells()
    ensures mixed_made { cells_made mixed_operands ≡ fresh 3 ∷ [] }
    ensures mixed_set { cells_set mixed_operands ≡ 3 ∷ [] }
    ensures mixed_read { cells_read mixed_operands ≡ 3 ∷ 3 ∷ [] }
    ensures mixed_value { IsLet (fresh 3 ∷ []) (more (Node (spot 13) 13 (Quote (Const.Char 50))) none) (tree_at (cells_of mixed_operands).forms 2) }
    ensures identity_made { cells_made identity ≡ [] }
    ensures identity_read { cells_read identity ≡ [] }
    ensures rest_made { cells_made assigned_rest ≡ fresh 0 ∷ fresh 1 ∷ [] }
    ensures rest_set { cells_set assigned_rest ≡ 1 ∷ 0 ∷ [] }
    ensures split_made { cells_made early_read ≡ fresh 0 ∷ [] }
    ensures split_set { cells_set early_read ≡ 0 ∷ [] }
    ensures split_read { cells_read early_read ≡ 0 ∷ 0 ∷ [] }
{}

/// Whole forms and lambda expressions. A captured variable that is assigned: its cell is made at the head of the body
/// of its `let`, of a fresh variable, and is named where the variable was. Parameters that are assigned: one `let` at
/// the head of the body makes their cells, that of the rest parameter last.
pub fn worked_trees()
    ensures captured { (cells_of assigned_capture).forms ≡ more (Node (spot 1) 1 (Let (fresh 0 ∷ []) (more (Node (spot 2) 2 (Quote (Const.Char 65))) none)
        (Node (spot 1) (let_site 1) (Let (0 ∷ []) (more (made (spot 1) 0) none)
        (Node (spot 3) 3 (Let (1 ∷ []) (more (Node (spot 4) 4 (Lambda 0)) none) (Node (spot 6) 6 (Seq (more
        (Node (spot 7) 7 (CellSet (Node (spot 7) (name_site 7) (Local 0)) (Node (spot 8) 8 (Quote (Const.Char 66))))) (more
        (Node (spot 9) 9 (PrimUse Primitive.WriteChar (more (Node (spot 10) 10 (Call (Node (spot 11) 11 (Local 1)) none)) none))) none)))))))))) none }
    ensures identity { (cells_of identity).lambdas ≡ record { place = spot 2; formals = 0 ∷ []; rest = None; body = Node (spot 3) 3 (Local 0) } ∷ [] }
    ensures parameters { (cells_of assigned_rest).lambdas ≡ record {
      place = spot 2;
      formals = fresh 0 ∷ [];
      rest = Some (fresh 1);
      body = Node (spot 2) (body_site 0) (Let (0 ∷ 1 ∷ []) (more (made (spot 2) 0) (more (made (spot 2) 1) none))
          (Node (spot 3) 3 (Seq (more (Node (spot 4) 4 (CellSet (Node (spot 4) (name_site 4) (Local 1)) (Node (spot 5) 5 (CellGet (Node (spot 5) (name_site 5) (Local 0))))))
          (more (Node (spot 6) 6 (CellSet (Node (spot 6) (name_site 6) (Local 0)) (Node (spot 7) 7 (Quote (Const.Char 65))))) none)))));
    } ∷ [] }
{}

/// What small programs emit with cells, and that they keep the rules and are no wider.
pub fn worked_programs()
    ensures assigned_capture { CellsEmit assigned_capture [] (Event.Enter 0 ∷ Event.Back ∷ Event.Put 66 ∷ Event.End ∷ []) }
    ensures assigned_in_order { CellsEmit assigned_in_order [] (Event.Put 66 ∷ Event.End ∷ []) }
    ensures early_read { CellsEmit early_read [] (Event.Fail Cause.Undefined (spot 5) ∷ []) }
    ensures mixed_operands { CellsEmit mixed_operands [] (Event.Put 120 ∷ Event.Enter 0 ∷ Event.Put 50 ∷ Event.Put 51 ∷ Event.Put 52 ∷ Event.Back ∷ Event.End ∷ []) }
    ensures rules { KeepsRules (2 ^ 27) (cells_of mixed_operands) × IsOrderOf (cells_of mixed_operands) (order_of mixed_operands) }
    ensures widths { all_widths (cells_of mixed_operands) (order_of mixed_operands) ≡ core.all_widths mixed_operands }
    ensures capture_widths { all_widths (cells_of assigned_capture) (order_of assigned_capture) ≡ core.all_widths assigned_capture }
{}
