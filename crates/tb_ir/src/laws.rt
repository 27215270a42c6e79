//! Laws of the machine of values, for the trees and for A-normal form.
ghost use Rattle.std.specs.Prelude.{◌≡◌, ◌≤◌, ◌+◌, ℕ, List};
ghost use Rattle.tb_prim.specs.declared.event.Event.{Event};
ghost use Rattle.tb_semantics.specs.Runs.{EmitsInOrder, after};
ghost use Rattle.tb_core.specs.OperandOrder.{Line};
ghost use Rattle.tb_ir.specs.AnfMachine.{AnfConfig, anf_machine};
ghost use Rattle.tb_ir.specs.AnfTree.{AnfTree};
ghost use Rattle.tb_ir.specs.Machine.{Stopped};
ghost use Rattle.tb_ir.specs.Space.{made_of};
ghost use Rattle.tb_ir.specs.Tree.{ProgramTree};
ghost use Rattle.tb_ir.specs.TreeMachine.{TreeConfig, tree_machine};

/// A run that has stopped stays as it is.
pub fn stopped_stays()
    ensures trees { (p : ProgramTree) (order : List Line) (input : List ℕ) (n k : ℕ) (c : TreeConfig) (es : List Event) → after (tree_machine p order input) n ≡ Stopped c es → after (tree_machine p order input) (n + k) ≡ Stopped c es }
    ensures anf { (p : AnfTree) (input : List ℕ) (n k : ℕ) (c : AnfConfig) (es : List Event) → after (anf_machine p input) n ≡ Stopped c es → after (anf_machine p input) (n + k) ≡ Stopped c es }
{}

/// A step emits at most one event, behind those before it.
pub fn emits_in_order()
    ensures trees { (p : ProgramTree) (order : List Line) (input : List ℕ) → EmitsInOrder (tree_machine p order input) }
    ensures anf { (p : AnfTree) (input : List ℕ) → EmitsInOrder (anf_machine p input) }
{}

/// What was made only grows along a run.
pub fn made_only_grows()
    ensures trees { (p : ProgramTree) (order : List Line) (input : List ℕ) (n k : ℕ) → made_of (after (tree_machine p order input) n) ≤ made_of (after (tree_machine p order input) (n + k)) }
    ensures anf { (p : AnfTree) (input : List ℕ) (n k : ℕ) → made_of (after (anf_machine p input) n) ≤ made_of (after (anf_machine p input) (n + k)) }
{}
