//! Laws of A-normal form.
ghost use Rattle.std.specs.Prelude.{◌≡◌, ◌+◌, ◌^◌, ◌≤◌, ℕ, Bool, true, List, length};
ghost use Rattle.tb_prim.specs.declared.constant.Const.{Const};
ghost use Rattle.tb_semantics.specs.Keeps.{Keeps};
ghost use Rattle.tb_core.specs.OperandOrder.{Line};
ghost use Rattle.tb_core.specs.Rules.{Every};
ghost use Rattle.tb_ir.specs.Measures.{anf_measured, tree_measured};
ghost use Rattle.tb_ir.specs.Rules.{IsLambda, IsOrderOf, KeepsRules, all_nodes, form_of, of_nodes};
ghost use Rattle.tb_ir.specs.AnfRules as anf_rules;
ghost use Rattle.tb_ir.specs.AnfRules.{of_each, operations};
ghost use Rattle.tb_ir.specs.AnfTree.{ProcTree};
ghost use Rattle.tb_ir.specs.AnfWidth as anf;
ghost use Rattle.tb_ir.specs.FreeVariables.{added_to, parameters};
ghost use Rattle.tb_ir.specs.Passed.{passed_at, passed_by};
ghost use Rattle.tb_ir.specs.Tree.{LambdaTree, ProgramTree, count};
ghost use Rattle.tb_ir.specs.Width as tree;
ghost use Rattle.tb_anf.specs.Constants.{constants, quoted};
ghost use Rattle.tb_anf.specs.NormalForm.{normal_form};
ghost use Rattle.tb_anf.specs.Wider.{AreNoWider};

/// A program in A-normal form keeps its source, under any order of the operands: its events, the frames, procedures
/// and words that are held at once, with nothing beyond, and what is made.
pub fn normal_form_keeps()
    ensures law { (p : ProgramTree) (order : List Line) (input : List ℕ) → KeepsRules (2 ^ 31) p → IsOrderOf p order →
        Keeps (anf_measured (normal_form p order) input) (tree_measured p order input) 0 }
{}

/// The procs are no wider than the bodies and forms of the source: their widths are, one for one, at most those of
/// the source in some order. So the largest width and the sum of the squared widths are no larger.
pub fn no_wider()
    ensures widths { (p : ProgramTree) (order : List Line) → KeepsRules (2 ^ 31) p → IsOrderOf p order →
        AreNoWider (anf.all_widths (normal_form p order)) (tree.all_widths p order) }
    ensures width { (p : ProgramTree) (order : List Line) → KeepsRules (2 ^ 31) p → IsOrderOf p order →
        anf.width_of (normal_form p order) ≤ tree.width_of p order }
    ensures square_sum { (p : ProgramTree) (order : List Line) → KeepsRules (2 ^ 31) p → IsOrderOf p order →
        anf.square_sum (normal_form p order) ≤ tree.square_sum p order }
{}

/// The normal form of a program that keeps its rules, under an order of it, keeps those of A-normal form.
pub fn rules_keep()
    ensures law { (p : ProgramTree) (order : List Line) → KeepsRules (2 ^ 31) p → IsOrderOf p order → anf_rules.KeepsRules (normal_form p order) }
{}

/// Where no call passes more than so many operands, no operation does, and where no lambda expression has more
/// parameters, with those that are added to it, no proc has.
pub fn operands_stay_few()
    ensures operands { (p : ProgramTree) (order : List Line) (n : ℕ) → Every (λ e. count (passed_at (form_of e)) ≤ n) (all_nodes p) →
        Every (λ op. length (passed_by op) ≤ n) (operations (normal_form p order)) }
    ensures parameters { (p : ProgramTree) (order : List Line) (n : ℕ) →
        ((l : ℕ) (m : LambdaTree) → IsLambda p l m → length (parameters m) + length (added_to p.set l) ≤ n) →
        Every (λ (q : ProcTree). length q.params ≤ n) (normal_form p order).procs }
{}

/// What a test says of each constant of the source, it says of each constant of the normal form: no other constant
/// comes in.
pub fn constants_stay()
    ensures law { (p : ProgramTree) (order : List Line) (test : Const → Bool) → KeepsRules (2 ^ 31) p →
        Every (λ c. test c ≡ true) (of_nodes quoted (all_nodes p)) →
        Every (λ c. test c ≡ true) (of_each constants (operations (normal_form p order))) }
{}
