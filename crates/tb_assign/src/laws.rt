//! Laws of assignment elimination.
ghost use Rattle.std.specs.Prelude.{◌≡◌, ◌≤◌, ◌^◌, ℕ, Bool, List, length, true};
ghost use Rattle.tb_prim.specs.declared.constant.Const.{Const};
ghost use Rattle.tb_semantics.specs.Keeps.{Keeps};
ghost use Rattle.tb_core.specs.Measures.{reference_measured};
ghost use Rattle.tb_core.specs.OperandOrder.{order_of};
ghost use Rattle.tb_core.specs.Limits.{FewOperands, FewParameters};
ghost use Rattle.tb_core.specs.Rules.{Each, EachAll, Every, KeepsRules, standing};
ghost use Rattle.tb_core.specs.Tree.{Form, LambdaTree, ProgramTree};
ghost use Rattle.tb_core.specs.Width as core;
ghost use Rattle.tb_ir.specs.Measures.{tree_measured};
ghost use Rattle.tb_ir.specs.FreeVariables as free;
ghost use Rattle.tb_ir.specs.Passed.{passed_at, quoted};
ghost use Rattle.tb_ir.specs.Rules as rules;
ghost use Rattle.tb_ir.specs.Rules.{all_nodes, form_of, of_nodes};
ghost use Rattle.tb_ir.specs.Tree as tree;
ghost use Rattle.tb_ir.specs.Width.{all_widths};
ghost use Rattle.tb_assign.specs.Constants.{Passes};
ghost use Rattle.tb_assign.specs.Eliminate.{cells_of};

/// A program in which each variable that is assigned is a cell keeps its source, under the source's order: its
/// events, the frames, procedures and words that are held at once, with nothing beyond, and what is made.
pub fn cells_keep()
    ensures law { (p : ProgramTree) (input : List ℕ) → KeepsRules p →
        Keeps (tree_measured (cells_of p) (order_of p) input) (reference_measured p (order_of p) input) 0 }
{}

/// No body is wider with cells: each body and form has the width of its source.
pub fn widths_stay()
    ensures law { (p : ProgramTree) → KeepsRules p → all_widths (cells_of p) (order_of p) ≡ core.all_widths p }
{}

/// A program with cells keeps the rules of its type, the order of its source is an order of it, and each lambda
/// expression stands where it stands in the source.
pub fn rules_keep()
    ensures rules { (p : ProgramTree) → KeepsRules p → rules.KeepsRules (2 ^ 27) (cells_of p) }
    ensures is_order { (p : ProgramTree) → KeepsRules p → rules.IsOrderOf (cells_of p) (order_of p) }
    ensures standing { (p : ProgramTree) → rules.standing (cells_of p) ≡ standing p }
    ensures lambdas { (p : ProgramTree) → length (cells_of p).lambdas ≡ length p.lambdas }
{}

/// No call passes more than 12 operands with cells, and no lambda expression takes more, where that is so in the source.
pub fn operands_stay_few()
    ensures operands { (p : ProgramTree) → KeepsRules p → EachAll (λ (s : ℕ) (f : Form). FewOperands f) p.forms →
        Every (λ (l : LambdaTree). Each (λ (s : ℕ) (f : Form). FewOperands f) l.body) p.lambdas →
        Every (λ (e : tree.Tree). tree.count (passed_at (form_of e)) ≤ 12) (all_nodes (cells_of p)) }
    ensures parameters { (p : ProgramTree) → Every FewParameters p.lambdas →
        Every (λ (l : tree.LambdaTree). length (free.parameters l) ≤ 12) (cells_of p).lambdas }
{}

/// A program with cells has no constant that its source does not have: a test that all of the source's pass is passed by
/// all.
pub fn constants_stay()
    ensures { (p : ProgramTree) (test : Const → Bool) → KeepsRules p → EachAll (λ (s : ℕ) (f : Form). Passes test f) p.forms →
        Every (λ (l : LambdaTree). Each (λ (s : ℕ) (f : Form). Passes test f) l.body) p.lambdas →
        Every (λ (c : Const). test c ≡ true) (of_nodes quoted (all_nodes (cells_of p))) }
{}
