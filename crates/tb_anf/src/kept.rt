//! The rules of A-normal form that speak of lists of the whole program.
ghost use Rattle.std.specs.Prelude.{◌≡◌, ◌<◌, ◌^◌, ◌++◌, true, ℕ, List, length};
ghost use Rattle.tb_semantics.specs.Graph.{IsApart};
ghost use Rattle.tb_core.specs.FreeVariables.{is_in};
ghost use Rattle.tb_core.specs.OperandOrder.{Line};
ghost use Rattle.tb_core.specs.Rules.{StaticsKeep};
ghost use Rattle.tb_ir.specs.AnfRules as anf;
ghost use Rattle.tb_ir.specs.AnfRules.{Numbered, forms_of, lambdas_of, node_count};
ghost use Rattle.tb_ir.specs.Rules as rules;
ghost use Rattle.tb_ir.specs.Rules.{IsOrderOf, KeepsRules, all_nodes, of_nodes, times};
ghost use Rattle.tb_ir.specs.Tree.{ProgramTree};
ghost use Rattle.tb_anf.specs.NormalForm.{normal_form};

/// In the normal form of a program that keeps its rules, under an order of it, each variable has one binding, each
/// lambda expression stands at exactly one block or is lifted, the procs of the forms stand first and those of the
/// lambda expressions, which are as many, in the order of their numbers, and there are fewer than 2^32 blocks and
/// operations.
pub fn lists_keep()
    ensures bound_once { (p : ProgramTree) (order : List Line) → KeepsRules (2 ^ 31) p → IsOrderOf p order → IsApart (anf.variables (normal_form p order)) }
    ensures lambdas_at_most_once { (p : ProgramTree) (order : List Line) → KeepsRules (2 ^ 31) p → IsOrderOf p order → IsApart (anf.standing (normal_form p order)) }
    ensures lambdas_at_least_once { (p : ProgramTree) (order : List Line) → KeepsRules (2 ^ 31) p → IsOrderOf p order →
        (l : ℕ) → l < length (lambdas_of (normal_form p order)) → is_in (anf.standing (normal_form p order)) l ≡ true }
    ensures forms_first { (p : ProgramTree) (order : List Line) → (normal_form p order).procs ≡ forms_of (normal_form p order) ++ lambdas_of (normal_form p order) }
    ensures numbered { (p : ProgramTree) (order : List Line) → Numbered 0 (lambdas_of (normal_form p order)) }
    ensures lambdas { (p : ProgramTree) (order : List Line) → length (lambdas_of (normal_form p order)) ≡ length p.lambdas }
    ensures few_nodes { (p : ProgramTree) (order : List Line) → KeepsRules (2 ^ 31) p → IsOrderOf p order → node_count (normal_form p order) < 2 ^ 32 }
    ensures statics { (p : ProgramTree) (order : List Line) → KeepsRules (2 ^ 31) p → StaticsKeep 0 (normal_form p order).statics }
{}

/// In that normal form a variable of the source is named, and is made into a cell, as often as in the source.
pub fn names_stay()
    ensures named { (p : ProgramTree) (order : List Line) → KeepsRules (2 ^ 31) p → IsOrderOf p order → (x : ℕ) → x < 2 ^ 31 → anf.times_named (normal_form p order) x ≡ rules.times_named p x }
    ensures celled { (p : ProgramTree) (order : List Line) → KeepsRules (2 ^ 31) p → IsOrderOf p order → (x : ℕ) → x < 2 ^ 31 →
        times x (anf.of_each anf.celled (anf.operations (normal_form p order))) ≡ times x (of_nodes rules.celled (all_nodes p)) }
{}
