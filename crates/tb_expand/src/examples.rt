//! Small texts with what they mean, or with their first refusal.

ghost use Rattle.std.specs.Prelude.{◌≡◌, [], ◌∷◌, Option, None, Some, List, codes, false, map, pos, ℕ};
ghost use Rattle.tb_core.specs.Tree as core;
ghost use Rattle.tb_core.specs.Tree.{LambdaTree};
ghost use Rattle.tb_prim.specs.declared.constant.Const.{Const};
ghost use Rattle.tb_prim.specs.declared.constant.Static.{Static};
ghost use Rattle.tb_prim.specs.declared.primitive.Primitive.TheVariants.{Car, Cons};
ghost use Rattle.tb_expand.specs.Examples.{at, beginning, beginning_nodes, binding, binding_nodes, globals, globals_nodes, hidden_define, hidden_define_nodes, hiding, hiding_nodes, integrated, mixed, outside, scanned_first, shapeless, splitting, splitting_nodes, symbols, symbols_nodes, too_late, twice, unbuilt};
ghost use Rattle.tb_expand.specs.Numbers.{global_name, nodes_of_all, program_of};
ghost use Rattle.tb_expand.specs.Refusals.{BadForm, Duplicate, Integrated, NotBuilt};
ghost use Rattle.tb_expand.specs.Texts.{MeansText, RefusesText};

/// A `let` round uses of primitives; a body with definitions, one of them assigned; a form's name and a primitive's
/// that are bound; a definition that hides `define`; a `begin` that gives a lambda expression, and definitions in a `begin`; globals.
pub fn worked_texts()
    ensures binding { MeansText false binding binding_nodes }
    ensures splitting { MeansText false splitting splitting_nodes }
    ensures hiding { MeansText false hiding hiding_nodes }
    ensures beginning { MeansText false beginning beginning_nodes }
    ensures hidden_define { MeansText false hidden_define hidden_define_nodes }
    ensures symbols { MeansText false symbols symbols_nodes }
    ensures globals { MeansText false globals globals_nodes }
{}

/// An `if` without parts; a definition of a primitive; a variable bound twice; a body is scanned before its parts mean
/// anything; a definition behind an expression; an expression behind definitions in a `begin`; a primitive as a value before a form without shape; a library's name.
pub fn worked_refusals()
    ensures shapeless { RefusesText false shapeless (BadForm (at 1)) }
    ensures integrated { RefusesText false integrated (Integrated (at 9)) }
    ensures twice { RefusesText false twice (Duplicate (at 14)) }
    ensures scanned_first { RefusesText false scanned_first (BadForm (at 29)) }
    ensures too_late { RefusesText false too_late (BadForm (at 15)) }
    ensures mixed { RefusesText false mixed (BadForm (at 12)) }
    ensures outside { RefusesText false outside (NotBuilt (at 1)) }
    ensures unbuilt { RefusesText false unbuilt (NotBuilt (at 11)) }
{}

/// The numbers of nodes, variables, lambda expressions, globals and static objects.
pub fn worked_numbers()
    ensures statics { (program_of false binding_nodes).statics ≡ Static.Pair (Const.Fix (pos 2)) Const.Nil ∷ [] }
    ensures forms { (program_of false binding_nodes).forms ≡ core.more (core.Node (at 1) 0 (core.Let (0 ∷ []) (core.more (core.Node (at 10) 1 (core.Quote (Const.Fix (pos 1)))) core.none) (core.Node (at 14) 2 (core.PrimUse Cons (core.more (core.Node (at 20) 3 (core.Local 0)) (core.more (core.Node (at 22) 4 (core.PrimUse Car (core.more (core.Node (at 27) 5 (core.Quote (Const.Stat 0))) core.none))) core.none)))))) core.none }
    ensures parameters { map (λ (l : LambdaTree). l.formals) (program_of false splitting_nodes).lambdas ≡ (0 ∷ []) ∷ (4 ∷ []) ∷ [] ∷ [] }
    ensures rests { map (λ (l : LambdaTree). l.rest) (program_of false splitting_nodes).lambdas ≡ None ∷ None ∷ Some 5 ∷ [] }
    ensures nodes { nodes_of_all splitting_nodes ≡ 19 }
    ensures globals { (program_of false globals_nodes).globals ≡ global_name false (codes "f") ∷ global_name false (codes "list") ∷ [] }
    ensures symbols { (program_of false symbols_nodes).statics ≡ Static.Sym (codes "a") ∷ Static.Sym (codes "b") ∷ Static.Pair (Const.Stat 1) (Const.Stat 0) ∷ Static.Pair (Const.Stat 0) (Const.Stat 2) ∷ [] }
{}
