//! Laws of the states of runs: locations, and environments.

ghost use Rattle.std.specs.Prelude.{◌≡◌, ◌+◌, ℕ, List, [], Some, length, slice_get};
ghost use Rattle.tb_prim.specs.declared.event.Event.{Event};
ghost use Rattle.tb_semantics.specs.Graph.{IsIn, Reaches, sum_of};
ghost use Rattle.tb_semantics.specs.Runs.{after};
ghost use Rattle.tb_core.specs.FirstUses.{first_of, free_in_order};
ghost use Rattle.tb_core.specs.FreeVariables.{free, inner_free};
ghost use Rattle.tb_core.specs.OperandOrder.{order_of};
ghost use Rattle.tb_core.specs.Reference.{Config, Eval, Running, reference};
ghost use Rattle.tb_core.specs.Rules.{KeepsRules};
ghost use Rattle.tb_core.specs.Space.{own_words, size_at, space};
ghost use Rattle.tb_core.specs.Store.{Clo, Env, env_size, flat_size};
ghost use Rattle.tb_core.specs.Tree.{ProgramTree, Tree};
ghost use Rattle.tb_reference.specs.Environments.{BindsOnce, ListsVariables, env_variables, environments};
ghost use Rattle.tb_reference.specs.Locations.{HasItem, HoldsThere, LeadsThere, ListsReached, config_at, graph_at};

/// In each state of a run every location that is named is there: those of the control, the frames, the globals and the
/// static objects, and those of the items of the store. So an item stands at each location that can be reached, and the
/// space is the state's own words and the flat sizes of exactly the items that can be reached, each once.
pub fn locations_are_there()
    ensures held { (p : ProgramTree) (input : List ℕ) (n : ℕ) → KeepsRules p → HoldsThere (length p.statics) (config_at p input n) }
    ensures led { (p : ProgramTree) (input : List ℕ) (n : ℕ) → KeepsRules p → LeadsThere (length p.statics) (config_at p input n) }
    ensures reached { (p : ProgramTree) (input : List ℕ) (n l : ℕ) → KeepsRules p →
        Reaches (graph_at p input n) l → HasItem (config_at p input n) l }
    ensures listed { (p : ProgramTree) (input : List ℕ) (n : ℕ) → KeepsRules p → (xs : List ℕ) × ListsReached (graph_at p input n) xs }
    ensures counted { (p : ProgramTree) (input : List ℕ) (n : ℕ) (xs : List ℕ) → KeepsRules p →
        ListsReached (graph_at p input n) xs →
        space (length p.statics) (config_at p input n)
        ≡ own_words (config_at p input n) + sum_of (size_at (config_at p input n).store) xs }
{}

/// In each state of a run no environment of the control, of a frame or of a procedure in the store binds a variable twice.
/// So the words of an environment are as many as the variables for which it has a location.
pub fn environments_bind_once()
    ensures once { (p : ProgramTree) (input : List ℕ) (n : ℕ) (r : Env) → KeepsRules p →
        IsIn r (environments (config_at p input n)) → BindsOnce r }
    ensures listed { (p : ProgramTree) (input : List ℕ) (n : ℕ) (r : Env) → KeepsRules p →
        IsIn r (environments (config_at p input n)) → ListsVariables r (env_variables r) }
    ensures counted { (p : ProgramTree) (input : List ℕ) (n : ℕ) (r : Env) (xs : List ℕ) → KeepsRules p →
        IsIn r (environments (config_at p input n)) → ListsVariables r xs → env_size r ≡ length xs }
{}

/// Of a run that goes on: an expression that is evaluated has an environment with exactly the variables that are free in it,
/// and a procedure one with exactly those of its lambda expression. So the flat size of a procedure is one word and one for
/// each free variable of its lambda expression.
pub fn environments_hold_free_variables()
    ensures evaluated { (p : ProgramTree) (input : List ℕ) (n : ℕ) (c : Config) (es : List Event) (e : Tree) (r : Env) → KeepsRules p →
        after (reference p (order_of p) input) n ≡ Running c es → c.control ≡ Eval e r →
        ListsVariables r (first_of [] (free (inner_free p) e)) }
    ensures kept { (p : ProgramTree) (input : List ℕ) (n : ℕ) (c : Config) (es : List Event) (l m : ℕ) (r : Env) → KeepsRules p →
        after (reference p (order_of p) input) n ≡ Running c es → slice_get c.store l ≡ Some (Clo m r) →
        ListsVariables r (free_in_order p m) }
    ensures sizes { (p : ProgramTree) (input : List ℕ) (n : ℕ) (c : Config) (es : List Event) (l m : ℕ) (r : Env) → KeepsRules p →
        after (reference p (order_of p) input) n ≡ Running c es → slice_get c.store l ≡ Some (Clo m r) →
        flat_size (Clo m r) ≡ 1 + length (free_in_order p m) }
{}
