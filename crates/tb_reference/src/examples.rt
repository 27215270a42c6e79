//! Worked rows: what states of small programs name, and what those of programs name that do not keep the rules.

ghost use Rattle.std.specs.Prelude.{◌≡◌, [], ◌∷◌};
ghost use Rattle.tb_core.specs.Examples.{closure_of_one, letrec_closures};
ghost use Rattle.tb_core.specs.Store.{Bind, Empty};
ghost use Rattle.tb_reference.specs.Environments.{BindsOnce, environments};
ghost use Rattle.tb_reference.specs.Examples.{no_object, one_variable};
ghost use Rattle.tb_reference.specs.Locations.{HoldsThere, ListsReached, config_at, graph_at};

/// A program has made two variables and a procedure that keeps the second: its value is the procedure, which leads to that
/// variable, and the first is not reached. A program that quotes a static object which it does not have comes to a state
/// that names a location where nothing stands.
pub fn worked_locations()
    ensures items { (graph_at closure_of_one [] 8).count ≡ 3 }
    ensures held { (graph_at closure_of_one [] 8).roots ≡ 2 ∷ [] }
    ensures led { (graph_at closure_of_one [] 8).next 2 ≡ 1 ∷ [] }
    ensures listed { ListsReached (graph_at closure_of_one [] 8) (2 ∷ 1 ∷ []) }
    ensures no_object { ¬ (HoldsThere 0 (config_at no_object [] 2)) }
{}

/// The body of a `letrec` of two procedures, each of which keeps one variable, has the variables of the `letrec` and the one
/// that is free in it. Where two binders have one variable, an environment binds it twice.
pub fn worked_environments()
    ensures letrec { environments (config_at letrec_closures [] 7)
        ≡ Bind 2 2 (Bind 3 3 (Bind 1 1 Empty)) ∷ Bind 3 3 Empty ∷ Bind 1 1 Empty ∷ [] }
    ensures one_variable { environments (config_at one_variable [] 7) ≡ Bind 0 1 (Bind 0 0 Empty) ∷ [] }
    ensures bound_twice { ¬ (BindsOnce (Bind 0 1 (Bind 0 0 Empty))) }
{}
