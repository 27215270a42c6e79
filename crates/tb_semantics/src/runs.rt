//! Laws of runs, and of keeping by events alone.

ghost use Rattle.std.specs.Prelude.{ℕ, ◌+◌, ◌≡◌, List, []};
ghost use Rattle.tb_semantics.specs.Runs.{Machine, KeepsEvents, EmitsInOrder, Ends, IsPrefix, after};

/// A machine whose steps only append to its events has, after fewer steps, a prefix of its later events.
pub fn events_only_grow<E, S>()
    ensures law { (m : Machine E S) → EmitsInOrder m → (k n : ℕ) → IsPrefix (m.events (after m k)) (m.events (after m (k + n))) }
{}

/// Two passes, one after the other, keep what both keep.
pub fn keeps_events_composes<E, A, B, C>()
    ensures law { (a : Machine E A) (b : Machine E B) (c : Machine E C) → KeepsEvents a b → KeepsEvents b c → KeepsEvents a c }
{}

/// Two machines that come to an end with the same events keep one another.
pub fn same_end_keeps<E, A, B>()
    ensures law { (a : Machine E A) (b : Machine E B) → EmitsInOrder a → EmitsInOrder b → b.events b.start ≡ [] →
        (n m : ℕ) (es : List E) → Ends a n es → Ends b m es → KeepsEvents a b }
{}

/// A run that has come to a state which steps to itself stays there.
pub fn final_stays<E, S>()
    ensures law { (m : Machine E S) (n k : ℕ) (s : S) → after m n ≡ s → m.step s ≡ s → after m (n + k) ≡ s }
{}
