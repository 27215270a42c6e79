//! Laws of keeping: one pass after another, and windows by their numbers.

ghost use Rattle.std.specs.Prelude.{◌≡◌, ◌+◌, ℕ, false};
ghost use Rattle.tb_semantics.specs.Runs.{EmitsInOrder, IsPrefix, Machine, after};
ghost use Rattle.tb_semantics.specs.Keeps.{Measured, Keeps, IsInWindow, IsSameWindow, IsNeverFull, IsStillWhenFull};

/// Two passes, one after the other, keep what both keep, where the machine between them is never full: what the one
/// and the other may hold beyond their sources adds up.
pub fn keeps_composes<E, A, B, C>()
    ensures law { (a : Measured E A) (b : Measured E B) (c : Measured E C) (d e : ℕ) → IsNeverFull b →
        Keeps a b d → Keeps b c e → Keeps a c (d + e) }
{}

/// Moments of one run with equally many events have the same events.
pub fn same_number_same_window<E, S>()
    ensures law { (m : Machine E S) → EmitsInOrder m → (j n k : ℕ) → IsInWindow m j n → IsInWindow m j k →
        IsSameWindow m m n k }
{}

/// Where a machine that keeps another stands still, and is not full, it has emitted all events that the other ever emits.
pub fn stands_still_at_the_end<E, A, B>()
    ensures law { (a : Measured E A) (b : Measured E B) (d : ℕ) → EmitsInOrder a.machine → EmitsInOrder b.machine →
        IsStillWhenFull a → Keeps a b d → (n : ℕ) → a.machine.step (after a.machine n) ≡ after a.machine n →
        a.is_full (after a.machine n) ≡ false → (m : ℕ) →
        IsPrefix (b.machine.events (after b.machine m)) (a.machine.events (after a.machine n)) }
{}
