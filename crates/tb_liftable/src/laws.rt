//! What holds of the lambda expressions that are lifted.
ghost use Rattle.std.specs.Prelude.{◌≡◌, ◌+◌, ◌≤◌, ℕ, List, None, Some, length, slice_get};
ghost use Rattle.tb_semantics.specs.Graph.{IsIn};
ghost use Rattle.tb_core.specs.Lifting.{Lifted};
ghost use Rattle.tb_core.specs.Tree.{LambdaTree, ProgramTree};
ghost use Rattle.tb_liftable.specs.Added.{Added, Rising, added_to};
ghost use Rattle.tb_liftable.specs.Liftable.{liftable, round, settled};
ghost use Rattle.tb_liftable.specs.Procedures.{Procedures, Within, formals_of};

/// What is added to a lambda expression is the least solution, in the order of the variables' numbers.
pub fn added_is_least_solution()
    ensures sound { (g : Procedures) (set : List ℕ) → Within g → (l y : ℕ) → IsIn y (added_to g set l) → Added g set l y }
    ensures full { (g : Procedures) (set : List ℕ) → Within g → (l y : ℕ) → Added g set l y → IsIn y (added_to g set l) }
    ensures rising { (g : Procedures) (set : List ℕ) (l : ℕ) → Rising (added_to g set l) }
{}

/// No round changes a settled set.
pub fn settled_stays()
    ensures law { (g : Procedures) (set : List ℕ) → round g (settled g set) ≡ settled g set }
{}

/// A lambda expression that is lifted has no rest parameter, and at most twelve parameters and added variables
/// together.
pub fn lifted_are_small()
    ensures operands { (p : ProgramTree) (line : Lifted) → IsIn line (liftable p) → formals_of (slice_get p.lambdas line.lambda) + length line.added ≤ 12 }
    ensures rest { (p : ProgramTree) (line : Lifted) → IsIn line (liftable p) → (m : LambdaTree) → slice_get p.lambdas line.lambda ≡ Some m → m.rest ≡ None }
{}
