//! Laws of graphs: the size of what can be reached.

ghost use Rattle.std.specs.Prelude.{◌≡◌, ◌≤◌, ℕ, List};
ghost use Rattle.tb_semantics.specs.Graph.{Graph, IsClosed, IsIn, ListsReachable, Reaches, below, kept, reaches, sum_of, total, with_roots};

/// The size of all that can be reached in a graph is the sum over any list of exactly those nodes, each once.
pub fn total_is_any_sum()
    ensures law { (size : ℕ → ℕ) (g : Graph) (xs : List ℕ) → IsClosed g → ListsReachable g xs → sum_of size xs ≡ total size g }
{}

/// What can be reached is no more than what there is.
pub fn total_is_within()
    ensures law { (size : ℕ → ℕ) (g : Graph) → total size g ≤ sum_of size (below g.count) }
{}

/// A graph that reaches the roots of another, over the same nodes and edges, reaches no less.
pub fn total_grows()
    ensures law { (size : ℕ → ℕ) (g : Graph) (rs : List ℕ) → IsClosed g →
        ((l : ℕ) → IsIn l g.roots → Reaches (with_roots g rs) l) → total size g ≤ total size (with_roots g rs) }
{}

/// The nodes that the test lets pass are exactly those that can be reached, each once.
pub fn reachable_are_kept()
    ensures law { (g : Graph) → IsClosed g → ListsReachable g (kept (reaches g) (below g.count)) }
{}
