//! What holds of all rows.
ghost use Rattle.std.specs.Prelude.{◌≡◌, ℕ, List};
ghost use Rattle.tb_semantics.specs.Graph.{IsApart};
ghost use Rattle.tb_core.specs.FreeVariables.{is_in};
ghost use Rattle.tb_ir.specs.AnfMachine.{free_block};
ghost use Rattle.tb_ir.specs.AnfTree.{Block};
ghost use Rattle.tb_live.specs.Live.{live_row};

/// A row has no variable twice, and its variables are exactly those that are free from its block on.
pub fn rows_are_exact()
    ensures once { (captured : ℕ → List ℕ) (b : Block) → IsApart (live_row captured b) }
    ensures same { (captured : ℕ → List ℕ) (b : Block) (x : ℕ) → is_in (live_row captured b) x ≡ is_in (free_block captured b) x }
{}
