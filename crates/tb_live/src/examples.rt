//! The rows of small bodies.
ghost use Rattle.std.specs.Prelude.{◌≡◌, [], ◌∷◌};
ghost use Rattle.tb_live.specs.Examples.{branching, capturing, together};
ghost use Rattle.tb_live.specs.Live.{pressure_of, rows_at};

/// A branch has the rows of its arms after its own. Where procedures are made, alone or together, what they capture is
/// in use.
pub fn worked_rows()
    ensures branching { rows_at branching 0 ≡ (0 ∷ 1 ∷ []) ∷ (2 ∷ 1 ∷ 0 ∷ []) ∷ (1 ∷ 2 ∷ []) ∷ (0 ∷ []) ∷ [] }
    ensures together { rows_at together 0 ≡ (0 ∷ 1 ∷ []) ∷ (2 ∷ 1 ∷ []) ∷ [] }
    ensures capturing { rows_at capturing 0 ≡ (1 ∷ 0 ∷ []) ∷ (2 ∷ 1 ∷ []) ∷ (3 ∷ 1 ∷ []) ∷ [] }
    ensures pressures { pressure_of (rows_at branching 0) ∷ pressure_of (rows_at together 0) ∷ pressure_of [] ∷ [] ≡ 3 ∷ 2 ∷ 0 ∷ [] }
{}
