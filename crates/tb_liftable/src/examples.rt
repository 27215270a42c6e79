//! The procedures of small programs that can be lifted.
ghost use Rattle.std.specs.Prelude.{◌≡◌, [], ◌∷◌};
ghost use Rattle.tb_liftable.specs.Examples.{assigned, compared, miscalled, mutual_calls, one_way, two_rounds, wide, with_rest};
ghost use Rattle.tb_liftable.specs.Liftable.{liftable};

/// Operands and added variables are twelve at most. Procedures that call each other have the same variables added, and
/// one that does not call the other only its own. What is compared, assigned, called with another number of operands
/// or has a rest parameter stays. A procedure that stays is an ordinary variable of those that call it.
pub fn worked_sets()
    ensures twelve { liftable (wide 11) ≡ record { lambda = 0; added = 0 ∷ [] } ∷ [] }
    ensures thirteen { liftable (wide 12) ≡ [] }
    ensures compared { liftable compared ≡ [] }
    ensures mutual_calls { liftable mutual_calls ≡ record { lambda = 0; added = 0 ∷ 1 ∷ [] } ∷ record { lambda = 1; added = 0 ∷ 1 ∷ [] } ∷ [] }
    ensures one_way { liftable one_way ≡ record { lambda = 0; added = 0 ∷ 1 ∷ [] } ∷ record { lambda = 1; added = 1 ∷ [] } ∷ [] }
    ensures assigned { liftable assigned ≡ [] }
    ensures with_rest { liftable with_rest ≡ [] }
    ensures miscalled { liftable miscalled ≡ [] }
    ensures two_rounds { liftable two_rounds ≡ [] }
{}
