//! Worked rows that compute.
ghost use Rattle.std.specs.Prelude.{◌≡◌, [], ◌∷◌, Bool, List, None, Some, codes, false, true, ℕ};
ghost use Rattle.tb_prim.specs.declared.place.Place.{Place};
ghost use Rattle.tb_rules.specs.Compiled.{Bad, Made, Outside, outcome};
ghost use Rattle.tb_rules.specs.Examples.{a, b, dots, form, middle, nested, nested_template, row, twice, with_literal, with_tail};
ghost use Rattle.tb_rules.specs.Instances.{made, values};
ghost use Rattle.tb_rules.specs.Matching.{first_match, rule_matched};
ghost use Rattle.tb_rules.specs.Parts.{Many, One, nothing};
ghost use Rattle.tb_rules.specs.Uses.{nested_parts, nested_use, nested_variables, number, only, parts, use_of};
ghost use Rattle.tb_sexp.specs.Tree.{At, Name, Nil, Tree, Vector, more, none};

/// Forms with one rule. Nested ellipses, and a dotted pattern, are rules. An ellipsis in the middle of a list, a
/// variable twice, and a variable under another number of ellipses are none; a literal may stand twice. A vector is
/// refused where the rules are lawful otherwise.
pub fn worked_forms()
    ensures nested { (p : Place) → outcome (form p (nested p) (nested_template p)) ≡ Made (record { literals = none; rules = record { pattern = nested p; template = nested_template p } ∷ [] }) }
    ensures dotted { (p : Place) → outcome (form p (with_tail p) (b p)) ≡ Made (record { literals = none; rules = record { pattern = with_tail p; template = b p } ∷ [] }) }
    ensures literal { (p : Place) → outcome (with_literal p (twice p) (a p)) ≡ Made (record { literals = more (a p) none; rules = record { pattern = twice p; template = a p } ∷ [] }) }
    ensures middle { (p : Place) → outcome (form p (middle p) (a p)) ≡ Bad p }
    ensures twice { (p : Place) → outcome (form p (twice p) (a p)) ≡ Bad p }
    ensures uneven { (p : Place) → outcome (form p (nested p) (a p)) ≡ Bad p }
    ensures vector { (p q : Place) → outcome (form p (with_tail p) (At q (Vector none))) ≡ Outside q }
{}

/// Matches. Parts under one and two ellipses; the tail of a dotted pattern takes what is left, at the place of its first
/// element or, where nothing is left, at that of the list; a literal matches what has its binding alone; a list that is
/// too short does not match; and the first rule that matches is taken.
pub fn worked_matches()
    ensures nested { (same : Tree → Tree → Bool) (p : Place) → rule_matched same none (only (nested p)) (nested_use p) ≡ Some (nested_parts p) }
    ensures tail { (same : Tree → Tree → Bool) (p q r : Place) → rule_matched same none (only (with_tail p)) (use_of p (number p 1 ∷ number q 2 ∷ number r 3 ∷ [])) ≡ Some (parts (One (number p 1) ∷ One (row q (number q 2 ∷ number r 3 ∷ [])) ∷ [])) }
    ensures no_tail { (same : Tree → Tree → Bool) (p q : Place) → rule_matched same none (only (with_tail p)) (use_of q (number p 1 ∷ [])) ≡ Some (parts (One (number p 1) ∷ One (At q Nil) ∷ [])) }
    ensures literal { (p : Place) → rule_matched (λ x y. true) (more (a p) none) (only (twice p)) (use_of p (b p ∷ b p ∷ [])) ≡ Some nothing }
    ensures other_binding { (p : Place) → rule_matched (λ x y. false) (more (a p) none) (only (twice p)) (use_of p (a p ∷ a p ∷ [])) ≡ None }
    ensures short { (same : Tree → Tree → Bool) (p : Place) → rule_matched same none (only (with_tail p)) (use_of p []) ≡ None }
    ensures second { (same : Tree → Tree → Bool) (p : Place) → first_match same none 0 (only (with_tail p) ∷ only (nested p) ∷ only (nested p) ∷ []) (use_of p []) ≡ Some (record { rule = 1; parts = parts (Many nothing ∷ Many nothing ∷ []) }) }
{}

/// Instances. Parts under one and two ellipses; a name that is inserted gets its alias and the place of the use; and
/// nothing is made where counts under one ellipsis differ.
pub fn worked_instances()
    ensures nested { (alias : List ℕ → ℕ → ℕ) (p q : Place) → made alias q (nested_template p) (values (nested_variables p) (nested_parts p)) ≡ Some (row q (row q (number p 1 ∷ number p 4 ∷ []) ∷ row q (number p 2 ∷ number p 3 ∷ []) ∷ At q Nil ∷ [])) }
    ensures inserted { (p q : Place) → made (λ s a. 7) q (a p) [] ≡ Some (At q (Name (codes "a") 7)) }
    ensures uneven { (alias : List ℕ → ℕ → ℕ) (p q : Place) → made alias q (row p (row p (a p ∷ b p ∷ []) ∷ dots p ∷ [])) (values (nested_variables p) (parts (Many nothing ∷ Many (parts (One (number p 1) ∷ [])) ∷ []))) ≡ None }
{}
