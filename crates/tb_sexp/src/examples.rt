ghost use Rattle.std.specs.Prelude.{ℕ, pos, neg_ℤ, codes, [], ◌∷◌};
ghost use Rattle.tb_prim.specs.declared.place.Place.{Place};
ghost use Rattle.tb_sexp.specs.declared.token.Fault.TheVariants.{BadEscape};
ghost use Rattle.tb_sexp.specs.declared.token.Mark.{Mark};
ghost use Rattle.tb_sexp.specs.declared.token.Token.TheVariants as token;
ghost use Rattle.tb_sexp.specs.Blanks.{Blank};
ghost use Rattle.tb_sexp.specs.Grammar.{AreData, CanGoOn, CanGoOnSomehow, OpenedLast, placed};
ghost use Rattle.tb_sexp.specs.GrammarRows.{joined_data, joined_row, quoted_data, quoted_row, row};
ghost use Rattle.tb_sexp.specs.Tokens.{Faulty, HasToken, Spells};

/// Worked rows: `(a . (b))` and `'#(1) #t` spell data, two levels deep and no less; nothing begins with `(.`, `)` or
/// `')`; `((` needs two levels; the vector is what was opened last in `( #( ()`. And words: `#X-1f`, `"a\n"` and `Ab+`
/// are tokens, `1+` and `#\spac` are none, and nothing may be written `\q` in a string.
pub fn worked_rows()
    ensures joined { (p : Place) → AreData 2 (row p joined_row) (joined_data p) }
    ensures joined_deep { (p : Place) → CanGoOn 1 (row p joined_row) → ⊥ }
    ensures quoted { (p : Place) → AreData 2 (row p quoted_row) (quoted_data p) }
    ensures no_first { (p : Place) → CanGoOnSomehow (row p (token.Open ∷ token.Dot ∷ [])) → ⊥ }
    ensures no_opening { (p : Place) → CanGoOnSomehow (row p (token.Close ∷ [])) → ⊥ }
    ensures no_datum { (p : Place) (m : Mark) → CanGoOnSomehow (row p (token.Mark m ∷ token.Close ∷ [])) → ⊥ }
    ensures two_levels { (p : Place) → CanGoOn 2 (row p (token.Open ∷ token.Open ∷ [])) }
    ensures one_level { (p : Place) → CanGoOn 1 (row p (token.Open ∷ token.Open ∷ [])) → ⊥ }
    ensures last { (p q r s : Place) → OpenedLast (placed p token.Open ∷ placed q token.OpenVector ∷ placed r token.Open ∷ placed s token.Close ∷ []) q }
    ensures number { Spells (codes "#X-1f") (token.Fix (neg_ℤ (pos 31))) }
    ensures text { Spells (codes "\"a\\n\"") (token.Str (97 ∷ 10 ∷ [])) }
    ensures name { Spells (codes "Ab+") (token.Name (codes "ab+")) }
    ensures digits { HasToken (codes "1+") → ⊥ }
    ensures character { HasToken (codes "#\\spac") → ⊥ }
    ensures escape { Faulty (codes "\"a\\q\"") (BadEscape 2) }
    ensures blank { Blank (codes " ;x\n\t") }
{}
