ghost use Rattle.std.specs.Prelude.{◌≡◌, ◌≢◌, ◌≤◌, ◌⊎◌, ℕ, true, false, List, [], ◌∷◌, ◌++◌, length, Ok, Err};
ghost use Rattle.tb_prim.specs.declared.place.Place.{Place};
ghost use Rattle.tb_sexp.specs.declared.refusal.ReadRefusal.{ReadRefusal};
ghost use Rattle.tb_sexp.specs.declared.refusal.ReadRefusal.TheVariants as refusal;
ghost use Rattle.tb_sexp.specs.declared.token.Mark.{Mark};
ghost use Rattle.tb_sexp.specs.declared.token.Token.{Token};
ghost use Rattle.tb_sexp.specs.declared.token.Token.TheVariants as token;
ghost use Rattle.tb_sexp.specs.calls.Scanning.{blanks};
ghost use Rattle.tb_sexp.specs.calls.Frames.{State};
ghost use Rattle.tb_sexp.specs.Grammar.{AreData, Atom, CanGoOn, CanGoOnSomehow, EndsWith, OpenedLast, Placed, placed};
ghost use Rattle.tb_sexp.specs.calls.Reached.{IsLastMark, Reaches};
ghost use Rattle.tb_sexp.specs.calls.Reading.{accept, finish, takes_datum};
ghost use Rattle.tb_sexp.specs.Tree.{Shape, Tree};

/// The rows of tokens that are read without a refusal are the fronts of rows that spell data, and each leads to one
/// state: where nothing is open, its data are those that the row spells. What is spelled with some levels is spelled
/// with more, and a row spells one row of data at most.
pub fn rows_are_read_as_spelled()
    ensures found { (ts : List Placed) (s : State) → Reaches ts s → s.frames ≡ [] → AreData 256 ts s.finished }
    ensures only { (ts : List Placed) (ds : List Tree) → AreData 256 ts ds → Reaches ts (record { finished = ds; frames = [] }) }
    ensures unique { (n m : ℕ) (ts : List Placed) (ds es : List Tree) → AreData n ts ds → AreData m ts es → ds ≡ es }
    ensures can_go_on { (ts : List Placed) (s : State) → Reaches ts s → CanGoOn 256 ts }
    ensures reached { (ts : List Placed) → CanGoOn 256 ts → (s : State) × Reaches ts s }
    ensures one_state { (ts : List Placed) (s r : State) → Reaches ts s → Reaches ts r → s ≡ r }
    ensures more_levels { (n m : ℕ) (ts : List Placed) (ds : List Tree) → n ≤ m → AreData n ts ds → AreData m ts ds }
    ensures more_levels_can { (n m : ℕ) (ts : List Placed) → n ≤ m → CanGoOn n ts → CanGoOn m ts }
{}

/// A token is refused where no row that spells data begins with it and the tokens before it, and there alone. It is
/// `TooDeep` where one does with more levels, and else `Syntax`; but a mark that is too deep is `Syntax` where no token
/// follows. A datum can stand where the row can go on with an atom.
pub fn tokens_are_refused_by_their_rows()
    ensures syntax { (ts : List Placed) (s : State) (p q : Place) (t : Token) (rest : List ℕ) → Reaches ts s → accept s p t rest ≡ Err (refusal.Syntax q) → (q ≡ p) × ((CanGoOnSomehow (ts ++ placed p t ∷ []) → ⊥) ⊎ IsLastMark s t rest) }
    ensures too_deep { (ts : List Placed) (s : State) (p q : Place) (t : Token) (rest : List ℕ) → Reaches ts s → accept s p t rest ≡ Err (refusal.TooDeep q) → (q ≡ p) × CanGoOnSomehow (ts ++ placed p t ∷ []) × (CanGoOn 256 (ts ++ placed p t ∷ []) → ⊥) × ((m : Mark) → t ≡ token.Mark m → blanks rest ≢ length rest) }
    ensures no_other { (s : State) (p : Place) (t : Token) (rest : List ℕ) (e : ReadRefusal) → accept s p t rest ≡ Err e → (e ≡ refusal.Syntax p) ⊎ (e ≡ refusal.TooDeep p) }
    ensures accepted { (ts : List Placed) (s : State) (p : Place) (t : Token) (rest : List ℕ) → Reaches ts s → CanGoOn 256 (ts ++ placed p t ∷ []) → (r : State) × (accept s p t rest ≡ Ok r) }
    ensures nowhere { (ts : List Placed) (s : State) (p : Place) (t : Token) (rest : List ℕ) → Reaches ts s → (CanGoOnSomehow (ts ++ placed p t ∷ []) → ⊥) → accept s p t rest ≡ Err (refusal.Syntax p) }
    ensures deeper { (ts : List Placed) (s : State) (p : Place) (t : Token) (rest : List ℕ) → Reaches ts s → CanGoOnSomehow (ts ++ placed p t ∷ []) → (CanGoOn 256 (ts ++ placed p t ∷ []) → ⊥) → ((m : Mark) → t ≡ token.Mark m → blanks rest ≢ length rest) → accept s p t rest ≡ Err (refusal.TooDeep p) }
    ensures last_mark { (ts : List Placed) (s : State) (p : Place) (m : Mark) (rest : List ℕ) → Reaches ts s → (CanGoOn 256 (ts ++ placed p (token.Mark m) ∷ []) → ⊥) → blanks rest ≡ length rest → accept s p (token.Mark m) rest ≡ Err (refusal.Syntax p) }
    ensures datum_taken { (ts : List Placed) (s : State) (p : Place) (t : Token) (shape : Shape) → Reaches ts s → takes_datum s.frames ≡ true → Atom t shape → CanGoOn 256 (ts ++ placed p t ∷ []) }
    ensures datum_refused { (ts : List Placed) (s : State) (p : Place) (t : Token) (shape : Shape) → Reaches ts s → takes_datum s.frames ≡ false → Atom t shape → CanGoOnSomehow (ts ++ placed p t ∷ []) → ⊥ }
{}

/// What reading answers at the end of the text: the data that the tokens spell; or, where they spell none, `Syntax` at
/// the mark that is the last token, and else `Unclosed` at the list or vector that was opened last. There is one such
/// list or vector at most.
pub fn ends_are_answered_by_their_rows()
    ensures whole { (ts : List Placed) (s : State) (ds : List Tree) → Reaches ts s → finish s.finished s.frames ≡ Ok ds → AreData 256 ts ds }
    ensures only { (ts : List Placed) (s : State) (ds : List Tree) → Reaches ts s → AreData 256 ts ds → finish s.finished s.frames ≡ Ok ds }
    ensures mark { (ts : List Placed) (s : State) (q : Place) → Reaches ts s → finish s.finished s.frames ≡ Err (refusal.Syntax q) → (m : Mark) × EndsWith ts (placed q (token.Mark m)) × ((n : ℕ) (ds : List Tree) → AreData n ts ds → ⊥) }
    ensures bracket { (ts : List Placed) (s : State) (q : Place) → Reaches ts s → finish s.finished s.frames ≡ Err (refusal.Unclosed q) → OpenedLast ts q × ((p : Place) (m : Mark) → EndsWith ts (placed p (token.Mark m)) → ⊥) × ((n : ℕ) (ds : List Tree) → AreData n ts ds → ⊥) }
    ensures no_other { (ts : List Placed) (s : State) (e : ReadRefusal) → Reaches ts s → finish s.finished s.frames ≡ Err e → (q : Place) × ((e ≡ refusal.Syntax q) ⊎ (e ≡ refusal.Unclosed q)) }
    ensures opened_once { (ts : List Placed) (q r : Place) → OpenedLast ts q → OpenedLast ts r → q ≡ r }
{}
