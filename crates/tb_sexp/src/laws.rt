ghost use Rattle.std.specs.Prelude.{◌≡◌, ℕ, Bool, List, [], ◌∷◌, ◌++◌, ◌⊎◌, length, take, drop, Ok, Err};
ghost use Rattle.tb_sexp.specs.declared.refusal.ReadRefusal.{ReadRefusal};
ghost use Rattle.tb_sexp.specs.declared.token.Fault.{Fault};
ghost use Rattle.tb_sexp.specs.declared.token.Token.{Token};
ghost use Rattle.tb_sexp.specs.Blanks.{BeginsNoBlank, Blank, BlankEnd, IsNoBlank};
ghost use Rattle.tb_sexp.specs.calls.Scanning.{blanks};
ghost use Rattle.tb_sexp.specs.calls.Lexing.{token_at};
ghost use Rattle.tb_sexp.specs.Texts.{IsRefused, IsText};
ghost use Rattle.tb_sexp.specs.Tokens.{EndsAt, Faulty, HasToken, Spells, Spoiled, TokenAt};
ghost use Rattle.tb_sexp.specs.Tree.{Tree};

/// What reading takes for a token is what the bytes that it takes spell, and what a word spells is read where it may
/// end; what reading finds wrong is wrong, and what is wrong is found. So a text begins with one token or has one fault.
pub fn tokens_are_read_as_spelled()
    ensures found { (bs : List ℕ) (t : Token) (n : ℕ) → token_at bs ≡ Ok (t, n) → TokenAt bs t n }
    ensures only { (w rest : List ℕ) (t : Token) → Spells w t → EndsAt t rest → token_at (w ++ rest) ≡ Ok (t, length w) }
    ensures fault_found { (bs : List ℕ) (f : Fault) → token_at bs ≡ Err f → Faulty bs f }
    ensures fault_only { (bs : List ℕ) (f : Fault) → Faulty bs f → token_at bs ≡ Err f }
    ensures covered { (bs : List ℕ) → HasToken bs ⊎ ((f : Fault) × Faulty bs f) }
    ensures one_token { (bs : List ℕ) (t u : Token) (m n : ℕ) → TokenAt bs t m → TokenAt bs u n → (t ≡ u) × (m ≡ n) }
    ensures apart { (bs : List ℕ) (f : Fault) → HasToken bs → Faulty bs f → ⊥ }
    ensures one_fault { (bs : List ℕ) (f g : Fault) → Faulty bs f → Faulty bs g → f ≡ g }
{}

/// What is passed before a token is blank, and what is blank is passed; so is a text in which nothing is left. A word
/// is not empty, and no word begins with what may stand before it.
pub fn blanks_are_passed()
    ensures front_found { (bs rest : List ℕ) (b : ℕ) → drop (blanks bs) bs ≡ b ∷ rest → Blank (take (blanks bs) bs) × IsNoBlank b }
    ensures end_found { (bs : List ℕ) → drop (blanks bs) bs ≡ [] → BlankEnd bs }
    ensures front_only { (front rest : List ℕ) (b : ℕ) → Blank front → IsNoBlank b → blanks (front ++ b ∷ rest) ≡ length front }
    ensures end_only { (bs : List ℕ) → BlankEnd bs → (blanks bs ≡ length bs) × (drop (blanks bs) bs ≡ []) }
    ensures words { (w : List ℕ) (t : Token) → Spells w t → BeginsNoBlank w }
    ensures faults { (bs : List ℕ) (f : Fault) → Spoiled bs f → BeginsNoBlank bs }
{}

/// A text spells one row of data or has one refusal, and not both.
pub fn texts_read_one_way()
    ensures one_reading { (library : Bool) (text : List ℕ) (ds es : List Tree) → IsText library text ds → IsText library text es → ds ≡ es }
    ensures not_both { (library : Bool) (text : List ℕ) (ds : List Tree) (e : ReadRefusal) → IsText library text ds → IsRefused library text e → ⊥ }
    ensures one_refusal { (library : Bool) (text : List ℕ) (e f : ReadRefusal) → IsRefused library text e → IsRefused library text f → e ≡ f }
    ensures covered { (library : Bool) (text : List ℕ) → ((ds : List Tree) × IsText library text ds) ⊎ ((e : ReadRefusal) × IsRefused library text e) }
{}
