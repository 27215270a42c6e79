ghost use Rattle.std.specs.Prelude.{ℕ, Bool, List};
ghost use Rattle.std.specs.List.{All};
ghost use Rattle.tb_sexp.specs.DatumRules.{IsPlainDatum};
ghost use Rattle.tb_sexp.specs.Printing.{printed};
ghost use Rattle.tb_sexp.specs.ReadData.{AreBytes, IsRead, ReadsBack};
ghost use Rattle.tb_sexp.specs.Texts.{IsText};
ghost use Rattle.tb_sexp.specs.Tree.{Tree};

/// The printed text of a datum that was read spells that datum and no other, apart from places, however long the text
/// is.
pub fn printed_reads_back()
    ensures law { (library : Bool) (d : Tree) → IsRead 256 d → ReadsBack library (printed d) d }
{}

/// The data that a text of bytes spells are such data: so each of them is spelled again by its printed text.
pub fn read_data()
    ensures law { (library : Bool) (bytes : List ℕ) (ds : List Tree) → AreBytes bytes → IsText library bytes ds → All (λ d. IsRead 256 d) ds }
    ensures again { (library : Bool) (bytes : List ℕ) (ds : List Tree) → AreBytes bytes → IsText library bytes ds → All (λ d. ReadsBack library (printed d) d) ds }
{}

/// A datum that was read, in which at most `n` lists and vectors stand inside one another, keeps the rules of data, has
/// names as written, and nests no deeper.
pub fn read_data_are_plain()
    ensures law { (n : ℕ) (d : Tree) → IsRead n d → IsPlainDatum n d }
{}
