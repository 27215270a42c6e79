// Words with the places where the groups of instructions start.

ghost use Rattle.tb_sparc.specs.Grouped.{IsGrouped};

use tb_prim::Row;

pub type WordRow = Row<u32>;

/// The words of code, and for each instruction of the MAC machine the number of the word at which its group starts.
/// It keeps the rules that its fields have in an image.
#[derive(Debug, Drop)]
pub struct SparcCode {
    pub words: WordRow,
    pub starts: WordRow,
    pub ghost rules: { ∥ IsGrouped words starts ∥₁ },
}
