use super::{LambdaId, VarRow};
use tb_prim::Row;

/// A lambda expression that is lifted, and the variables that are added to its parameters, in the order of
/// their numbers.
#[derive(Debug, Drop)]
pub struct LiftLine {
    pub lambda: LambdaId,
    pub added: VarRow,
}

/// The lambda expressions that are lifted.
pub type LiftSet = Row<LiftLine>;
