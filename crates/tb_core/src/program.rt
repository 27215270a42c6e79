ghost use Rattle.tb_core.specs.Plain.{plain_program};
ghost use Rattle.tb_core.specs.Rules.{KeepsRules};

use super::{Expr, ExprRow, VarId, VarRow};
use tb_prim::{NameRow, Place, Row, StaticRow};

/// A lambda expression: its parameters, and its body.
#[derive(Debug, Drop)]
pub struct Lambda {
    pub place: Place,
    pub formals: VarRow,
    pub rest: Option<VarId>,
    pub body: Expr,
}

impl Lambda {
    ghost use Rattle.std.specs.Prelude.{◌≡◌, ◌+◌, length};
    ghost use Rattle.tb_core.specs.Plain.{view_lambda};
    ghost use Rattle.tb_core.specs.Tree.{parameters};

    /// How many parameters the lambda expression has, the rest one counted.
    pub(crate) fn parameter_count(&self) -> usize
        ensures { result ≡ length (parameters (view_lambda self.now)) }
    {
        let formals = self.formals.as_slice().len();
        match self.rest {
            None => formals,
            Some(_) => formals + 1,
        }
    }
}

pub type LambdaRow = Row<Lambda>;

/// A whole program: the names of its globals, its constants, its lambda expressions in the order of their
/// numbers, and its top-level forms. Its type keeps the rules of `KeepsRules`.
#[derive(Debug, Drop)]
pub struct Program {
    pub globals: NameRow,
    pub statics: StaticRow,
    pub lambdas: LambdaRow,
    pub forms: ExprRow,
    pub ghost rules: { ∥ KeepsRules (plain_program globals statics lambdas forms) ∥₁ },
}
