//! Rules, as they are taken from a form.
use tb_prim::Row;
use tb_sexp::{Datum, DatumRow};

/// A rule: a pattern, and the template of what replaces a use that it matches.
#[derive(Debug, Drop)]
pub struct Rule {
    pub pattern: Datum,
    pub template: Datum,
}

/// The literals and the rules of a form. `compile_rules` alone makes them.
#[derive(Debug, Drop)]
pub struct Rules {
    pub(crate) literals: DatumRow,
    pub(crate) rules: Row<Rule>,
}
