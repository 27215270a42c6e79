//! The program of a text, or its first refusal.
ghost use Rattle.std.specs.Prelude.{◌≡◌, MatchResult};
ghost use Rattle.tb_core.specs.Rules.{KeepsRules};
ghost use Rattle.tb_core.specs.View.{plain_program, view_program};
ghost use Rattle.tb_expand.specs.Programs.{IsProgramOf};
ghost use Rattle.tb_expand.specs.Texts.{RefusesText};
ghost use Rattle.tb_expand.specs.View.{Fails, data_of};

use super::laws::numbered_programs_keep_rules;
use super::numbers::{Numbered, number};
use super::refusal::ExpandRefusal;
use super::text::expand_text;
use std::alloc::Global;
use tb_core::Program;
use tb_sexp::Datum;

/// The parts of a program that keeps the rules.
fn whole(parts: Numbered) -> Program
    requires { KeepsRules (plain_program parts.globals parts.statics parts.lambdas parts.forms) }
    ensures { view_program result ≡ plain_program parts.globals parts.statics parts.lambdas parts.forms }
{
    let Numbered {
        globals,
        statics,
        lambdas,
        forms,
    } = parts;
    Program {
        globals,
        statics,
        lambdas,
        forms,
    }
}

/// The program of the forms of a text, of the library or not, or the first refusal of the text. Want of memory is the
/// answer where there is none for the program, of which nothing else is said.
pub fn expand(alloc: Global, forms: &[Datum], library: bool) -> Result<Program, ExpandRefusal>
    ensures { MatchResult result (λ p. IsProgramOf library (data_of forms.now) (view_program p)) (λ r. Fails (RefusesText library (data_of forms.now)) r) }
{
    match expand_text(alloc, forms, library) {
        Ok(nodes) => {
            let parts = number(alloc, library, nodes.as_slice())?;
            numbered_programs_keep_rules();
            Ok(whole(parts))
        }
        Err(refusal) => Err(refusal),
    }
}
