//! Rules from a form.
ghost use Rattle.std.specs.Prelude.{◌≡◌, IfOk, Some};
ghost use Rattle.tb_rules.specs.Compiled as compiled;
ghost use Rattle.tb_rules.specs.Compiled.{outcome, outcome_in};
ghost use Rattle.tb_rules.specs.Rules as rule_in;
ghost use Rattle.tb_rules.specs.View.{IsAnswer, data_of, view_form, view_rest, view_rule_parts};
ghost use Rattle.tb_sexp.specs.View.{view};

use super::copies::{copy_data, copy_rules};
use super::names::{are_apart, are_names};
use super::parts::{FormParts, RestParts, RuleParts, form_of, rest_of, rule_of};
use super::patterns::are_rest_patterns;
use super::refusal::RulesRefusal;
use super::rules::Rules;
use super::templates::is_template;
use super::variables::variables_of;
use super::vectors::first_vector_among;
use std::alloc::Global;
use tb_prim::{NoMemory, Place};
use tb_sexp::Datum;

/// The rules of a `syntax-rules` form (R5RS 4.3.2), whose first element is not looked at.
///
/// `BadRules` comes at the form where the literals are not a list of names, a rule is not a pattern and a template, a
/// pattern is not a list that begins with a name, a variable stands twice in a pattern, an ellipsis stands elsewhere
/// than after the last pattern of a list, an ellipsis in a template follows nothing or a part without a variable, or
/// a variable stands under more or fewer ellipses than in its pattern. Otherwise `NotInProfile` comes at the first
/// vector in a pattern or a template.
pub fn compile_rules(alloc: Global, spec: &Datum) -> Result<Rules, RulesRefusal>
    ensures { IsAnswer (outcome (view spec.now)) result }
{
    match form_of(spec) {
        None => Err(RulesRefusal::BadRules(spec.place)),
        Some(form) => compile_form(alloc, spec.place, form),
    }
}

fn compile_form(alloc: Global, place: Place, form: FormParts) -> Result<Rules, RulesRefusal>
    ensures { IsAnswer (outcome_in place (Some (view_form form.entry))) result }
{
    if !are_names(form.literals) || !are_good(alloc, form.literals, form.rules)? {
        return Err(RulesRefusal::BadRules(place));
    }
    if let Some(vector) = first_vector_among(form.rules) {
        return Err(RulesRefusal::NotInProfile(vector));
    }
    Ok(Rules {
        literals: copy_data(alloc, form.literals)?,
        rules: copy_rules(alloc, form.rules)?,
    })
}

/// Whether the data are rules.
fn are_good(alloc: Global, literals: &[Datum], rules: &[Datum]) -> Result<bool, NoMemory>
    ensures { IfOk result (λ b. b ≡ compiled.are_good (data_of literals.now) (data_of rules.now)) }
{
    for rule in rules {
        if !is_good(alloc, literals, rule)? {
            return Ok(false);
        }
    }
    Ok(true)
}

/// Whether the datum is a rule.
fn is_good(alloc: Global, literals: &[Datum], rule: &Datum) -> Result<bool, NoMemory>
    ensures { IfOk result (λ b. b ≡ compiled.is_good (data_of literals.now) (rule_in.rule_of (view rule.now))) }
{
    match rule_of(rule) {
        None => Ok(false),
        Some(parts) => is_good_rule(alloc, literals, parts),
    }
}

fn is_good_rule(alloc: Global, literals: &[Datum], rule: RuleParts) -> Result<bool, NoMemory>
    ensures { IfOk result (λ b. b ≡ compiled.is_good (data_of literals.now) (Some (view_rule_parts rule.entry))) }
{
    match rest_of(rule.pattern) {
        None => Ok(false),
        Some(rest) => is_good_rest(alloc, literals, rest, rule.template),
    }
}

fn is_good_rest(
    alloc: Global,
    literals: &[Datum],
    rest: RestParts,
    template: &Datum,
) -> Result<bool, NoMemory>
    ensures { IfOk result (λ b. b ≡ compiled.is_good_rest (data_of literals.now) (Some (view_rest rest.entry)) (view template.now)) }
{
    if !are_rest_patterns(rest) {
        return Ok(false);
    }
    let variables = variables_of(alloc, literals, rest)?;
    let variables = variables.as_slice();
    Ok(are_apart(variables) && is_template(variables, 0, template)?)
}
