//! The rules of `syntax-rules`: `compile_rules` takes them from a form or refuses it. What rules are stands in
//! specs/Compiled.
#![tactic(auto)]

mod compile;
mod copies;
pub mod examples;
mod names;
mod parts;
mod patterns;
mod refusal;
mod rules;
mod templates;
mod variables;
mod vectors;

pub use compile::compile_rules;
pub use refusal::RulesRefusal;
pub use rules::Rules;
