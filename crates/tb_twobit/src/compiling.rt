//! From the bytes of a text to code.

ghost use Rattle.std.specs.Prelude.{◌≤◌, length, MatchResult};
ghost use Rattle.tb_mac.specs.CodeOf.{code_of};
ghost use Rattle.tb_twobit.specs.Refusals.{IsCompiled, IsNotCompiled};

use super::refusal::CompileRefusal;
use std::alloc::Global;
use tb_core::check;
use tb_expand::{
    characters_are_bytes, expand, global_names_are_long, numbered_programs_keep_rules,
    texts_make_few_statics, texts_name_few_globals,
};
use tb_mac::MacCode;
use tb_passes::code_of_program;
use tb_sexp::print_laws::read_data_are_plain;
use tb_sexp::read_all;

/// Compiles a text of at most 4,194,304 bytes: it is accepted and the code is that of its program, or it is refused
/// with its first refusal, or there is no memory.
pub fn compile(alloc: Global, text: &[u8]) -> Result<MacCode, CompileRefusal>
    requires { length text.now ≤ 4194304 }
    ensures { MatchResult result (λ code. IsCompiled text.now (code_of code))
        (λ refusal. IsNotCompiled text.now refusal) }
{
    read_data_are_plain();
    numbered_programs_keep_rules();
    texts_name_few_globals();
    global_names_are_long();
    texts_make_few_statics();
    characters_are_bytes();
    let datums = read_all(alloc, text, false)?;
    let program = expand(alloc, datums.as_slice(), false)?;
    check(&program)?;
    let code = code_of_program(alloc, &program)?;
    Ok(code)
}
