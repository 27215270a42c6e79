//! What holds of all source texts.

ghost use Rattle.std.specs.Prelude.{◌≡◌, ◌⊎◌, ◌+◌, ◌≤◌, ℕ, List, All};
ghost use Rattle.tb_core.specs.Tree.{ProgramTree};
ghost use Rattle.tb_mac.specs.Layout.{start_size};
ghost use Rattle.tb_passes.specs.Compilable.{IsCompilable};
ghost use Rattle.tb_passes.specs.Passes.{program_code};
ghost use Rattle.tb_semantics.specs.Runs.{after};
ghost use Rattle.tb_twobit.specs.Complete.{ComesToEnd};
ghost use Rattle.tb_twobit.specs.GoDoes.{GoDoes};
ghost use Rattle.tb_twobit.specs.Preparing.{Outside};
ghost use Rattle.tb_twobit.specs.Refusals.{IsAccepted, IsRefusedWith};
ghost use Rattle.tb_twobit.specs.Sinks.{Sunk};
ghost use Rattle.tb_twobit.specs.Stopping.{IsNeverStuck, IsPromised, Stops, machine_of};
ghost use Rattle.tb_twobit.specs.Words.{Go};
ghost use Rattle.tb_twobit.specs.declared.refusal.Refusal.{Refusal};

use tb_bounds::laws::{
    bounds_are_narrow, code_is_space_safe, full_only_when_small, states_are_walkable,
};
use tb_core::laws::{all_events_end, emits_in_order, ends_last};
use tb_expand::one_answer_a_text as one_meaning_a_text;
use tb_mac::laws::framed_runs_are_flat;
use tb_passes::laws::{
    code_is_quick, code_keeps_the_reference_machine, code_stands_still_at_the_end,
};
use tb_sexp::laws::texts_read_one_way;

/// A source text is accepted with one program, or refused with one number at one place, and not both.
pub fn one_answer_a_text()
    ensures not_both { (bytes : List ℕ) (p : ProgramTree) (r : Refusal) → IsAccepted bytes p → IsRefusedWith bytes r → ⊥ }
    ensures one_program { (bytes : List ℕ) (p q : ProgramTree) → IsAccepted bytes p → IsAccepted bytes q → p ≡ q }
    ensures one_refusal { (bytes : List ℕ) (r s : Refusal) → IsRefusedWith bytes r → IsRefusedWith bytes s → r ≡ s }
    ensures covered { (bytes : List ℕ) → ((p : ProgramTree) × IsAccepted bytes p) ⊎ ((r : Refusal) × IsRefusedWith bytes r) }
{
    texts_read_one_way();
    one_meaning_a_text();
}

/// Where the text is accepted, its reference machine ends or fails, nothing fails outside, and memory and steps are enough,
/// what `go` does is that the program comes to its end and puts its whole output; or the compiler wants memory.
pub fn enough_comes_to_the_end()
    ensures law { (go : Go) (o : Outside) (status : ℕ) → GoDoes go o status → ComesToEnd go o status }
{
    one_answer_a_text();
    all_events_end();
    emits_in_order();
    ends_last();
    tb_expand::numbered_programs_keep_rules();
}

/// A run of the code of a program in a memory that its globals and static objects fit into, with 64 further words, keeps
/// what is promised of it, by whichever of its steps it stops, and is never without a next step.
pub fn runs_are_promised()
    ensures law { (go : Go) (p : ProgramTree) (input : List ℕ) → IsCompilable p → start_size (program_code p).parts + 64 ≤ go.heap →
        (taken status : ℕ) (diag : Sunk) → taken ≤ go.steps →
        Stops (after (machine_of go p input) taken) taken go.steps diag status ⊎ (status ≡ 4) → IsPromised go p input taken status }
    ensures never_stuck { (go : Go) (p : ProgramTree) (input : List ℕ) → IsCompilable p →
        start_size (program_code p).parts + 64 ≤ go.heap → (n : ℕ) → IsNeverStuck (after (machine_of go p input) n) }
{
    code_keeps_the_reference_machine();
    code_stands_still_at_the_end();
    code_is_quick();
    framed_runs_are_flat();
    all_events_end();
    emits_in_order();
    ends_last();
    code_is_space_safe();
    states_are_walkable();
    bounds_are_narrow();
    full_only_when_small();
}
