//! The law of the scrubbed run.

ghost use Rattle.std.specs.Prelude.{ℕ, List};
ghost use Rattle.tb_semantics.specs.Runs.{after};
ghost use Rattle.tb_core.specs.Tree.{ProgramTree};
ghost use Rattle.tb_mac.specs.FramedRuns.{framed_machine};
ghost use Rattle.tb_mac.specs.Scrubbed.{scrubbed_machine};
ghost use Rattle.tb_passes.specs.Compilable.{IsCompilable};
ghost use Rattle.tb_passes.specs.Passes.{program_code};
ghost use Rattle.tb_scrubbed.specs.SameRun.{DoSame};

/// For every input, memory and number of steps the code of a program and its scrubbed run have made the same steps and
/// events, and stand at the same instruction or with the same stop: no step reads a word that no live map names.
pub fn scrubbed_run_does_the_same()
    ensures law { (p : ProgramTree) → IsCompilable p → (heap : ℕ) (input : List ℕ) (n : ℕ) →
        DoSame (after (framed_machine (program_code p) heap input) n) (after (scrubbed_machine (program_code p) heap input) n) }
{
    tb_passes::laws::normal_form_fits();
}
