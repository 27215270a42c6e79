//! What the passes keep together.
ghost use Rattle.std.specs.Prelude.{◌≡◌, ◌+◌, ◌*◌, ◌<◌, ◌≤◌, ℕ, List, false, length};
ghost use Rattle.tb_prim.specs.declared.event.Event.{Event};
ghost use Rattle.tb_semantics.specs.Keeps.{Keeps};
ghost use Rattle.tb_semantics.specs.Runs.{after};
ghost use Rattle.tb_core.specs.Events.{HasStopped};
ghost use Rattle.tb_core.specs.Measures.{reference_measured};
ghost use Rattle.tb_core.specs.OperandOrder.{order_of};
ghost use Rattle.tb_core.specs.Reference.{events_of, reference};
ghost use Rattle.tb_core.specs.Tree.{ProgramTree};
ghost use Rattle.tb_core.specs.Width as core;
ghost use Rattle.tb_ir.specs.AnfRules as anf;
ghost use Rattle.tb_ir.specs.AnfWidth.{square_sum, width_of};
ghost use Rattle.tb_mac.specs.Frames.{Framed};
ghost use Rattle.tb_mac.specs.FramedRuns.{Runs, framed_events, framed_full, framed_machine, measured_machine};
ghost use Rattle.tb_codegen.specs.Fits.{Fits};
ghost use Rattle.tb_passes.specs.Compilable.{IsCompilable};
ghost use Rattle.tb_passes.specs.Passes.{anf_of, program_code};

use tb_codegen::laws::code_keeps;

/// The A-normal form of a program that has code keeps its rules and fits, and is no wider.
pub fn normal_form_fits()
    ensures rules { (p : ProgramTree) → IsCompilable p → anf.KeepsRules (anf_of p) }
    ensures fits { (p : ProgramTree) → IsCompilable p → Fits (anf_of p) }
    ensures width { (p : ProgramTree) → IsCompilable p → width_of (anf_of p) ≤ core.width_of p }
    ensures square_sum { (p : ProgramTree) → IsCompilable p → square_sum (anf_of p) ≤ core.square_sum p }
{
    tb_core::laws::limits_are_kept();
    tb_core::laws::lists_are_few();
    tb_assign::laws::rules_keep();
    tb_assign::laws::widths_stay();
    tb_assign::laws::operands_stay_few();
    tb_assign::laws::constants_stay();
    tb_anf::laws::rules_keep();
    tb_anf::laws::no_wider();
    tb_anf::laws::operands_stay_few();
    tb_anf::laws::constants_stay();
    tb_anf::kept::lists_keep();
}

/// In every memory and with every input, the code of a program emits a beginning of the events of the reference
/// machine, ends or fails where that does, holds no more in each window but for one frame and one procedure, has made no
/// more, and comes to each event unless its memory is full before it: for every program that has code.
pub fn code_keeps_the_reference_machine()
    ensures law { (p : ProgramTree) → IsCompilable p → (heap : ℕ) (input : List ℕ) →
        Keeps (measured_machine (program_code p) heap input) (reference_measured p (order_of p) input) 1 }
{
    tb_assign::laws::cells_keep();
    tb_assign::laws::rules_keep();
    tb_anf::laws::normal_form_keeps();
    normal_form_fits();
    code_keeps();
}

/// Code that stands still, and is not full, has come to where the reference machine has stopped with End or Fail, with its
/// events: so it is never without a next step before that.
pub fn code_stands_still_at_the_end()
    ensures law { (p : ProgramTree) → IsCompilable p → (heap : ℕ) (input : List ℕ) (n : ℕ) →
        (framed_machine (program_code p) heap input).step (after (framed_machine (program_code p) heap input) n)
        ≡ after (framed_machine (program_code p) heap input) n →
        framed_full (after (framed_machine (program_code p) heap input) n) ≡ false →
        (m : ℕ) × HasStopped (after (reference p (order_of p) input) m)
        × (framed_events (after (framed_machine (program_code p) heap input) n)
        ≡ events_of (after (reference p (order_of p) input) m)) }
{
    code_keeps_the_reference_machine();
    tb_core::laws::all_events_end();
    tb_core::laws::emits_in_order();
    tb_core::laws::stopped_stays();
}

/// Code that has not stopped after so many steps has emitted so many events that the steps are fewer than 8 * Q + 10 for each
/// of them and the next one, with Q the sum of the squared widths of the program.
pub fn code_is_quick()
    ensures law { (p : ProgramTree) → IsCompilable p → (heap : ℕ) (input : List ℕ) (n : ℕ) (m : Framed) (rest : List ℕ)
        (es : List Event) → after (framed_machine (program_code p) heap input) n ≡ Runs m rest es →
        n < (8 * core.square_sum p + 10) * (length es + 1) }
{
    normal_form_fits();
    tb_codegen::laws::code_is_quick();
    tb_codegen::laws::code_is_short();
    tb_codegen::laws::windows_are_short();
}
