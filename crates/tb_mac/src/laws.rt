//! Laws of the machine's definition.

ghost use Rattle.std.specs.Prelude.{◌≡◌, ◌≤◌, ℕ, List, Some, length};
ghost use Rattle.tb_semantics.specs.Runs.{EmitsInOrder, after};
ghost use Rattle.tb_mac.specs.declared.word.Word.{Word};
ghost use Rattle.tb_mac.specs.Assembled.{Assembled};
ghost use Rattle.tb_mac.specs.Frames.{Framed, flat, flat_outcome, framed_fetched};
ghost use Rattle.tb_mac.specs.FramedRuns.{flat_state, framed_machine};
ghost use Rattle.tb_mac.specs.Layout.{start_words};
ghost use Rattle.tb_mac.specs.MacEvents.{mac_machine};
ghost use Rattle.tb_mac.specs.MacStep.{fetched};
ghost use Rattle.tb_mac.specs.Words.{IsImmediate, imm_bits, imm_word};

/// A step of the machine with its stack as a list of frames is the step of the flat machine, so that whole
/// frames stay whole.
pub fn framed_steps_are_flat()
    ensures law { (c : Assembled) (m : Framed) → flat_outcome (framed_fetched c m) ≡ fetched c (flat m) }
{}

/// A run of the machine with its stack as a list of frames is the run of the flat machine, step by step, from the
/// start on.
pub fn framed_runs_are_flat()
    ensures law { (c : Assembled) (heap : ℕ) (input : List ℕ) (n : ℕ) → length (start_words c.parts) ≤ heap
        → flat_state (after (framed_machine c heap input) n) ≡ after (mac_machine c heap input) n }
{}

/// A step of the machine emits at most one event, behind those before it.
pub fn events_come_in_order()
    ensures law { (c : Assembled) (heap : ℕ) (input : List ℕ) → EmitsInOrder (mac_machine c heap input) }
{}

/// Fixnums, characters and specials are read back from their 32 bits.
pub fn immediates_are_read_back()
    ensures law { (w : Word) → IsImmediate w → imm_word (imm_bits w) ≡ Some w }
{}
