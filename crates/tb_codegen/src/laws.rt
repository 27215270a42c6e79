//! What code of programs in A-normal form keeps.

ghost use Rattle.std.specs.Prelude.{◌≡◌, ◌<◌, ◌≤◌, ◌+◌, ◌*◌, ◌^◌, ℕ, List, length, map};
ghost use Rattle.tb_prim.specs.declared.event.Event.{Event};
ghost use Rattle.tb_semantics.specs.Keeps.{Keeps};
ghost use Rattle.tb_semantics.specs.Runs.{after};
ghost use Rattle.tb_ir.specs.AnfTree.{AnfTree};
ghost use Rattle.tb_ir.specs.AnfRules.{KeepsRules};
ghost use Rattle.tb_ir.specs.AnfWidth.{square_sum, width_of};
ghost use Rattle.tb_ir.specs.Measures.{anf_measured};
ghost use Rattle.tb_mac.specs.Assemble.{ItemsOk, instructions};
ghost use Rattle.tb_mac.specs.Bounds.{frame_bound, space_bound, window_bound};
ghost use Rattle.tb_mac.specs.declared.code.Instr.{Instr};
ghost use Rattle.tb_mac.specs.Frames.{Framed};
ghost use Rattle.tb_mac.specs.FramedRuns.{Runs, framed_machine, framed_of, measured_machine};
ghost use Rattle.tb_mac.specs.LiveWords.{IsWalkable};
ghost use Rattle.tb_codegen.specs.Fits.{Fits};
ghost use Rattle.tb_codegen.specs.Generate.{noted_items};
ghost use Rattle.tb_codegen.specs.Notes.{item_of};
ghost use Rattle.tb_codegen.specs.PlainCode.{code_of, parts_of};

/// No frame or closure has more words than the program is wide, so that the factor of the bound on space is at most
/// four times the width and 64.
pub fn frames_are_narrow()
    ensures frames { (p : AnfTree) → KeepsRules p → Fits p → frame_bound (code_of p).code ≤ width_of p }
    ensures factor { (p : AnfTree) → KeepsRules p → Fits p → space_bound (code_of p).code ≤ 4 * (width_of p + 16) }
{}

/// In every memory and with every input, code has the events of its program, holds no more in each window but for one
/// frame and one procedure, has made no more, and comes to each event unless its memory is full before it.
pub fn code_keeps()
    ensures keeps { (p : AnfTree) → KeepsRules p → Fits p → (heap : ℕ) (input : List ℕ) →
        Keeps (measured_machine (code_of p) heap input) (anf_measured p input) 1 }
{}

/// Each state of a run of code is walkable: the maps of its frames have as many slots as these.
pub fn code_is_walkable()
    ensures walkable { (p : AnfTree) → KeepsRules p → Fits p → (heap : ℕ) (input : List ℕ) (n : ℕ) →
        IsWalkable (code_of p) (framed_of (after (framed_machine (code_of p) heap input) n)) }
{}

/// The items of a program keep all conditions of `assemble`, as long as there are fewer than 2^24 instructions.
pub fn items_can_be_assembled()
    ensures conditions { (p : AnfTree) → KeepsRules p → Fits p → length (instructions (map item_of (noted_items p))) < 2 ^ 24 →
        ItemsOk (parts_of p) (map item_of (noted_items p)) }
{}

/// Code has at most eight times as many instructions as the squares of its program's widths come to, and eight more.
pub fn code_is_short()
    ensures short { (p : AnfTree) → KeepsRules p → Fits p → length (code_of p).code ≤ 8 * square_sum p + 8 }
{}

/// In every memory and with every input, code that still runs has taken fewer steps than its events so far and one more,
/// times the instructions of its longest procedure and two more.
pub fn code_is_quick()
    ensures quick { (p : AnfTree) → KeepsRules p → Fits p → (heap : ℕ) (input : List ℕ) (n : ℕ) (m : Framed) (rest : List ℕ)
        (es : List Event) → after (framed_machine (code_of p) heap input) n ≡ Runs m rest es →
        n < (window_bound (code_of p).code + 2) * (length es + 1) }
{}

/// No procedure is longer than the code.
pub fn windows_are_short()
    ensures short { (code : List Instr) → window_bound code ≤ length code }
{}
