//! Laws of space: what a state holds, what code holds in the windows of the reference machine, and where memory is full.

ghost use Rattle.std.specs.Prelude.{◌≡◌, ◌+◌, ◌*◌, ◌<◌, ◌≤◌, ℕ, List, false, true};
ghost use Rattle.tb_semantics.specs.Keeps.{IsSameWindow};
ghost use Rattle.tb_semantics.specs.Runs.{after};
ghost use Rattle.tb_core.specs.OperandOrder.{order_of};
ghost use Rattle.tb_core.specs.Reference.{reference};
ghost use Rattle.tb_core.specs.Space.{made_of, space_of};
ghost use Rattle.tb_core.specs.Tree.{ProgramTree};
ghost use Rattle.tb_core.specs.Width.{factor_bound};
ghost use Rattle.tb_mac.specs.Assembled.{Assembled};
ghost use Rattle.tb_mac.specs.Bounds.{frame_bound, space_bound};
ghost use Rattle.tb_mac.specs.Frames.{Framed};
ghost use Rattle.tb_mac.specs.FramedRuns.{framed_full, framed_machine, framed_of, framed_shape};
ghost use Rattle.tb_mac.specs.Layout.{start_size, statics_size};
ghost use Rattle.tb_mac.specs.LiveWords.{IsWalkable, machine_words};
ghost use Rattle.tb_passes.specs.Compilable.{IsCompilable};
ghost use Rattle.tb_passes.specs.Passes.{program_code};
ghost use Rattle.tb_bounds.specs.Within.{IsWithin};

/// No frame of a run has more slots, and no procedure more captured words, than the bound of its code: of any code.
pub fn runs_stay_within()
    ensures law { (c : Assembled) (heap : ℕ) (input : List ℕ) (n : ℕ) →
        IsWithin (frame_bound c.code) (framed_of (after (framed_machine c heap input) n)) }
{}

/// A state whose frames and procedures are within a bound holds at most the registers, a word of padding and two for each
/// word of its shape and its static objects, and for each frame and procedure as many words as the bound and two or three
/// more.
pub fn words_go_by_shapes()
    ensures law { (c : Assembled) (m : Framed) (bound : ℕ) → IsWithin bound m →
        machine_words c m ≤ 18 + (bound + 2) * (framed_shape c m).frames + (bound + 3) * (framed_shape c m).closures
        + 2 * (framed_shape c m).words + statics_size c.parts.statics }
{}

/// At every step code holds at most K times the space that the reference machine has at some moment of the same window,
/// plus K, with K the factor of the bound on space of the code: in every memory, with every input.
pub fn code_is_space_safe()
    ensures law { (p : ProgramTree) → IsCompilable p → (heap : ℕ) (input : List ℕ) (n : ℕ) →
        (m : ℕ) × IsSameWindow (framed_machine (program_code p) heap input) (reference p (order_of p) input) n m
        × (machine_words (program_code p) (framed_of (after (framed_machine (program_code p) heap input) n))
        ≤ space_bound (program_code p).code * space_of p (after (reference p (order_of p) input) m)
        + space_bound (program_code p).code) }
{
    tb_core::laws::items_keep_their_sizes();
    tb_passes::laws::code_keeps_the_reference_machine();
    runs_stay_within();
    words_go_by_shapes();
}

/// Each state of a run of the code of a program is walkable: the live maps at its frames have as many slots as these.
pub fn states_are_walkable()
    ensures law { (p : ProgramTree) → IsCompilable p → (heap : ℕ) (input : List ℕ) (n : ℕ) →
        IsWalkable (program_code p) (framed_of (after (framed_machine (program_code p) heap input) n)) }
{
    tb_passes::laws::normal_form_fits();
    tb_codegen::laws::code_is_walkable();
}

/// The factor of the bound on space goes by the width of the program: it is at most 8 times that and 96.
pub fn bounds_are_narrow()
    ensures law { (p : ProgramTree) → IsCompilable p → space_bound (program_code p).code ≤ factor_bound p }
{
    tb_passes::laws::normal_form_fits();
    tb_codegen::laws::frames_are_narrow();
}

/// Where code stands since its memory is full, the memory has fewer than K words for each word of the space that the
/// reference machine has at some moment of the same window and for each that it has made at another, and K more.
pub fn full_only_when_small()
    ensures law { (p : ProgramTree) → IsCompilable p → (heap : ℕ) (input : List ℕ) (n : ℕ) →
        framed_full (after (framed_machine (program_code p) heap input) n) ≡ true →
        (k : ℕ) × (l : ℕ) × IsSameWindow (framed_machine (program_code p) heap input) (reference p (order_of p) input) n k
        × IsSameWindow (framed_machine (program_code p) heap input) (reference p (order_of p) input) n l
        × (heap < space_bound (program_code p).code * (space_of p (after (reference p (order_of p) input) k)
        + made_of (after (reference p (order_of p) input) l)) + space_bound (program_code p).code) }
{
    tb_passes::laws::code_keeps_the_reference_machine();
    runs_stay_within();
}

/// So a memory that has K words for each word that the reference machine holds or has made at any moment, and K more, is
/// never full.
pub fn large_memory_is_never_full()
    ensures law { (p : ProgramTree) → IsCompilable p → (heap : ℕ) (input : List ℕ) →
        ((k l : ℕ) → space_bound (program_code p).code * (space_of p (after (reference p (order_of p) input) k)
        + made_of (after (reference p (order_of p) input) l)) + space_bound (program_code p).code ≤ heap) →
        (n : ℕ) → framed_full (after (framed_machine (program_code p) heap input) n) ≡ false }
{
    full_only_when_small();
}

/// The words of globals and static objects, which loading wants and 64 more, are at most twice the space of the reference
/// machine at its start, and one.
pub fn loading_wants_little()
    ensures law { (p : ProgramTree) (input : List ℕ) →
        start_size (program_code p).parts ≤ 2 * space_of p (reference p (order_of p) input).start + 1 }
{}
