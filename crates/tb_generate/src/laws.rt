//! The items of programs.
ghost use Rattle.std.specs.Prelude.{◌≡◌, map};
ghost use Rattle.tb_ir.specs.AnfTree.{AnfTree};
ghost use Rattle.tb_ir.specs.AnfRules.{KeepsRules};
ghost use Rattle.tb_mac.specs.Assemble.{AreResolved};
ghost use Rattle.tb_codegen.specs.Fits.{Fits};
ghost use Rattle.tb_codegen.specs.Generate.{noted_items};
ghost use Rattle.tb_codegen.specs.Notes.{item_of};
ghost use Rattle.tb_codegen.specs.PlainCode.{parts_of};
ghost use Rattle.tb_generate.specs.calls.Programs.{procs_items};

/// The items of procs by lists of bits are those of the notes.
pub fn items_are_noted()
    ensures law { (p : AnfTree) → procs_items p.procs p.statics ≡ map item_of (noted_items p) }
{}

/// No label of a program stands twice, and each that is named stands somewhere.
pub fn labels_are_resolved()
    ensures resolved { (p : AnfTree) → KeepsRules p → Fits p → AreResolved (parts_of p) (map item_of (noted_items p)) }
{}
