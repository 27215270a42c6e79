ghost use Rattle.std.specs.Prelude.{◌≢◌, All, IfNone, IfSome};
ghost use Rattle.tb_base.specs.Memory.{IsFirstOf};

use tb_prim::Bytes;

/// A file in memory.
#[derive(Debug, Drop)]
pub struct Entry {
    pub name: Bytes,
    pub bytes: Bytes,
}

/// The place of the first entry of this name.
pub fn place_of(entries: &[Entry], name: &[u8]) -> Option<usize>
    ensures absent { IfNone result (All (λ entry. entry.name ≢ name.now) entries.now) }
    ensures found { IfSome result (IsFirstOf entries.now name.now) }
{
    entries
        .iter()
        .position(|entry| entry.name.as_slice() == name)
}
