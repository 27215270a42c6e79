ghost use Rattle.std.specs.Prelude.{◌≡◌, ◌<◌, [], ◌∷◌, ◌++◌, IfOk, OnOk, vec_len, vec_capacity};

use std::alloc::Global;
use tb_prim::{Bytes, NoMemory};

/// Takes the memory for one more name, so that a call which then fails can be noted.
pub fn reserve_name(alloc: Global, names: &mut Vec<Bytes>, name: &str) -> Result<Bytes, NoMemory>
    ensures names { names.new.items ≡ names.old.items }
    ensures room { OnOk result (vec_len names.new < vec_capacity names.new) }
    ensures copy { IfOk result (λ copy. copy ≡ name.now) }
{
    names.reserve(1)?;
    Bytes::new(alloc, name.as_bytes())
}

/// Notes the name of a call that failed.
pub fn note_name(names: &mut Vec<Bytes>, name: Bytes)
    requires { vec_len names.old < vec_capacity names.old }
    ensures { names.new.items ≡ names.old.items ++ name ∷ [] }
{
    names.push(name).unwrap();
}
