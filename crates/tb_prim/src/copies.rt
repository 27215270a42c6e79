//! Copies of the names and the static objects of a program.
ghost use Rattle.std.specs.Prelude.{◌≡◌, IfOk};

use super::{Bytes, GlobalName, NameRow, NoMemory, Row, Static, StaticRow};
use std::alloc::Global;

/// A copy of a name.
fn copy_name(alloc: Global, name: &GlobalName) -> Result<GlobalName, NoMemory>
    ensures { IfOk result (λ n. n ≡ name.now) }
{
    Ok(GlobalName {
        library: name.library,
        name: Bytes::new(alloc, name.name.as_slice())?,
    })
}

/// A copy of these names.
pub fn copy_names(alloc: Global, names: &[GlobalName]) -> Result<NameRow, NoMemory>
    ensures { IfOk result (λ row. row ≡ names.now) }
{
    let mut out = Vec::new(alloc);
    for name in names {
        out.push(copy_name(alloc, name)?)?;
    }
    Ok(Row::from_vec(out))
}

/// A copy of a static object.
fn copy_static(alloc: Global, object: &Static) -> Result<Static, NoMemory>
    ensures { IfOk result (λ o. o ≡ object.now) }
{
    match object {
        Static::Pair(first, second) => Ok(Static::Pair(*first, *second)),
        Static::Vector(parts) => {
            let parts = Vec::from_slice(alloc, parts.as_slice())?;
            Ok(Static::Vector(Row::from_vec(parts)))
        }
        Static::Str(bytes) => Ok(Static::Str(Bytes::new(alloc, bytes.as_slice())?)),
        Static::Sym(bytes) => Ok(Static::Sym(Bytes::new(alloc, bytes.as_slice())?)),
    }
}

/// A copy of these static objects.
pub fn copy_statics(alloc: Global, objects: &[Static]) -> Result<StaticRow, NoMemory>
    ensures { IfOk result (λ row. row ≡ objects.now) }
{
    let mut out = Vec::new(alloc);
    for object in objects {
        out.push(copy_static(alloc, object)?)?;
    }
    Ok(Row::from_vec(out))
}
