ghost use Rattle.std.specs.Prelude.{◌≤◌, ◌^◌, ◌<◌, IfOk, IfSome, vec_len};
ghost use Rattle.tb_base.specs.Outside.{AllHasCause, GivesAll};

use super::{LoadFault, Source};
use std::alloc::Global;

/// How many bytes are asked for at once.
const PIECE: usize = 4096;

/// Takes all bytes that are left, by as many takes as are needed, where they are at most `limit`. Takes at most one
/// piece more.
pub fn take_all<S: Source>(
    alloc: Global,
    source: &mut S,
    limit: usize,
) -> Result<Vec<u8>, LoadFault>
    requires { limit < 2 ^ 63 }
    ensures bound { IfOk result (λ bytes. vec_len bytes ≤ limit) }
    ensures bytes { IfSome (S.left source.old) (λ left. GivesAll left limit result) }
    ensures cause { AllHasCause (S.faults source.old) (S.faults source.new) result }
{
    let mut piece = [0; PIECE];
    let mut bytes = Vec::new(alloc);
    loop {
        match source.take(&mut piece) {
            Err(_) => return Err(LoadFault::Failed),
            Ok(0) => return Ok(bytes),
            Ok(count) => {
                if limit - bytes.len() < count {
                    return Err(LoadFault::TooLong);
                }
                bytes.extend_from_slice(&piece[..count])?;
            }
        }
    }
}
