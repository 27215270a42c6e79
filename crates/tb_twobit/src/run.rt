//! The status in which a run ends.

ghost use Rattle.std.specs.Prelude.{◌≤◌};
ghost use Rattle.tb_twobit.specs.Sinks.{sunk};
ghost use Rattle.tb_twobit.specs.calls.Running.{Finishes};

use super::lines::{say_failed, say_full};
use super::status::Status;
use tb_base::Sink;
use tb_macm::LoadRefusal;
use tb_prim::Stop;

/// How many words are asked for beside the globals and static objects.
const LEAST_ROOM: u32 = 64;

/// The status of a run that stopped so, or that was not loaded into so many words. Says why and where it failed, or what
/// did not fit.
pub fn finish<E: Sink>(heap: u32, ended: Result<Stop, LoadRefusal>, diag: &mut E) -> Status
    ensures finishes { Finishes heap ended (sunk E.held E.faults diag.old diag.new) result }
    ensures later { E.faults diag.old ≤ E.faults diag.new }
{
    match ended {
        Ok(Stop::End) => Status::Done,
        Ok(Stop::Fail(cause, place)) => {
            say_failed(diag, cause, place);
            Status::Failed
        }
        Ok(
            Stop::Full {
                pointer,
                stack,
                need,
            },
        ) => {
            say_full(diag, pointer, stack, need);
            Status::Full
        }
        Ok(Stop::Steps) => Status::OutOfSteps,
        Ok(Stop::Stuck { pc: _ }) => Status::Stuck,
        Ok(Stop::ReadFault) => Status::NotLoaded,
        Ok(Stop::WriteFault) => Status::NotPut,
        Err(LoadRefusal::HeapSmall { pointer }) => {
            say_full(diag, pointer, heap, LEAST_ROOM);
            Status::Full
        }
        Err(LoadRefusal::NoMemory) => Status::NoMemory,
    }
}
