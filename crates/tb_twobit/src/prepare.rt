//! What comes before a run: the source file is loaded and compiled, and the input is read.

ghost use Rattle.std.specs.Prelude.{◌≡◌, ◌≤◌, IfOk};
ghost use Rattle.tb_base.specs.Outside.{CountsOnly, SameCounts};
ghost use Rattle.tb_twobit.specs.Sinks.{sunk};
ghost use Rattle.tb_twobit.specs.calls.Preparing.{Prepares};
ghost use Rattle.tb_twobit.specs.calls.Running.{missing_status};

use super::compiling::compile;
use super::lines::say_refused;
use super::refusal::CompileRefusal;
use super::status::Status;
use std::alloc::Global;
use tb_base::{LoadFault, Sink, Source, Store, take_all};
use tb_mac::MacCode;

/// The most bytes of a source file.
const SOURCE_LIMIT: u64 = 4_194_304;

/// The most bytes of the input.
const INPUT_LIMIT: usize = 16_777_216;

/// What is run: the code of a source file, and the bytes of the input.
#[derive(Debug, Drop)]
pub struct Prepared {
    pub code: MacCode,
    pub input: Vec<u8>,
}

/// The status of a file or an input of which no bytes came.
fn missing(fault: LoadFault) -> Status
    ensures { result ≡ missing_status fault }
{
    match fault {
        LoadFault::Failed => Status::NotLoaded,
        LoadFault::TooLong => Status::TooLong,
        LoadFault::NoMemory => Status::NoMemory,
    }
}

/// Loads the source file, compiles it and reads the input; or answers the status in which the call ends, and says why a text is
/// refused.
pub fn prepare<S: Store, I: Source, E: Sink>(
    alloc: Global,
    source: &str,
    store: &mut S,
    input: &mut I,
    diag: &mut E,
) -> Result<Prepared, Status>
    ensures does { Prepares source.now (record {
      files = S.files store.old;
      loads = S.load_faults store.old source.now;
      loads_now = S.load_faults store.new source.now;
      input = I.left input.old;
      reads = I.faults input.old;
      reads_now = I.faults input.new;
    }) (sunk E.held E.faults diag.old diag.new) result }
    ensures silent { IfOk result (λ _. diag.new ≡ diag.old) }
    ensures files { S.files store.new ≡ S.files store.old }
    ensures loads { CountsOnly (S.load_faults store.old) (S.load_faults store.new) source.now }
    ensures saves { SameCounts (S.save_faults store.old) (S.save_faults store.new) }
    ensures input_later { I.faults input.old ≤ I.faults input.new }
    ensures diag_later { E.faults diag.old ≤ E.faults diag.new }
{
    let text = match store.load(alloc, source, SOURCE_LIMIT) {
        Ok(text) => text,
        Err(fault) => return Err(missing(fault)),
    };
    let code = match compile(alloc, text.as_slice()) {
        Ok(code) => code,
        Err(CompileRefusal::Refused(refusal)) => {
            say_refused(diag, refusal);
            return Err(Status::Refused);
        }
        Err(CompileRefusal::NoMemory) => return Err(Status::NoMemory),
    };
    match take_all(alloc, input, INPUT_LIMIT) {
        Ok(input) => Ok(Prepared { code, input }),
        Err(fault) => Err(missing(fault)),
    }
}
