ghost use Rattle.std.specs.Prelude.{◌≡◌, ◌≢◌, ◌↔◌, ◌<◌, ◌≤◌, ◌^◌, IfOk, IfSome, vec_len};
ghost use Rattle.std.specs.declared.io.ErrorKind.TheVariants as Kind;
ghost use Rattle.tb_base.specs.Outside.{GivesAll};
ghost use Rattle.tb_base.specs.declared.outside.LoadFault.TheVariants as Fault;

use super::fault_names::{note_name, reserve_name};
use super::{LoadFault, SaveFault, Store};
use std::alloc::Global;
use std::fs::{self, OpenOptions};
use std::io::{self, ErrorKind, Read, Write};
use std::marker::Model;
use std::rt::Files;
use tb_prim::Bytes;

/// How many names beside a file are tried: NAME.new0, NAME.new1 and so on.
const SIDE_NAMES: u32 = 100;

/// The files of the runtime. It does not tell what they hold.
#[derive(Drop)]
pub struct RealStore<R> {
    files: R,
    failed_loads: Vec<Bytes>,
    failed_saves: Vec<Bytes>,
}

impl<R> Model for RealStore<R> {
    ghost use Rattle.tb_base.specs.FaultNames.{FailedCalls};

    ghost Value = { FailedCalls };

    ghost view = { λ s. record { loads = s.failed_loads.items; saves = s.failed_saves.items } };
}

impl<R: Files> RealStore<R> {
    ghost use Rattle.std.specs.Prelude.{◌≡◌, []};

    /// A store over these files, with no faults yet.
    pub fn new(alloc: Global, files: R) -> RealStore<R>
        ensures loads { result.loads ≡ [] }
        ensures saves { result.saves ≡ [] }
    {
        RealStore {
            files,
            failed_loads: Vec::new(alloc),
            failed_saves: Vec::new(alloc),
        }
    }
}

impl<R: Files> Store for RealStore<R> {
    ghost use Rattle.std.specs.Prelude.{ℕ, ◌≡◌, ◌<◌, ◌≤◌, ◌^◌, List, None, IfOk, vec_len};
    ghost use Rattle.tb_base.specs.FaultNames.{fault_count, after_load, after_save};
    ghost use Rattle.tb_base.specs.Outside.{LoadDoes, LoadHasCause, SaveDoes, SaveHasCause, SameCounts};

    ghost files = { λ _. None };

    ghost load_faults = { λ s. fault_count s.loads };

    ghost save_faults = { λ s. fault_count s.saves };

    /// Reads the file of that name, and at most one byte more than `limit` of it.
    fn load(&mut self, alloc: Global, name: &str, limit: u64) -> Result<Vec<u8>, LoadFault>
        requires { limit < 2 ^ 63 }
        ensures bound { IfOk result (λ bytes. vec_len bytes ≤ limit) }
        ensures does { LoadDoes None None name.now limit result }
        ensures cause { LoadHasCause (fault_count self.old.loads) (fault_count self.new.loads)
            name.now result }
        ensures saves { SameCounts (fault_count self.old.saves) (fault_count self.new.saves) }
        ensures load_faults { self.new.loads ≡ after_load self.old.loads name.now result }
        ensures save_faults { self.new.saves ≡ self.old.saves }
    {
        let copy = reserve_name(alloc, &mut self.failed_loads, name)?;
        match read_file(&self.files, alloc, name, limit) {
            Ok(bytes) => Ok(bytes),
            Err(LoadFault::TooLong) => Err(LoadFault::TooLong),
            Err(LoadFault::NoMemory) => Err(LoadFault::NoMemory),
            Err(LoadFault::Failed) => {
                note_name(&mut self.failed_loads, copy);
                Err(LoadFault::Failed)
            }
        }
    }

    /// Writes a file beside it, under a name that is free, and then renames that, so that a refusal leaves the old
    /// file whole. What stood at the name is replaced, a link too. A file beside it is removed after a refusal.
    fn save(&mut self, alloc: Global, name: &str, bytes: &[u8]) -> Result<(), SaveFault>
        ensures does { SaveDoes None None name.now bytes.now result }
        ensures cause { SaveHasCause (fault_count self.old.saves) (fault_count self.new.saves)
            name.now result }
        ensures loads { SameCounts (fault_count self.old.loads) (fault_count self.new.loads) }
        ensures save_faults { self.new.saves ≡ after_save self.old.saves name.now result }
        ensures load_faults { self.new.loads ≡ self.old.loads }
    {
        let copy = reserve_name(alloc, &mut self.failed_saves, name)?;
        match save_beside(&self.files, alloc, name, bytes) {
            Ok(()) => Ok(()),
            Err(SaveFault::NoMemory) => Err(SaveFault::NoMemory),
            Err(SaveFault::Failed) => {
                note_name(&mut self.failed_saves, copy);
                Err(SaveFault::Failed)
            }
        }
    }
}

/// The bytes of a file, where they are at most `limit`.
fn read_file<R: Files>(
    files: &R,
    alloc: Global,
    name: &str,
    limit: u64,
) -> Result<Vec<u8>, LoadFault>
    requires { limit < 2 ^ 63 }
    ensures bound { IfOk result (λ bytes. vec_len bytes ≤ limit) }
{
    match fs::open(files, name) {
        Ok(file) => read_at_most(file, alloc, limit),
        Err(_) => Err(LoadFault::Failed),
    }
}

/// What is left in the file, where it is at most `limit`. Reads at most one byte more.
fn read_at_most<F: Read + Drop>(file: F, alloc: Global, limit: u64) -> Result<Vec<u8>, LoadFault>
    requires { limit < 2 ^ 63 }
    ensures bound { IfOk result (λ bytes. vec_len bytes ≤ limit) }
    ensures bytes { IfSome (F.remaining file) (λ left. GivesAll left limit result) }
{
    let mut bytes = Vec::new(alloc);
    match file.take(limit + 1).read_to_end(&mut bytes) {
        Ok(_) => {
            if bytes.len() as u64 <= limit {
                Ok(bytes)
            } else {
                Err(LoadFault::TooLong)
            }
        }
        Err(e) => Err(fault_of(e.kind())),
    }
}

/// What a read that fails so comes to: want of memory alone is not a fault of the file.
fn fault_of(kind: ErrorKind) -> LoadFault
    ensures no_memory { (result ≡ Fault.NoMemory) ↔ (kind ≡ Kind.OutOfMemory) }
    ensures never_long { result ≢ Fault.TooLong }
{
    if kind == ErrorKind::OutOfMemory {
        LoadFault::NoMemory
    } else {
        LoadFault::Failed
    }
}

/// Makes the file of that name hold the bytes, by way of a file beside it whose name is free.
fn save_beside<R: Files>(
    files: &R,
    alloc: Global,
    name: &str,
    bytes: &[u8],
) -> Result<(), SaveFault> {
    for number in 0..SIDE_NAMES {
        let beside = format!(in alloc; "{name}.new{number}")?;
        match create_free(files, beside.as_str()) {
            Ok(file) => return replace_file(files, file, beside.as_str(), name, bytes),
            Err(e) => {
                if e.kind() != ErrorKind::AlreadyExists {
                    return Err(SaveFault::Failed);
                }
            }
        }
    }
    Err(SaveFault::Failed)
}

/// A new file, where the name is free.
fn create_free<R: Files>(files: &R, name: &str) -> io::Result<R::File> {
    OpenOptions::new()
        .write(true)
        .create_new(true)
        .open(files, name)
}

/// Puts the bytes into the file beside the name and renames it, or removes it again.
fn replace_file<R: Files>(
    files: &R,
    mut file: R::File,
    beside: &str,
    name: &str,
    bytes: &[u8],
) -> Result<(), SaveFault> {
    if file.write_all(bytes).is_ok() && fs::rename(files, beside, name).is_ok() {
        return Ok(());
    }
    let _ = fs::remove_file(files, beside);
    Err(SaveFault::Failed)
}
