use super::call_numbers::CallNumbers;
use super::entries::{Entry, place_of};
use super::fault_names::{note_name, reserve_name};
use super::{LoadFault, SaveFault, Store};
use std::alloc::Global;
use std::marker::Model;
use tb_prim::{Bytes, NoMemory};

/// A store in memory. Its calls are numbered from 0, loads and saves together, and some of them fail.
#[derive(Debug, Drop)]
pub struct MemStore {
    entries: Vec<Entry>,
    failed_loads: Vec<Bytes>,
    failed_saves: Vec<Bytes>,
    calls: CallNumbers,
}

impl Model for MemStore {
    ghost use Rattle.tb_base.specs.Memory.{StoreState};

    ghost Value = { StoreState };

    ghost view = { λ s. record {
      entries = s.entries.items;
      failed_loads = s.failed_loads.items;
      failed_saves = s.failed_saves.items;
      calls = s.calls;
    } };
}

impl MemStore {
    ghost use Rattle.std.specs.Prelude.{◌≡◌, [], IfOk};
    ghost use Rattle.std.specs.Option.{option_copied};
    ghost use Rattle.tb_base.specs.Memory.{file_of};

    /// A store without files. `fails` lists the calls, loads and saves counted together from 0, that fail.
    pub fn new(alloc: Global, fails: &[u64]) -> Result<MemStore, NoMemory>
        ensures files { IfOk result (λ s. s.entries ≡ []) }
        ensures fails { IfOk result (λ s. s.calls.fails ≡ fails.now) }
        ensures first { IfOk result (λ s. s.calls.next ≡ 0) }
        ensures load_faults { IfOk result (λ s. s.failed_loads ≡ []) }
        ensures save_faults { IfOk result (λ s. s.failed_saves ≡ []) }
    {
        let calls = CallNumbers::new(alloc, fails)?;
        Ok(MemStore {
            entries: Vec::new(alloc),
            failed_loads: Vec::new(alloc),
            failed_saves: Vec::new(alloc),
            calls,
        })
    }

    /// What the name holds. Takes no memory.
    #[tactic(auto, using(crate::proofs::Files::files))]
    pub fn get(&self, name: &str) -> Option<&[u8]>
        ensures { option_copied result ≡ file_of self.now.entries name.now }
    {
        let place = place_of(&self.entries, name.as_bytes())?;
        Some(self.entries[place].bytes.as_slice())
    }
}

#[tactic(auto, using(crate::proofs::Files::files))]
impl Store for MemStore {
    ghost use Rattle.std.specs.Prelude.{ℕ, ◌≡◌, ◌↔◌, ◌⊎◌, ◌<◌, ◌≤◌, ◌^◌, List, Some, None, IfOk, vec_len};
    ghost use Rattle.tb_base.specs.Calls.{IsFailing, after_call};
    ghost use Rattle.tb_base.specs.FaultNames.{fault_count, after_load, after_save, IsFailedLoad, IsFailedSave};
    ghost use Rattle.tb_base.specs.Memory.{file_of};
    ghost use Rattle.tb_base.specs.Outside.{LoadDoes, LoadHasCause, SaveDoes, SaveHasCause, SameCounts};

    ghost files = { λ s. Some (file_of s.entries) };

    ghost load_faults = { λ s. fault_count s.failed_loads };

    ghost save_faults = { λ s. fault_count s.failed_saves };

    /// Fails where the number of the call is listed, or the name is missing.
    fn load(&mut self, alloc: Global, name: &str, limit: u64) -> Result<Vec<u8>, LoadFault>
        requires { limit < 2 ^ 63 }
        ensures bound { IfOk result (λ bytes. vec_len bytes ≤ limit) }
        ensures does { LoadDoes (Some (file_of self.old.entries)) (Some (file_of self.new.entries))
            name.now limit result }
        ensures cause { LoadHasCause (fault_count self.old.failed_loads) (fault_count self.new.failed_loads)
            name.now result }
        ensures saves { SameCounts (fault_count self.old.failed_saves)
            (fault_count self.new.failed_saves) }

        ensures fails { IsFailing self.old.calls ⊎ (file_of self.old.entries name.now ≡ None)
            → IsFailedLoad result }
        ensures failed_only { result ≡ Err LoadFault.Failed
            → IsFailing self.old.calls ⊎ (file_of self.old.entries name.now ≡ None) }
        ensures load_faults { self.new.failed_loads
            ≡ after_load self.old.failed_loads name.now result }
        ensures save_faults { self.new.failed_saves ≡ self.old.failed_saves }
        ensures counted { self.new.calls ≡ after_call self.old.calls }
        ensures entries { self.new.entries ≡ self.old.entries }
    {
        let fails = self.calls.is_next_failing();
        let copy = reserve_name(alloc, &mut self.failed_loads, name)?;
        if fails {
            note_name(&mut self.failed_loads, copy);
            return Err(LoadFault::Failed);
        }
        let Some(place) = place_of(&self.entries, name.as_bytes()) else {
            note_name(&mut self.failed_loads, copy);
            return Err(LoadFault::Failed);
        };
        let bytes = self.entries[place].bytes.as_slice();
        if bytes.len() as u64 > limit {
            return Err(LoadFault::TooLong);
        }
        Ok(Vec::from_slice(alloc, bytes)?)
    }

    /// Fails where the number of the call is listed.
    fn save(&mut self, alloc: Global, name: &str, bytes: &[u8]) -> Result<(), SaveFault>
        ensures does { SaveDoes (Some (file_of self.old.entries)) (Some (file_of self.new.entries))
            name.now bytes.now result }
        ensures cause { SaveHasCause (fault_count self.old.failed_saves) (fault_count self.new.failed_saves)
            name.now result }
        ensures loads { SameCounts (fault_count self.old.failed_loads)
            (fault_count self.new.failed_loads) }

        ensures fails { IsFailing self.old.calls → IsFailedSave result }
        ensures failed_only { result ≡ Err SaveFault.Failed → IsFailing self.old.calls }
        ensures save_faults { self.new.failed_saves
            ≡ after_save self.old.failed_saves name.now result }
        ensures load_faults { self.new.failed_loads ≡ self.old.failed_loads }
        ensures counted { self.new.calls ≡ after_call self.old.calls }
    {
        let fails = self.calls.is_next_failing();
        let copy = reserve_name(alloc, &mut self.failed_saves, name)?;
        if fails {
            note_name(&mut self.failed_saves, copy);
            return Err(SaveFault::Failed);
        }
        let bytes = Bytes::new(alloc, bytes)?;
        match place_of(&self.entries, name.as_bytes()) {
            Some(place) => self.entries[place].bytes = bytes,
            None => self.entries.push(Entry { name: copy, bytes })?,
        }
        Ok(())
    }
}
