//! What is counted and measured along a run.

ghost use Rattle.std.specs.Prelude.{ℕ, ◌≡◌, ◌≤◌, ◌<◌, ◌+◌, ◌^◌, length};
ghost use Rattle.tb_base.specs.Outside.{HasCause};
ghost use Rattle.tb_mac.specs.Frames.{Framed, flat};
ghost use Rattle.tb_mac.specs.LiveWords.{IsWalkable, machine_words};
ghost use Rattle.tb_reporting.specs.calls.Meters.{Counts, counted, measured};

use super::lines::put_measure;
use tb_base::{Failed, Sink};
use tb_macm::MacMachine;
use tb_prim::Event;
use tb_space::Walk;

/// Counts events, and measures the machine behind each whose number is a multiple of `every`: how many there were, and the
/// most words.
#[derive(Drop)]
pub struct Meter {
    pub walk: Walk,
    pub every: u64,
    pub events: u64,
    pub peak: u64,
}

impl Meter {
    /// Before the first event, with a walk for the machine's memory.
    pub fn new(walk: Walk, every: u64) -> Meter
        ensures { result ≡ record { walk = walk; every = every; events = 0; peak = 0 } }
    {
        Meter {
            walk,
            every,
            events: 0,
            peak: 0,
        }
    }

    /// Counts the event of a step that led to this state of the machine, if it had one. Where its number is a multiple of
    /// `every`, puts the line of the words that the machine holds.
    pub fn count<O: Sink>(
        &mut self,
        machine: &MacMachine,
        event: Option<Event>,
        out: &mut O,
    ) -> Result<(), Failed>
        requires every { 1 ≤ self.old.every }
        requires fits { self.old.events + 1 < 2 ^ 64 }
        requires size { self.old.walk ≡ length machine.now.mac.memory }
        ensures events { self.new.events ≡ counted event self.old.events }
        ensures every { self.new.every ≡ self.old.every }
        ensures walk { self.new.walk ≡ self.old.walk }
        ensures does { (m : Framed) → flat m ≡ machine.now.mac → IsWalkable machine.now.code m →
            Counts (measured event self.old.every self.old.events (machine_words machine.now.code m)) self.old.peak self.new.peak
            (O.held out.old) (O.held out.new) result }
        ensures cause { HasCause (O.faults out.old) (O.faults out.new) result }
    {
        let Some(_event) = event else {
            return Ok(());
        };
        self.events += 1;
        if self.events % self.every == 0 {
            let words = self.walk.mac_words(machine);
            self.peak = words.max(self.peak);
            put_measure(out, self.events, words)
        } else {
            Ok(())
        }
    }
}
