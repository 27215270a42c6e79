//! The live slots of the frames of a machine.

ghost use Rattle.std.specs.Prelude.{◌≡◌, option_copied};
ghost use Rattle.tb_mac.specs.CodeOf.{code_of};
ghost use Rattle.tb_mac.specs.LiveWords.{map_at, slots_at, slots_of};

use super::search::Search;
use tb_mac::{MacCode, Word};
use tb_macm::MacMachine;

/// The slots of the map of an instruction, where it has an own frame.
fn slots_of(code: &MacCode, pc: u32) -> Option<&[bool]>
    ensures { option_copied result ≡ slots_of (map_at (code_of code.now) pc) }
{
    match &code.maps.as_slice().get(pc as usize)?.slots {
        Some(slots) => Some(slots.as_slice()),
        None => None,
    }
}

/// The same of the map at a return word.
fn slots_at(code: &MacCode, back: Word) -> Option<&[bool]>
    ensures { option_copied result ≡ slots_at (code_of code.now) back }
{
    match back {
        Word::Code(pc) => slots_of(code, pc),
        _ => None,
    }
}

impl Search {
    ghost use Rattle.std.specs.Prelude.{◌≡◌, ◌+◌, ◌<◌, ◌≤◌, ◌^◌, List, length, drop, vec_len, ◌∷◌};
    ghost use Rattle.tb_mac.specs.Frames.{Frame, flat_frames};
    ghost use Rattle.tb_mac.specs.LiveWords.{AreWaiting, IsWalkableBy, all_targets, chosen, map_at, slots_of, stack_slots, waiting_slots};
    ghost use Rattle.tb_space.specs.calls.Noting.{noted_all};

    /// Notes where the words from one on point to that are live.
    fn note_live(&mut self, machine: &MacMachine, limit: u32, from: u32, live: &[bool])
        requires there { from + length live.now ≤ length machine.now.mac.memory }
        requires few { length machine.now.mac.memory < 2 ^ 32 }
        requires marks { limit ≤ vec_len self.old.marks }
        ensures found { self.new.found.items ≡ noted_all limit self.old.found.items
            (all_targets (chosen live.now (drop from machine.now.mac.memory))) }
        ensures size { vec_len self.new.marks ≡ vec_len self.old.marks }
    {
        for (k, is_live) in live.iter().enumerate() {
            if *is_live {
                self.note_word(limit, machine.word_at(from + k as u32));
            }
        }
    }

    /// Notes where the live slots of a frame point to. Answers where the next frame stands, or the end of the memory.
    fn note_frame(&mut self, machine: &MacMachine, limit: u32, at: u32, slots: &[bool]) -> u32
        requires there { at < length machine.now.mac.memory }
        requires marks { limit ≤ vec_len self.old.marks }
        ensures further { at < result }
        ensures found { (f : Frame) (fs : List Frame) → drop at machine.now.mac.memory ≡ flat_frames (f ∷ fs) →
            length slots.now ≡ length f.slots → (drop result machine.now.mac.memory ≡ flat_frames fs)
            × (self.new.found.items ≡ noted_all limit self.old.found.items (all_targets (chosen slots.now f.slots))) }
        ensures size { vec_len self.new.marks ≡ vec_len self.old.marks }
    {
        let words = machine.heap_words();
        let size = slots.len() + 2;
        if size > (words - at) as usize {
            return words;
        }
        self.note_live(machine, limit, at + 2, slots);
        at + size as u32
    }

    /// Notes where the live slots of the frames from one on point to, by the maps at their return words.
    fn note_waiting(&mut self, machine: &MacMachine, limit: u32, from: u32)
        requires { limit ≤ vec_len self.old.marks }
        ensures found { (fs : List Frame) → drop from machine.now.mac.memory ≡ flat_frames fs →
            AreWaiting machine.now.code fs → self.new.found.items
            ≡ noted_all limit self.old.found.items (all_targets (waiting_slots machine.now.code fs)) }
        ensures size { vec_len self.new.marks ≡ vec_len self.old.marks }
    {
        let mut at = from;
        while at < machine.heap_words() {
            let Some(slots) = slots_at(machine.code(), machine.word_at(at)) else {
                return;
            };
            at = self.note_frame(machine, limit, at, slots);
        }
    }

    /// Notes where the live slots of all frames point to.
    pub fn note_stack(&mut self, machine: &MacMachine, limit: u32)
        requires { limit ≤ vec_len self.old.marks }
        ensures found { (fs : List Frame) → drop machine.now.mac.stack_pointer machine.now.mac.memory ≡ flat_frames fs →
            IsWalkableBy machine.now.code (slots_of (map_at machine.now.code machine.now.mac.pc)) fs → self.new.found.items
            ≡ noted_all limit self.old.found.items (all_targets (stack_slots machine.now.code
            (slots_of (map_at machine.now.code machine.now.mac.pc)) fs)) }
        ensures size { vec_len self.new.marks ≡ vec_len self.old.marks }
    {
        let (_, top) = machine.pointers();
        match slots_of(machine.code(), machine.pc()) {
            Some(slots) => {
                if top < machine.heap_words() {
                    let next = self.note_frame(machine, limit, top, slots);
                    self.note_waiting(machine, limit, next);
                }
            }
            None => self.note_waiting(machine, limit, top),
        }
    }
}
