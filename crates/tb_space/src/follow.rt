//! Following the words of the heap: those of an object, all that leads on from what was found, and the sizes.

ghost use Rattle.std.specs.Prelude.{◌≡◌};

use super::objects::{object_size, pointing_words};
use super::search::Search;
use tb_macm::MacMachine;

impl Search {
    ghost use Rattle.std.specs.Prelude.{◌≡◌, ◌+◌, ◌-◌, ◌*◌, ◌<◌, ◌≤◌, ◌^◌, ℕ, length, slice_get, take, vec_len};
    ghost use Rattle.tb_semantics.specs.Graph.{IsIn, ListsReachable, sum_of};
    ghost use Rattle.tb_mac.specs.LiveWords.{pointing_words, targets_from};
    ghost use Rattle.tb_space.specs.calls.Noting.{noted_all};
    ghost use Rattle.tb_space.specs.calls.Roots.{heap_graph, size_from};

    /// Notes where the words of the heap from one up to another point to.
    pub fn note_words(&mut self, machine: &MacMachine, limit: u32, from: u32, to: u32)
        requires below { to ≤ limit }
        requires heap { limit ≤ length machine.now.mac.memory }
        requires marks { vec_len self.old.marks ≡ length machine.now.mac.memory }
        ensures found { self.new.found.items ≡ noted_all limit self.old.found.items
            (targets_from (take limit machine.now.mac.memory) from (to - from)) }
        ensures size { vec_len self.new.marks ≡ vec_len self.old.marks }
    {
        for at in from..to {
            self.note_word(limit, machine.word_at(at));
        }
    }

    /// Notes where the words of an object point to.
    fn note_object(&mut self, machine: &MacMachine, limit: u32, at: u32)
        requires there { at < length machine.now.mac.memory }
        requires heap { limit ≤ length machine.now.mac.memory }
        requires marks { vec_len self.old.marks ≡ length machine.now.mac.memory }
        ensures found { let heap = take limit machine.now.mac.memory in self.new.found.items
            ≡ noted_all limit self.old.found.items (targets_from heap at (pointing_words (slice_get heap at))) }
        ensures size { vec_len self.new.marks ≡ vec_len self.old.marks }
    {
        let end = u64::from(at) + pointing_words(machine.word_at(at));
        self.note_words(machine, limit, at, end.min(u64::from(limit)) as u32);
    }

    /// Notes all that leads on from what was found.
    pub fn follow(&mut self, machine: &MacMachine, limit: u32)
        requires heap { limit ≤ length machine.now.mac.memory }
        requires marks { vec_len self.old.marks ≡ length machine.now.mac.memory }
        ensures found { ((a : ℕ) → IsIn a self.old.found.items → a < limit) →
            ListsReachable (heap_graph (take limit machine.now.mac.memory) self.old.found.items) self.new.found.items }
        ensures size { vec_len self.new.marks ≡ vec_len self.old.marks }
    {
        let mut next = 0;
        while next < self.found.len() {
            let at = self.found[next];
            self.note_object(machine, limit, at);
            next += 1;
        }
    }

    /// The words of all objects that were found, but for those below `start`.
    pub fn size(&self, machine: &MacMachine, start: u64) -> u64
        requires marks { vec_len self.now.marks ≡ length machine.now.mac.memory }
        requires few { vec_len self.now.marks ≤ 33554432 }
        ensures sum { result ≡ sum_of (size_from machine.now.mac.memory start) self.now.found.items }
        ensures small { result < 2 ^ 60 }
    {
        let mut sum = 0;
        for at in &self.found {
            if start <= u64::from(*at) {
                sum += object_size(machine.word_at(*at));
            }
        }
        sum
    }
}
