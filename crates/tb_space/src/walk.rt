//! The walk, and how many words a machine's state holds.

ghost use Rattle.std.specs.Prelude.{◌≡◌};

use super::search::Search;
use std::alloc::Global;
use std::marker::Model;
use tb_macm::MacMachine;
use tb_prim::NoMemory;

/// A walk of the objects that a machine's state leads to. Contracts see it as the number of words of the machines that it is
/// made for.
#[derive(Drop)]
pub struct Walk {
    search: Search,
}

impl Model for Walk {
    ghost use Rattle.std.specs.Prelude.{◌≡◌, ◌≤◌, ℕ, [], vec_len};

    ghost Value = { ℕ };

    ghost view = { λ w. vec_len w.search.marks };

    ghost invariant = { λ w. (w.search.found.items ≡ []) × (vec_len w.search.marks ≤ 33554432) };
}

impl Walk {
    ghost use Rattle.std.specs.Prelude.{◌≡◌, ◌≤◌, IfOk, length};
    ghost use Rattle.tb_mac.specs.Frames.{Framed, flat};
    ghost use Rattle.tb_mac.specs.LiveWords.{IsWalkable, machine_words};

    /// A walk for machines of so many words of memory, at most 33,554,432. It takes about five bytes a word.
    pub fn new(alloc: Global, words: u32) -> Result<Walk, NoMemory>
        requires { words ≤ 33554432 }
        ensures { IfOk result (λ w. w ≡ words) }
    {
        let search = Search::new(alloc, words)?;
        Ok(Walk { search })
    }

    /// The words that the machine's state holds: its 17 registers, all frames, the globals, the static objects, and the
    /// objects of the heap that can be reached from live words, globals and static objects. Takes no memory.
    pub fn mac_words(&mut self, machine: &MacMachine) -> u64
        requires { self.old ≡ length machine.now.mac.memory }
        ensures words { (m : Framed) → flat m ≡ machine.now.mac → IsWalkable machine.now.code m →
            result ≡ machine_words machine.now.code m }
        ensures again { self.new ≡ self.old }
    {
        let words = machine.heap_words();
        let (pointer, stack) = machine.pointers();
        let limit = pointer.min(words);
        let start = self.search.note_roots(machine, limit);
        self.search.follow(machine, limit);
        let objects = self.search.size(machine, start);
        self.search.clear();
        17 + u64::from(words.saturating_sub(stack)) + start + objects
    }
}
