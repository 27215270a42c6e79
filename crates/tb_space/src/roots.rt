//! What is reached at once: what live words and globals point to, and the static objects.

ghost use Rattle.std.specs.Prelude.{◌≡◌};

use super::objects::{padded_size, static_size};
use super::search::Search;
use tb_macm::MacMachine;
use tb_prim::Static;

impl Search {
    ghost use Rattle.std.specs.Prelude.{◌≡◌, ◌+◌, ◌<◌, ◌≤◌, ◌^◌, List, [], length, vec_len};
    ghost use Rattle.tb_mac.specs.Frames.{Framed, flat};
    ghost use Rattle.tb_mac.specs.Layout.{addresses_from, start_size, statics_size};
    ghost use Rattle.tb_mac.specs.LiveWords.{IsWalkable, object_graph};
    ghost use Rattle.tb_space.specs.calls.Noting.{noted_all};

    /// Notes the static objects, of which the first stands at a word. Answers where they end.
    fn note_statics(&mut self, limit: u32, first: u64, statics: &[Static]) -> u64
        requires fits { first + statics_size statics.now < 2 ^ 63 }
        requires marks { limit ≤ vec_len self.old.marks }
        ensures end { result ≡ first + statics_size statics.now }
        ensures found { self.new.found.items ≡ noted_all limit self.old.found.items (addresses_from first statics.now) }
        ensures size { vec_len self.new.marks ≡ vec_len self.old.marks }
    {
        let mut at = first;
        for object in statics {
            self.note(limit, at);
            at += static_size(object);
        }
        at
    }

    /// Notes all that is reached at once. Answers how many words the globals and the static objects have.
    pub fn note_roots(&mut self, machine: &MacMachine, limit: u32) -> u64
        requires heap { limit ≤ length machine.now.mac.memory }
        requires marks { vec_len self.old.marks ≡ length machine.now.mac.memory }
        ensures start { result ≡ start_size machine.now.code.parts }
        ensures few { result < 2 ^ 46 }
        ensures found { (m : Framed) → flat m ≡ machine.now.mac → IsWalkable machine.now.code m → length m.heap ≡ limit →
            self.new.found.items ≡ noted_all limit self.old.found.items (object_graph machine.now.code m).roots }
        ensures size { vec_len self.new.marks ≡ vec_len self.old.marks }
    {
        let parts = &machine.code().parts;
        self.note_registers(machine, limit);
        self.note_stack(machine, limit);
        let globals = padded_size(parts.globals.as_slice().len() as u64);
        self.note_words(machine, limit, 0, globals.min(u64::from(limit)) as u32);
        self.note_statics(limit, globals, parts.statics.as_slice())
    }
}
