//! What a search of the heap has found.

ghost use Rattle.std.specs.Prelude.{◌≡◌, ◌≤◌, ℕ, true, false, slice_index_or, vec_len, vec_capacity};
ghost use Rattle.tb_semantics.specs.Graph.{has};
ghost use Rattle.tb_space.specs.calls.Noting.{is_apart};

use std::alloc::Global;
use tb_mac::Word;
use tb_prim::NoMemory;

/// The addresses that were found, in the order in which they were found, and for each word of the memory whether its
/// address is one of them.
#[derive(Drop)]
pub struct Search {
    pub found: Vec<u32>,
    pub marks: Vec<bool>,
    pub ghost marked: { (a : ℕ) → slice_index_or marks.items a false ≡ has found.items a },
    pub ghost once: { is_apart found.items ≡ true },
    pub ghost room: { vec_len marks ≤ vec_capacity found },
}

impl Search {
    ghost use Rattle.std.specs.Prelude.{◌≡◌, ◌≤◌, [], IfOk, vec_len};
    ghost use Rattle.tb_mac.specs.LiveWords.{targets};
    ghost use Rattle.tb_space.specs.calls.Noting.{noted, noted_all};

    /// Nothing was found, in a memory of so many words.
    pub fn new(alloc: Global, words: u32) -> Result<Search, NoMemory>
        ensures found { IfOk result (λ s. s.found.items ≡ []) }
        ensures size { IfOk result (λ s. vec_len s.marks ≡ words) }
    {
        let found = Vec::with_capacity(alloc, words as usize)?;
        let marks = vec![in alloc; false; words as usize]?;
        Ok(Search { found, marks })
    }

    /// Notes an address below the limit, unless it was found before.
    pub fn note(&mut self, limit: u32, at: u64)
        requires { limit ≤ vec_len self.old.marks }
        ensures found { self.new.found.items ≡ noted limit self.old.found.items at }
        ensures size { vec_len self.new.marks ≡ vec_len self.old.marks }
    {
        if at < u64::from(limit) && !self.marks[at as usize] {
            self.marks[at as usize] = true;
            self.found.push_reserved(at as u32);
        }
    }

    /// Notes where a word points to.
    pub fn note_word(&mut self, limit: u32, word: Word)
        requires { limit ≤ vec_len self.old.marks }
        ensures found { self.new.found.items ≡ noted_all limit self.old.found.items (targets word) }
        ensures size { vec_len self.new.marks ≡ vec_len self.old.marks }
    {
        if let Word::Pointer(_, at) = word {
            self.note(limit, u64::from(at));
        }
    }

    /// Forgets what was found.
    pub fn clear(&mut self)
        ensures found { self.new.found.items ≡ [] }
        ensures size { vec_len self.new.marks ≡ vec_len self.old.marks }
    {
        while let Some(at) = self.found.pop() {
            self.marks[at as usize] = false;
        }
    }
}
