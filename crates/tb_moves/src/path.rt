// A stack of locations of fixed room.

ghost use Rattle.std.specs.Prelude.{◌≡◌, ◌<◌, List, [], ◌∷◌, length, reverse, MatchOption};
ghost use Rattle.tb_moves.specs.declared.loc.Loc.{Loc};

use crate::loc::Loc;
use arrayvec::ArrayVec;
use std::marker::Model;

// Its locations, the top first in contracts: at most 16.
#[derive(Drop)]
pub struct Path {
    bottom_first: ArrayVec<Loc, 16>,
}

impl Model for Path {
    ghost Value = { List Loc };

    ghost view = { λ p. reverse p.bottom_first.items };
}

impl Path {
    pub fn new() -> Path
        ensures { result ≡ [] }
    {
        Path {
            bottom_first: ArrayVec::new(),
        }
    }

    pub fn top(&self) -> Option<Loc>
        ensures { MatchOption result (self.now ≡ []) (λ top. (rest : List Loc) × (self.now ≡ top ∷ rest)) }
    {
        self.bottom_first.last().copied()
    }

    pub fn push(&mut self, top: Loc)
        requires { length self.old < 16 }
        ensures { self.new ≡ top ∷ self.old }
    {
        self.bottom_first.push(top);
    }

    pub fn pop(&mut self) -> Option<Loc>
        ensures { MatchOption result ((self.old ≡ []) × (self.new ≡ [])) (λ top. self.old ≡ top ∷ self.new) }
    {
        self.bottom_first.pop()
    }
}
