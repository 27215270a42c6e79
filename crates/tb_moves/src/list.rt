// A list of moves of fixed room.

ghost use Rattle.std.specs.Prelude.{◌≡◌, ◌+◌, ◌<◌, ◌≤◌, List, [], ◌∷◌, ◌++◌, length};
ghost use Rattle.tb_moves.specs.declared.loc.Loc.{Loc};

use crate::loc::Loc;
use arrayvec::ArrayVec;
use std::marker::Model;

/// Single moves, each a target and its source, in the order in which they are made: at most 24.
#[derive(Drop)]
pub struct MoveList {
    moves: ArrayVec<(Loc, Loc), 24>,
}

impl Model for MoveList {
    ghost Value = { List (Loc × Loc) };

    ghost view = { λ l. l.moves.items };
}

impl MoveList {
    /// An empty list.
    pub fn new() -> MoveList
        ensures { result ≡ [] }
    {
        MoveList {
            moves: ArrayVec::new(),
        }
    }

    /// The moves in order.
    pub fn moves(&self) -> &[(Loc, Loc)]
        ensures { result.now ≡ self.now }
    {
        self.moves.as_slice()
    }

    pub(crate) fn clear(&mut self)
        ensures { self.new ≡ [] }
    {
        self.moves.clear();
    }

    pub(crate) fn push(&mut self, target: Loc, source: Loc)
        requires { length self.old < 24 }
        ensures { self.new ≡ self.old ++ (target, source) ∷ [] }
    {
        self.moves.push((target, source));
    }
}
