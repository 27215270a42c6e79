//! Queues.
use std::marker::Model;

/// A queue, which contracts see as the list of its elements from the front on.
#[derive(Debug, Drop)]
pub struct Queue<T> {
    items: Vec<T>,
}

impl<T> Model for Queue<T> {
    ghost use Rattle.std.specs.Prelude.{List, reverse};
    ghost use Rattle.std.specs.Coded.{coded_list};

    ghost Value = { List T };

    ghost coded = { coded_list T.code };

    ghost view = { λ queue. reverse queue.items.items };
}

impl<T: Drop> Queue<T> {
    ghost use Rattle.std.specs.Prelude.{◌≡◌, List, [], ◌∷◌, MatchOption};

    /// A queue of these elements, the first at the front. Takes no memory.
    pub fn of(items: Vec<T>) -> Queue<T>
        ensures { result ≡ items.items }
    {
        let mut items = items;
        items.reverse();
        Queue { items }
    }

    /// Takes the element at the front.
    pub fn pop(&mut self) -> Option<T>
        ensures { MatchOption result ((self.old ≡ []) × (self.new ≡ [])) (λ item. self.old ≡ item ∷ self.new) }
    {
        self.items.pop()
    }
}
