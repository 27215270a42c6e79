ghost use Rattle.std.specs.Prelude.{◌≡◌, map, reverse, IfOk};
ghost use Rattle.tb_sexp.specs.ListShapes.{dotted, front_of, list_of};
ghost use Rattle.tb_sexp.specs.calls.Tails.{ended, view_tail};
ghost use Rattle.tb_sexp.specs.Tree.{At, Dotted};
ghost use Rattle.tb_sexp.specs.View.{trees, view, view_node};

use super::{Datum, Node};
use sqlite_items::Boxed;
use std::alloc::Global;
use tb_prim::{NoMemory, Place, Row};

/// A finished datum, which may become the tail of a dotted list. `Reversed` is a list with its elements from the last
/// to the first, so that others are put before them without moving them, and with its own tail, if any.
#[derive(Drop)]
pub enum Tail {
    Whole(Datum),
    Reversed(Place, Vec<Datum>, Option<Boxed<Datum>>),
}

/// The list of the elements.
pub fn list(place: Place, elements: Vec<Datum>) -> Tail
    ensures { view_tail result ≡ At place (list_of (map view elements.items)) }
{
    if elements.is_empty() {
        Tail::Whole(Datum {
            place,
            node: Node::Nil,
        })
    } else {
        Tail::Whole(Datum {
            place,
            node: Node::List(Row::from_vec(elements), None),
        })
    }
}

/// The list of the front and the back, whose elements stand from the last to the first.
fn joined(
    place: Place,
    mut front: Vec<Datum>,
    mut back: Vec<Datum>,
    end: Option<Boxed<Datum>>,
) -> Result<Tail, NoMemory>
    ensures { IfOk result (λ all. view_tail all ≡ At place (ended (front_of (map view front.items) (trees (map view (reverse back.items)))) end)) }
{
    front.reverse();
    back.append(&mut front)?;
    Ok(Tail::Reversed(place, back, end))
}

/// The dotted list of the elements and of a tail that is no list, which begins at `start`.
fn with_end(
    alloc: Global,
    place: Place,
    mut elements: Vec<Datum>,
    start: Place,
    node: Node,
) -> Result<Tail, NoMemory>
    ensures { IfOk result (λ all. view_tail all ≡ At place (Dotted (trees (map view elements.items)) (At start (view_node node)))) }
{
    let end = Boxed::new(alloc, Datum { place: start, node })?;
    elements.reverse();
    Ok(Tail::Reversed(place, elements, Some(end)))
}

/// The dotted list, or the list that it denotes where its tail is one.
pub fn dotted_list(
    alloc: Global,
    place: Place,
    front: Vec<Datum>,
    tail: Tail,
) -> Result<Tail, NoMemory>
    ensures { IfOk result (λ all. view_tail all ≡ At place (dotted (map view front.items) (view_tail tail))) }
{
    match tail {
        Tail::Reversed(_, back, end) => joined(place, front, back, end),
        Tail::Whole(Datum { place: start, node }) => match node {
            Node::Nil => Ok(list(place, front)),
            Node::List(more, end) => {
                let mut back = more.into_vec();
                back.reverse();
                joined(place, front, back, end)
            }
            Node::Bool(b) => with_end(alloc, place, front, start, Node::Bool(b)),
            Node::Fix(n) => with_end(alloc, place, front, start, Node::Fix(n)),
            Node::Char(c) => with_end(alloc, place, front, start, Node::Char(c)),
            Node::Str(text) => with_end(alloc, place, front, start, Node::Str(text)),
            Node::Name(text, alias) => with_end(
                alloc,
                place,
                front,
                start,
                Node::Name(text, alias),
            ),
            Node::Vector(items) => with_end(alloc, place, front, start, Node::Vector(items)),
        },
    }
}

/// The datum, with its elements in their order.
pub fn into_datum(tail: Tail) -> Datum
    ensures { view result ≡ view_tail tail }
{
    match tail {
        Tail::Whole(datum) => datum,
        Tail::Reversed(place, mut elements, end) => {
            elements.reverse();
            Datum {
                place,
                node: Node::List(Row::from_vec(elements), end),
            }
        }
    }
}
