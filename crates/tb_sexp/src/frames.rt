ghost use Rattle.std.specs.Prelude.{◌≡◌, [], ◌∷◌, ◌++◌, map, IfOk, OnOk};
ghost use Rattle.tb_sexp.specs.calls.Frames as frames;
ghost use Rattle.tb_sexp.specs.ListShapes.{marked, name_of_mark};
ghost use Rattle.tb_sexp.specs.calls.Frames.{view_frame, view_state};
ghost use Rattle.tb_sexp.specs.calls.Tails.{view_tail};
ghost use Rattle.tb_sexp.specs.Tree.{At, Name};
ghost use Rattle.tb_sexp.specs.View.{view};

use super::stack::Stack;
use super::tails::{Tail, into_datum, list};
use super::token::Mark;
use super::{Datum, Node};
use std::alloc::Global;
use tb_prim::{Bytes, NoMemory, Place};

/// What is not finished: its place, and its elements so far. `AfterTail` has the tail of a dotted list too.
#[derive(Drop)]
pub enum Frame {
    Mark(Place, Mark),
    List(Place, Vec<Datum>),
    AfterDot(Place, Vec<Datum>),
    AfterTail(Place, Vec<Datum>, Tail),
    Vector(Place, Vec<Datum>),
}

/// The whole data so far, and what is not finished.
#[derive(Drop)]
pub struct Open {
    pub finished: Vec<Datum>,
    pub frames: Stack<Frame>,
}

fn mark_name(mark: Mark) -> &'static [u8]
    ensures { result.now ≡ name_of_mark mark }
{
    match mark {
        Mark::Quote => b"quote",
        Mark::Quasiquote => b"quasiquote",
        Mark::Unquote => b"unquote",
        Mark::UnquoteSplicing => b"unquote-splicing",
    }
}

fn name_datum(alloc: Global, place: Place, text: &[u8]) -> Result<Datum, NoMemory>
    ensures { IfOk result (λ d. view d ≡ At place (Name text.now 0)) }
{
    Ok(Datum {
        place,
        node: Node::Name(Bytes::new(alloc, text)?, 0),
    })
}

fn pair(alloc: Global, first: Datum, second: Datum) -> Result<Vec<Datum>, NoMemory>
    ensures { IfOk result (λ elements. map view elements.items ≡ view first ∷ view second ∷ []) }
{
    let mut elements = Vec::new(alloc);
    elements.push(first)?;
    elements.push(second)?;
    Ok(elements)
}

/// The list of a name and the datum, both at the place of the mark.
fn marked_datum(alloc: Global, place: Place, mark: Mark, datum: Datum) -> Result<Tail, NoMemory>
    ensures { IfOk result (λ all. view_tail all ≡ marked place mark (view datum)) }
{
    let name = name_datum(alloc, place, mark_name(mark))?;
    let elements = pair(alloc, name, datum)?;
    Ok(list(place, elements))
}

fn put_element(elements: &mut Vec<Datum>, datum: Datum) -> Result<(), NoMemory>
    ensures { OnOk result (map view elements.new.items ≡ map view elements.old.items ++ view datum ∷ []) }
{
    elements.push(datum)?;
    Ok(())
}

/// Gives a finished datum to what waits for it. The recursion goes over marks in a row.
pub fn give(alloc: Global, state: &mut Open, finished: Tail) -> Result<(), NoMemory>
    ensures { OnOk result (view_state state.new ≡ frames.give (map view state.old.finished.items) (map view_frame state.old.frames) (view_tail finished)) }
{
    match state.frames.pop() {
        None => put_element(&mut state.finished, into_datum(finished)),
        Some(Frame::Mark(place, mark)) => {
            let whole = marked_datum(alloc, place, mark, into_datum(finished))?;
            give(alloc, state, whole)
        }
        Some(Frame::List(place, mut elements)) => {
            put_element(&mut elements, into_datum(finished))?;
            state.frames.push(Frame::List(place, elements))
        }
        Some(Frame::AfterDot(place, elements)) => {
            state
                .frames
                .push(Frame::AfterTail(place, elements, finished))
        }
        Some(Frame::AfterTail(place, elements, tail)) => {
            state.frames.push(Frame::AfterTail(place, elements, tail))
        }
        Some(Frame::Vector(place, mut elements)) => {
            put_element(&mut elements, into_datum(finished))?;
            state.frames.push(Frame::Vector(place, elements))
        }
    }
}
