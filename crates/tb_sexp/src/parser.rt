ghost use Rattle.std.specs.Prelude.{◌≡◌, map};
ghost use Rattle.tb_sexp.specs.calls.Frames.{view_frame, view_state};
ghost use Rattle.tb_sexp.specs.calls.Reading as reading;
ghost use Rattle.tb_sexp.specs.calls.Reading.{Accepts, accept, begin, deep_mark};
ghost use Rattle.tb_sexp.specs.View.{view, view_node};

use super::frames::{Frame, Open, give};
use super::scan::blanks;
use super::tails::{Tail, dotted_list, list};
use super::token::Token;
use super::{Datum, Node, ReadRefusal};
use std::alloc::Global;
use tb_prim::{NoMemory, Place, Row};

/// The most lists, vectors and marks that are not finished.
const DEPTH: usize = 256;

/// Whether a datum can stand here.
pub fn takes_datum(state: &Open) -> bool
    ensures { result ≡ reading.takes_datum (map view_frame state.now.frames) }
{
    match state.frames.top() {
        None => true,
        Some(Frame::Mark(_, _)) => true,
        Some(Frame::List(_, _)) => true,
        Some(Frame::AfterDot(_, _)) => true,
        Some(Frame::AfterTail(_, _, _)) => false,
        Some(Frame::Vector(_, _)) => true,
    }
}

fn close(alloc: Global, state: &mut Open, place: Place) -> Result<(), ReadRefusal>
    ensures { Accepts (reading.close (map view state.old.finished.items) (map view_frame state.old.frames) place) result (view_state state.new) }
{
    match state.frames.pop() {
        Some(Frame::List(start, elements)) => {
            give(alloc, state, list(start, elements))?;
            Ok(())
        }
        Some(Frame::AfterTail(start, elements, tail)) => {
            let whole = dotted_list(alloc, start, elements, tail)?;
            give(alloc, state, whole)?;
            Ok(())
        }
        Some(Frame::Vector(start, elements)) => {
            let node = Node::Vector(Row::from_vec(elements));
            give(alloc, state, Tail::Whole(Datum { place: start, node }))?;
            Ok(())
        }
        Some(Frame::Mark(_, _)) => Err(ReadRefusal::Syntax(place)),
        Some(Frame::AfterDot(_, _)) => Err(ReadRefusal::Syntax(place)),
        None => Err(ReadRefusal::Syntax(place)),
    }
}

fn dot(state: &mut Open, place: Place) -> Result<(), ReadRefusal>
    ensures { Accepts (reading.dot (map view state.old.finished.items) (map view_frame state.old.frames) place) result (view_state state.new) }
{
    match state.frames.pop() {
        Some(Frame::List(start, elements)) => {
            if elements.is_empty() {
                Err(ReadRefusal::Syntax(place))
            } else {
                state.frames.push(Frame::AfterDot(start, elements))?;
                Ok(())
            }
        }
        Some(Frame::Mark(_, _)) => Err(ReadRefusal::Syntax(place)),
        Some(Frame::AfterDot(_, _)) => Err(ReadRefusal::Syntax(place)),
        Some(Frame::AfterTail(_, _, _)) => Err(ReadRefusal::Syntax(place)),
        Some(Frame::Vector(_, _)) => Err(ReadRefusal::Syntax(place)),
        None => Err(ReadRefusal::Syntax(place)),
    }
}

/// Begins a list, a vector or a mark. `deep` says what is wrong where too many are not finished.
fn begin_frame(
    state: &mut Open,
    place: Place,
    frame: Frame,
    deep: ReadRefusal,
) -> Result<(), ReadRefusal>
    ensures { Accepts (begin (view_state state.old) place (view_frame frame) deep) result (view_state state.new) }
{
    if !takes_datum(state) {
        return Err(ReadRefusal::Syntax(place));
    }
    if state.frames.len() < DEPTH {
        state.frames.push(frame)?;
        Ok(())
    } else {
        Err(deep)
    }
}

/// What is wrong with a mark that stands too deep. One that nothing follows is wrong anyway.
fn deep_mark_refusal(place: Place, rest: &[u8]) -> ReadRefusal
    ensures { result ≡ deep_mark place rest.now }
{
    if blanks(rest) == rest.len() {
        ReadRefusal::Syntax(place)
    } else {
        ReadRefusal::TooDeep(place)
    }
}

fn put_datum(alloc: Global, state: &mut Open, place: Place, node: Node) -> Result<(), ReadRefusal>
    ensures { Accepts (reading.datum (view_state state.old) place (view_node node)) result (view_state state.new) }
{
    if takes_datum(state) {
        give(alloc, state, Tail::Whole(Datum { place, node }))?;
        Ok(())
    } else {
        Err(ReadRefusal::Syntax(place))
    }
}

/// Goes on with one token, which stands at the place and before the rest of the text.
pub fn accept_token(
    alloc: Global,
    state: &mut Open,
    place: Place,
    token: Token,
    rest: &[u8],
) -> Result<(), ReadRefusal>
    ensures { Accepts (accept (view_state state.old) place token rest.now) result (view_state state.new) }
{
    match token {
        Token::Open => begin_frame(
            state,
            place,
            Frame::List(place, Vec::new(alloc)),
            ReadRefusal::TooDeep(place),
        ),
        Token::OpenVector => begin_frame(
            state,
            place,
            Frame::Vector(place, Vec::new(alloc)),
            ReadRefusal::TooDeep(place),
        ),
        Token::Close => close(alloc, state, place),
        Token::Mark(mark) => begin_frame(
            state,
            place,
            Frame::Mark(place, mark),
            deep_mark_refusal(place, rest),
        ),
        Token::Dot => dot(state, place),
        Token::Bool(b) => put_datum(alloc, state, place, Node::Bool(b)),
        Token::Fix(n) => put_datum(alloc, state, place, Node::Fix(n)),
        Token::Char(c) => put_datum(alloc, state, place, Node::Char(c)),
        Token::Str(text) => put_datum(alloc, state, place, Node::Str(text)),
        Token::Name(text) => put_datum(alloc, state, place, Node::Name(text, 0)),
    }
}
