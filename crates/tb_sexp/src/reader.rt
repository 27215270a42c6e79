ghost use Rattle.std.specs.Prelude.{◌≡◌, ◌+◌, ◌-◌, ◌≤◌, ◌<◌, map, IfErr, IfOk, length, drop, take};
ghost use Rattle.std.specs.List.{All};
ghost use Rattle.tb_sexp.specs.calls.Frames.{view_frame, view_state};
ghost use Rattle.tb_sexp.specs.calls.Scanning.{HasRoom};
ghost use Rattle.tb_sexp.specs.Places.{behind_all};
ghost use Rattle.tb_sexp.specs.ReadData.{IsRead};
ghost use Rattle.tb_sexp.specs.calls.Reading as reading;
ghost use Rattle.tb_sexp.specs.calls.Reading.{failed};
ghost use Rattle.tb_sexp.specs.Faults.{refusal_of};
ghost use Rattle.tb_sexp.specs.calls.Runs as runs;
ghost use Rattle.tb_sexp.specs.calls.Runs.{Reads, Takes, shown};
ghost use Rattle.tb_sexp.specs.Texts.{IsText, RefusedAs};
ghost use Rattle.tb_sexp.specs.View.{view};

use super::frames::{Frame, Open};
use super::lexer::read_token;
use super::parser::{accept_token, takes_datum};
use super::scan::{blanks, place_behind};
use super::stack::Stack;
use super::token::{Fault, TokenRefusal};
use super::{Datum, ReadRefusal};
use std::alloc::Global;
use tb_prim::{NoMemory, Place};

fn front(text: &[u8], count: usize) -> &[u8]
    ensures exact { result.now ≡ take count text.now }
    ensures within { length result.now ≤ length text.now }
{
    if count <= text.len() {
        &text[..count]
    } else {
        text
    }
}

/// What a fault at the place, where the text stands, is to the reader.
fn refusal_at(fault: Fault, place: Place, text: &[u8]) -> ReadRefusal
    requires { HasRoom place (length text.now) }
    ensures { result ≡ refusal_of fault place text.now }
{
    match fault {
        Fault::Syntax => ReadRefusal::Syntax(place),
        Fault::LongName => ReadRefusal::TooLong(place),
        Fault::BigNumber => ReadRefusal::TooBig(place),
        Fault::LongString => ReadRefusal::TooLong(place),
        Fault::BadEscape(count) => ReadRefusal::Syntax(place_behind(place, front(text, count))),
        Fault::OpenString => ReadRefusal::Unclosed(place),
    }
}

fn failed_at(state: &Open, fault: Fault, place: Place, text: &[u8]) -> ReadRefusal
    requires { HasRoom place (length text.now) }
    ensures { result ≡ failed (view_state state.now) fault place text.now }
{
    if takes_datum(state) {
        refusal_at(fault, place, text)
    } else {
        ReadRefusal::Syntax(place)
    }
}

/// Takes the token at the front of the text, which stands at the place, and says how many bytes it has.
fn take_token(
    alloc: Global,
    state: &mut Open,
    place: Place,
    text: &[u8],
) -> Result<usize, ReadRefusal>
    requires { HasRoom place (length text.now) }
    ensures exact { Takes (runs.take_token (view_state state.old) place text.now) result (view_state state.new) }
    ensures within { IfOk result (λ size. (0 < size) × (size ≤ length text.now)) }
{
    match read_token(alloc, text) {
        Ok((token, size)) => {
            accept_token(alloc, state, place, token, &text[size..])?;
            Ok(size)
        }
        Err(TokenRefusal::NoMemory) => Err(ReadRefusal::NoMemory),
        Err(TokenRefusal::Fault(fault)) => Err(failed_at(state, fault, place, text)),
    }
}

/// The data, at the end of the text.
fn finish(mut state: Open) -> Result<Vec<Datum>, ReadRefusal>
    ensures { shown (λ items_read. map view items_read.items) result ≡ (reading.finish (map view state.finished.items) (map view_frame state.frames)) }
{
    match state.frames.pop() {
        None => Ok(state.finished),
        Some(Frame::Mark(place, _)) => Err(ReadRefusal::Syntax(place)),
        Some(Frame::List(place, _)) => Err(ReadRefusal::Unclosed(place)),
        Some(Frame::AfterDot(place, _)) => Err(ReadRefusal::Unclosed(place)),
        Some(Frame::AfterTail(place, _, _)) => Err(ReadRefusal::Unclosed(place)),
        Some(Frame::Vector(place, _)) => Err(ReadRefusal::Unclosed(place)),
    }
}

/// The text behind so many bytes.
fn behind(text: &[u8], count: usize) -> &[u8]
    requires { count ≤ length text.now }
    ensures exact { result.now ≡ drop count text.now }
    ensures size { length result.now + count ≡ length text.now }
{
    &text[count..]
}

/// The place behind so many bytes of the text, which stands at the place.
fn pass(place: Place, text: &[u8], count: usize) -> Place
    requires room { HasRoom place (length text.now) }
    requires within { count ≤ length text.now }
    ensures exact { result ≡ behind_all place (take count text.now) }
    ensures room { HasRoom result (length text.now - count) }
{
    place_behind(place, front(text, count))
}

/// Reads the text token by token, each as `ReadsFrom` has it.
fn read_tokens(alloc: Global, text: &[u8], library: bool) -> Result<Vec<Datum>, ReadRefusal>
    requires { length text.now ≤ 4194304 }
    ensures { Reads library text.now (shown (λ items_read. map view items_read.items) result) }
{
    let mut state = Open {
        finished: Vec::new(alloc),
        frames: Stack::new(alloc),
    };
    let mut place = Place {
        library,
        line: 1,
        column: 1,
    };
    let mut rest = text;
    loop {
        let count = blanks(rest);
        let start = pass(place, rest, count);
        let tokens = behind(rest, count);
        if tokens.is_empty() {
            return finish(state);
        }
        match take_token(alloc, &mut state, start, tokens) {
            Ok(size) => {
                place = pass(start, tokens, size);
                rest = behind(tokens, size);
            }
            Err(refusal) => return Err(refusal),
        }
    }
}

/// The data that the text spells, or its first refusal, or `NoMemory`. `library` says whose places they have. At most
/// 4,194,304 bytes are read.
pub fn read_all(alloc: Global, text: &[u8], library: bool) -> Result<Vec<Datum>, ReadRefusal>
    requires { length text.now ≤ 4194304 }
    ensures found { IfOk result (λ items_read. IsText library text.now (map view items_read.items)) }
    ensures refused { IfErr result (λ e. RefusedAs library text.now e) }
    ensures kept { IfOk result (λ items_read. All (λ d. IsRead 256 d) (map view items_read.items)) }
{
    read_tokens(alloc, text, library)
}
