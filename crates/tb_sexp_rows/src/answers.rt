use std::alloc::Global;
use std::test::Fail;
use tb_sexp::{Datum, ReadRefusal, print_datum, read_all};

/// The most bytes of a text.
const TEXT_BYTES: usize = 4_194_304;

/// A text and its answer.
pub type Row<'a> = (&'a [u8], &'a [u8]);

/// The printed data, with a space between them.
fn printed(alloc: Global, data: &[Datum]) -> Result<Vec<u8>, Fail> {
    let mut out = Vec::new(alloc);
    for datum in data {
        if !out.is_empty() {
            out.push(b' ')?;
        }
        let text = print_datum(alloc, datum)?;
        out.extend_from_slice(text.as_slice())?;
    }
    Ok(out)
}

/// The name of the refusal and its place.
fn refused(alloc: Global, refusal: ReadRefusal) -> Result<Vec<u8>, Fail> {
    let (kind, place) = match refusal {
        ReadRefusal::Syntax(place) => ("Syntax", place),
        ReadRefusal::Unclosed(place) => ("Unclosed", place),
        ReadRefusal::TooDeep(place) => ("TooDeep", place),
        ReadRefusal::TooLong(place) => ("TooLong", place),
        ReadRefusal::TooBig(place) => ("TooBig", place),
        ReadRefusal::NoMemory => return Ok(Vec::new(alloc)),
    };
    let text = format!(in alloc; "{kind} {}:{}", place.line, place.column)?;
    Ok(text.into_bytes())
}

/// What reading answers to the text: its data printed, or its refusal.
pub fn answer(alloc: Global, text: &[u8]) -> Result<Vec<u8>, Fail> {
    if text.len() > TEXT_BYTES {
        return Ok(Vec::new(alloc));
    }
    match read_all(alloc, text, false) {
        Ok(data) => printed(alloc, data.as_slice()),
        Err(refusal) => refused(alloc, refusal),
    }
}

/// The number of the first row whose text has another answer.
pub fn first_wrong(alloc: Global, rows: &[Row<'_>]) -> Result<Option<usize>, Fail> {
    for (index, (text, want)) in rows.iter().enumerate() {
        if answer(alloc, text)?.as_slice() != *want {
            return Ok(Some(index));
        }
    }
    Ok(None)
}
