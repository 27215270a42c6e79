ghost use Rattle.std.specs.Prelude.{◌≡◌, ◌≤◌, length};
ghost use Rattle.std.specs.List.{list_all};
ghost use Rattle.tb_sexp.specs.Bytes as bytes;
ghost use Rattle.tb_sexp.specs.calls.Scanning as scanning;
ghost use Rattle.tb_sexp.specs.calls.Scanning.{HasRoom};
ghost use Rattle.tb_sexp.specs.Places.{behind, behind_all};

use tb_prim::Place;

fn is_whitespace(b: u8) -> bool
    ensures { result ≡ bytes.is_whitespace b }
{
    b" \t\n\r\x0c".contains(&b)
}

fn is_delimiter(b: u8) -> bool
    ensures { result ≡ bytes.is_delimiter b }
{
    is_whitespace(b) || b"()\";".contains(&b)
}

fn is_initial(b: u8) -> bool
    ensures { result ≡ bytes.is_initial b }
{
    b.is_ascii_alphabetic() || b"!$%&*/:<=>?^_~".contains(&b)
}

fn is_subsequent(b: u8) -> bool
    ensures { result ≡ bytes.is_subsequent b }
{
    is_initial(b) || b.is_ascii_digit() || b"+-.@".contains(&b)
}

fn is_word(run: &[u8]) -> bool
    ensures { result ≡ bytes.is_word run.now }
{
    match run {
        [] => false,
        [first, rest @ ..] => is_initial(*first) && are_subsequent(rest),
    }
}

fn are_subsequent(rest: &[u8]) -> bool
    ensures { result ≡ list_all bytes.is_subsequent rest.now }
{
    rest.iter().all(|b| is_subsequent(*b))
}

/// Whether the bytes are an identifier.
pub fn is_identifier(run: &[u8]) -> bool
    ensures { result ≡ bytes.is_identifier run.now }
{
    run == b"+".as_slice() || run == b"-".as_slice() || run == b"...".as_slice() || is_word(run)
}

/// How many bytes stand before the first delimiter.
pub fn run_length(text: &[u8]) -> usize
    ensures exact { result ≡ scanning.run_length text.now }
    ensures within { result ≤ length text.now }
{
    for (index, b) in text.iter().enumerate() {
        if is_delimiter(*b) {
            return index;
        }
    }
    text.len()
}

/// How many bytes of whitespace and comments stand in front.
pub fn blanks(text: &[u8]) -> usize
    ensures exact { result ≡ scanning.blanks text.now }
    ensures within { result ≤ length text.now }
{
    let mut in_comment = false;
    for (index, b) in text.iter().enumerate() {
        if in_comment || *b == b';' {
            in_comment = *b != b'\n';
        } else if !is_whitespace(*b) {
            return index;
        }
    }
    text.len()
}

fn behind_byte(place: Place, b: u8) -> Place
    requires { HasRoom place 1 }
    ensures { result ≡ behind place b }
{
    if b == b'\n' {
        Place {
            line: place.line + 1,
            column: 1,
            ..place
        }
    } else {
        Place {
            column: place.column + 1,
            ..place
        }
    }
}

/// The place behind the bytes.
pub fn place_behind(place: Place, passed: &[u8]) -> Place
    requires { HasRoom place (length passed.now) }
    ensures { result ≡ behind_all place passed.now }
{
    let mut now = place;
    for b in passed {
        now = behind_byte(now, *b);
    }
    now
}
