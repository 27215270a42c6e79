use super::answers::answer;
use std::alloc::Global;
use std::test::Fail;

/// The piece so many times, and then the end.
fn repeated(alloc: Global, piece: &[u8], count: usize, end: &[u8]) -> Result<Vec<u8>, Fail> {
    let mut text = Vec::new(alloc);
    for _ in 0..count {
        text.extend_from_slice(piece)?;
    }
    text.extend_from_slice(end)?;
    Ok(text)
}

/// The answer to the piece so many times, and then the end.
fn answer_to(alloc: Global, piece: &[u8], count: usize, end: &[u8]) -> Result<Vec<u8>, Fail> {
    let text = repeated(alloc, piece, count, end)?;
    answer(alloc, text.as_slice())
}

#[test]
fn levels(rt: HostRuntime) -> Result<(), Fail> {
    let alloc = rt.alloc();
    for (piece, count, end, want) in [
        (
            b"(".as_slice(),
            257,
            b"".as_slice(),
            b"TooDeep 1:257".as_slice(),
        ),
        (b"(", 256, b"", b"Unclosed 1:256"),
        (b"#(", 257, b"", b"TooDeep 1:513"),
        (b"'", 257, b"a", b"TooDeep 1:257"),
        (b"'", 257, b" ;", b"Syntax 1:257"),
        (b"'", 256, b"", b"Syntax 1:256"),
        (b"(", 256, b"'a", b"TooDeep 1:257"),
        (b"(", 256, b"#\\x a)", b"Unclosed 1:255"),
    ] {
        assert_eq!(rt;
            answer_to(alloc, piece, count, end)?.as_slice(),
            want,
            "{count}"
        );
    }
    Ok(())
}

#[test]
fn deepest_list(rt: HostRuntime) -> Result<(), Fail> {
    let alloc = rt.alloc();
    let closing = repeated(alloc, b")", 256, b"")?;
    let text = repeated(alloc, b"(", 256, closing.as_slice())?;
    assert!(rt; answer(alloc, text.as_slice())? == text);
    Ok(())
}

#[test]
fn lengths(rt: HostRuntime) -> Result<(), Fail> {
    let alloc = rt.alloc();
    let name = repeated(alloc, b"a", 255, b"")?;
    assert!(rt; answer(alloc, name.as_slice())? == name);
    assert_eq!(rt;
        answer_to(alloc, b"a", 256, b"")?.as_slice(),
        b"TooLong 1:1".as_slice()
    );
    let inside = repeated(alloc, b"b", 65_535, b"\"")?;
    let string = repeated(alloc, b"\"", 1, inside.as_slice())?;
    assert!(rt; answer(alloc, string.as_slice())? == string);
    let longer = repeated(alloc, b"\"b", 1, inside.as_slice())?;
    assert_eq!(rt;
        answer(alloc, longer.as_slice())?.as_slice(),
        b"TooLong 1:1".as_slice()
    );
    Ok(())
}
