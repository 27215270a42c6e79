use super::answers::{Row, first_wrong};
use std::alloc::Global;
use std::test::Fail;
use tb_sexp::{Datum, Node, read_all};

#[test]
fn blanks(rt: HostRuntime) -> Result<(), Fail> {
    let rows: &[Row<'_>] = &[
        (b"", b""),
        (b" \t\n\r\x0c", b""),
        (b"1\t2\n3\r4\x0c5 6", b"1 2 3 4 5 6"),
        (b";a", b""),
        (b"1;a\n 2 ;(\xff\n;", b"1 2"),
        (b";a\r2", b""),
        (b"(;)\n)", b"()"),
        (b"1\x0b2", b"Syntax 1:1"),
        (b"\x00", b"Syntax 1:1"),
        (b"a \xff", b"Syntax 1:3"),
        (b"a\xe9", b"Syntax 1:1"),
    ];
    assert_eq!(rt; first_wrong(rt.alloc(), rows)?, None);
    Ok(())
}

#[test]
fn places_of_refusals(rt: HostRuntime) -> Result<(), Fail> {
    let rows: &[Row<'_>] = &[
        (b"\n\n )", b"Syntax 3:2"),
        (b";a\n)", b"Syntax 2:1"),
        (b"\t)", b"Syntax 1:2"),
        (b"\r)", b"Syntax 1:2"),
        (b"\"\xc3\xa9\")", b"Syntax 1:5"),
        (b"(\n (a)\n (b", b"Unclosed 3:2"),
        (b"(a\n'\n", b"Syntax 2:1"),
    ];
    assert_eq!(rt; first_wrong(rt.alloc(), rows)?, None);
    Ok(())
}

/// The elements of a list or a vector; other data have none.
fn elements(datum: &Datum) -> &[Datum] {
    match &datum.node {
        Node::List(row, _) => row.as_slice(),
        Node::Vector(row) => row.as_slice(),
        _ => &[],
    }
}

/// Where the data begin, each with a space behind it.
fn places(alloc: Global, data: &[Datum]) -> Result<String, Fail> {
    let mut out = String::new(alloc);
    for datum in data {
        let place = datum.place;
        let one = format!(in alloc; "{}:{} ", place.line, place.column)?;
        out.push_str(&one)?;
    }
    Ok(out)
}

/// Where the elements of each of the data begin, with a line for each.
fn inner_places(alloc: Global, data: &[Datum]) -> Result<String, Fail> {
    let mut out = String::new(alloc);
    for datum in data {
        let one = places(alloc, elements(datum))?;
        out.push_str(&one)?;
        out.push_str("\n")?;
    }
    Ok(out)
}

#[test]
fn places_of_data(rt: HostRuntime) -> Result<(), Fail> {
    let alloc = rt.alloc();
    let text = b" (a \"b\nc\" d . (e f))\n#(1)\n 'g";
    let Ok(data) = read_all(alloc, text, true) else {
        assert!(rt; false);
        return Ok(());
    };
    assert_eq!(rt; places(alloc, data.as_slice())?.as_str(), "1:2 3:1 4:2 ");
    assert_eq!(rt;
        inner_places(alloc, data.as_slice())?.as_str(),
        "1:3 1:5 2:4 2:9 2:11 \n3:3 \n4:2 4:3 \n"
    );
    Ok(())
}
