use super::answers::{Row, first_wrong};
use std::test::Fail;

#[test]
fn numbers(rt: HostRuntime) -> Result<(), Fail> {
    let rows: &[Row<'_>] = &[
        (b"1 -1 +1 007 -0", b"1 -1 1 7 0"),
        (b"#b101 #B-11 #o17 #O+7", b"5 -3 15 7"),
        (b"#d19 #D-0 #xFf #X-1a", b"19 0 255 -26"),
        (b"536870911 -536870912", b"536870911 -536870912"),
        (b"000000000000000000001", b"1"),
        (b"536870912", b"TooBig 1:1"),
        (b"-536870913", b"TooBig 1:1"),
        (b"a #x20000000", b"TooBig 1:3"),
        (b"1+", b"Syntax 1:1"),
        (b"--1", b"Syntax 1:1"),
        (b"#b2", b"Syntax 1:1"),
        (b"#xg", b"Syntax 1:1"),
        (b"#x", b"Syntax 1:1"),
        (b"#", b"Syntax 1:1"),
    ];
    assert_eq!(rt; first_wrong(rt.alloc(), rows)?, None);
    Ok(())
}

#[test]
fn names(rt: HostRuntime) -> Result<(), Fail> {
    let rows: &[Row<'_>] = &[
        (b"+ - ...", b"+ - ..."),
        (b"aBc x->Y", b"abc x->y"),
        (b"!$%&*/:<=>?^_~", b"!$%&*/:<=>?^_~"),
        (b"a1+-.@ a.b", b"a1+-.@ a.b"),
        (b"a\"b\" c;d", b"a \"b\" c"),
        (b"a(b)1", b"a (b) 1"),
        (b".5", b"Syntax 1:1"),
        (b"x ..", b"Syntax 1:3"),
        (b"....", b"Syntax 1:1"),
        (b"-a", b"Syntax 1:1"),
        (b"@a", b"Syntax 1:1"),
        (b"a'b", b"Syntax 1:1"),
        (b"a#b", b"Syntax 1:1"),
        (b"[a]", b"Syntax 1:1"),
    ];
    assert_eq!(rt; first_wrong(rt.alloc(), rows)?, None);
    Ok(())
}

#[test]
fn truths_and_characters(rt: HostRuntime) -> Result<(), Fail> {
    let rows: &[Row<'_>] = &[
        (b"#t #T #f #F", b"#t #t #f #f"),
        (b"#t1", b"Syntax 1:1"),
        (b"#\\a #\\A #\\1 #\\t", b"#\\a #\\A #\\1 #\\t"),
        (b"#\\( #\\; #\\\"", b"#\\( #\\; #\\\""),
        (b"#\\space #\\SPACE #\\  a", b"#\\space #\\space #\\space a"),
        (
            b"#\\newline #\\NewLine #\\\n",
            b"#\\newline #\\newline #\\newline",
        ),
        (b"#\\\xc8", b"#\\\xc8"),
        (b"#\\()", b"Syntax 1:4"),
        (b"#\\spac", b"Syntax 1:1"),
        (b"#\\ab", b"Syntax 1:1"),
        (b"#\\", b"Syntax 1:1"),
        (b"#\\\xc8\xc8", b"Syntax 1:1"),
    ];
    assert_eq!(rt; first_wrong(rt.alloc(), rows)?, None);
    Ok(())
}

#[test]
fn strings(rt: HostRuntime) -> Result<(), Fail> {
    let rows: &[Row<'_>] = &[
        (b"\"\" \"a b;(C)\"", b"\"\" \"a b;(C)\""),
        (b"\"\\\"\\\\\"", b"\"\\\"\\\\\""),
        (b"\"\\n\\t\"", b"\"\n\t\""),
        (b"\"\n\t\xff\x80\"", b"\"\n\t\xff\x80\""),
        (b"\"a\"b", b"\"a\" b"),
        (b"\"ab\\q\"", b"Syntax 1:4"),
        (b"\"a\n\\N\"", b"Syntax 2:1"),
        (b"\"ab", b"Unclosed 1:1"),
        (b"\"ab\\", b"Unclosed 1:1"),
        (b"(display \"ab", b"Unclosed 1:10"),
        (b"\"a\n\" )", b"Syntax 2:3"),
    ];
    assert_eq!(rt; first_wrong(rt.alloc(), rows)?, None);
    Ok(())
}
