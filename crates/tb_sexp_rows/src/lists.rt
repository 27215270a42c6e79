use super::answers::{Row, first_wrong};
use std::test::Fail;

#[test]
fn lists(rt: HostRuntime) -> Result<(), Fail> {
    let rows: &[Row<'_>] = &[
        (b"() ( ) (a b (c))", b"() () (a b (c))"),
        (b"(a . b) (a b . 1)", b"(a . b) (a b . 1)"),
        (b"(a . (b c)) (a . ())", b"(a b c) (a)"),
        (b"(a . (b . c)) (a . (b . (c)))", b"(a b . c) (a b c)"),
        (b"(a . #(b)) (a. b)", b"(a . #(b)) (a. b)"),
        (b"(A . (b \"x\\\"\" #\\space))", b"(a b \"x\\\"\" #\\space)"),
        (b")", b"Syntax 1:1"),
        (b"1 ) 2", b"Syntax 1:3"),
        (b"(a", b"Unclosed 1:1"),
        (b"(a (b) #(c", b"Unclosed 1:8"),
        (b"((a)", b"Unclosed 1:1"),
    ];
    assert_eq!(rt; first_wrong(rt.alloc(), rows)?, None);
    Ok(())
}

#[test]
fn dots(rt: HostRuntime) -> Result<(), Fail> {
    let rows: &[Row<'_>] = &[
        (b".", b"Syntax 1:1"),
        (b"a . b", b"Syntax 1:3"),
        (b"( . a)", b"Syntax 1:3"),
        (b"(f . )", b"Syntax 1:6"),
        (b"(a .b)", b"Syntax 1:4"),
        (b"(a . b c)", b"Syntax 1:8"),
        (b"(a . b . c)", b"Syntax 1:8"),
        (b"(a . b 'c)", b"Syntax 1:8"),
        (b"(a . b 536870912)", b"Syntax 1:8"),
        (b"(a . b \"c", b"Syntax 1:8"),
        (b"(a . b", b"Unclosed 1:1"),
        (b"(a .", b"Unclosed 1:1"),
    ];
    assert_eq!(rt; first_wrong(rt.alloc(), rows)?, None);
    Ok(())
}

#[test]
fn vectors_and_marks(rt: HostRuntime) -> Result<(), Fail> {
    let rows: &[Row<'_>] = &[
        (b"#() #(1 #(2) (3))", b"#() #(1 #(2) (3))"),
        (b"#(a . b)", b"Syntax 1:5"),
        (b"# (a)", b"Syntax 1:1"),
        (b"'() ' a ''a", b"(quote ()) (quote a) (quote (quote a))"),
        (
            b"`(a ,@b ,c)",
            b"(quasiquote (a (unquote-splicing b) (unquote c)))",
        ),
        (b"(a . 'b)", b"(a quote b)"),
        (b", @a", b"Syntax 1:3"),
        (b"(a ')", b"Syntax 1:5"),
        (b"(a ' . b)", b"Syntax 1:6"),
        (b"( ,@", b"Syntax 1:3"),
        (b"'' ;a", b"Syntax 1:2"),
    ];
    assert_eq!(rt; first_wrong(rt.alloc(), rows)?, None);
    Ok(())
}
