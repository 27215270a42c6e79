//! Programs of the core language, with what they put and how they end.
use super::tests::{NO_FAULTS, World, called_in};
use std::alloc::Global;
use std::test::Fail;

/// A program with its input, and its output, line and status in a heap of 65,536 words.
#[derive(Drop)]
pub(super) struct Row<'a> {
    text: &'a [u8],
    input: &'a [u8],
    out: &'a [u8],
    diag: &'a [u8],
    status: u8,
}

/// A program that puts this and ends.
fn puts<'a>(text: &'a [u8], out: &'a [u8]) -> Row<'a> {
    Row {
        text,
        input: b"",
        out,
        diag: b"",
        status: 0,
    }
}

/// A program that puts this and fails with this line.
fn fails<'a>(text: &'a [u8], out: &'a [u8], diag: &'a [u8]) -> Row<'a> {
    Row {
        text,
        input: b"",
        out,
        diag,
        status: 6,
    }
}

/// A program that puts this where it has this input.
pub(super) fn reads<'a>(text: &'a [u8], input: &'a [u8], out: &'a [u8]) -> Row<'a> {
    Row {
        text,
        input,
        out,
        diag: b"",
        status: 0,
    }
}

/// Whether the program puts, says and ends as its row says.
pub(super) fn holds(alloc: Global, row: &Row) -> Result<bool, Fail> {
    let go = ["go", "mac", "a.scm", "65536", "100000000"];
    let world = World {
        input: row.input,
        ..NO_FAULTS
    };
    let outcome = called_in(alloc, &go, row.text, world)?;
    Ok(
        outcome.status == row.status
            && outcome.out.held() == row.out
            && outcome.diag.held() == row.diag,
    )
}

#[test]
fn procedures(rt: HostRuntime) -> Result<(), Fail> {
    let rows = [
        puts(b"((lambda (x) (write-char x)) #\\a)", b"a"),
        puts(b"(define (f x) (write-char x)) (f #\\a) (f #\\b)", b"ab"),
        puts(
            b"(define f (let ((n 0)) (lambda () (set! n (+ n 1)) n))) (f) (if (= (f) 2) (write-char #\\y) 1)",
            b"y",
        ),
        puts(
            b"(let ((c 0)) ((lambda () (set! c 1) (if (= c 1) (write-char #\\k)))))",
            b"k",
        ),
        puts(
            b"(define (loop n) (if (= n 0) (write-char #\\e) (loop (- n 1)))) (loop 1000000)",
            b"e",
        ),
        puts(
            b"(define (even n) (if (= n 0) #t (odd (- n 1)))) (define (odd n) (if (= n 0) #f (even (- n 1)))) (if (even 1000) (write-char #\\y) 1)",
            b"y",
        ),
        puts(
            b"(letrec ((e (lambda (n) (if (= n 0) #t (o (- n 1))))) (o (lambda (n) (if (= n 0) #f (e (- n 1)))))) (if (e 11) 1 (write-char #\\n)))",
            b"n",
        ),
        puts(
            b"(define (f) (define (g x) (h x)) (define (h x) (write-char x)) (g #\\i)) (f)",
            b"i",
        ),
        puts(
            b"(define (f . r) (write-char (if (null? r) #\\0 (car r)))) (f) (f #\\1) (f #\\2 #\\3)",
            b"012",
        ),
        puts(
            b"(define (f a . r) (write-char (if (null? r) a (car r)))) (f #\\a) (f #\\a #\\b)",
            b"ab",
        ),
        puts(
            b"(define (f . r) (write-char (car r))) (apply f '(#\\a #\\b #\\c #\\d #\\e #\\f #\\g #\\h #\\i #\\j #\\k #\\l))",
            b"a",
        ),
        puts(
            b"(let ((p (lambda (x) x))) (let ((v (cons p 1))) (if (eq? p (car v)) (write-char #\\t) (write-char #\\f))))",
            b"t",
        ),
        fails(b"((lambda (x) x))", b"", b"failed 2 1:2\n"),
        fails(b"((lambda (x . y) x))", b"", b"failed 2 1:2\n"),
        fails(b"(write-char #\\a)(1 2)", b"a", b"failed 1 1:17\n"),
        fails(b"(write-char #\\a)(car '())", b"a", b"failed 3 1:17\n"),
        fails(b"(letrec ((x (+ x 1))) x)", b"", b"failed 7 1:16\n"),
        fails(b"(write-char x) (define x #\\a)", b"", b"failed 7 1:13\n"),
        fails(b"(set! x 1)", b"", b"failed 7 1:1\n"),
        fails(
            b"(define (f . r) (write-char #\\z))\n(apply f '(1))\n(apply f '(1 2 3 4 5 6 7 8 9 10 11 12 13))",
            b"z",
            b"failed 8 3:1\n",
        ),
        fails(b"(apply (lambda (x) x) 1)", b"", b"failed 3 1:1\n"),
    ];
    for row in &rows {
        assert_eq!(rt; holds(rt.alloc(), row)?, true);
    }
    Ok(())
}

#[test]
fn primitives(rt: HostRuntime) -> Result<(), Fail> {
    let rows = [
        puts(
            b"(let ((p (cons #\\a #\\b))) (write-char (car p)) (write-char (cdr p)) (set-car! p #\\c) (set-cdr! p #\\d) (write-char (car p)) (write-char (cdr p)))",
            b"abcd",
        ),
        puts(
            b"(define (t x) (write-char (if x #\\1 #\\0))) (t (pair? '(1))) (t (pair? '())) (t (null? '())) (t (null? 1)) (t (not #f)) (t (not 0))",
            b"101010",
        ),
        puts(
            b"(define (t x) (write-char (if x #\\1 #\\0))) (t (boolean? #f)) (t (boolean? '())) (t (symbol? 'a)) (t (symbol? \"a\")) (t (char? #\\a)) (t (char? 1)) (t (string? \"a\")) (t (string? 'a)) (t (vector? '#(1))) (t (vector? '(1)))",
            b"1010101010",
        ),
        puts(
            b"(define (t x) (write-char (if x #\\1 #\\0))) (t (procedure? t)) (t (procedure? 1)) (t (integer? 1)) (t (integer? #\\a)) (t (eof-object? (read-char))) (t (eof-object? 1)) (t (eq? 'a 'a)) (t (eq? '(1) '(1)))",
            b"10101010",
        ),
        puts(
            b"(define (t x) (write-char (if x #\\1 #\\0))) (t (= (* 6 7) 42)) (t (= (quotient -7 2) -3)) (t (= (remainder -7 2) -1)) (t (= (modulo -7 2) 1)) (t (> 2 1)) (t (<= 2 2)) (t (>= 1 2)) (t (< 2 2))",
            b"11111100",
        ),
        puts(
            b"(write-char (integer->char (+ 1 (char->integer #\\a))))",
            b"b",
        ),
        puts(
            b"(write-char (vector-ref '#(#\\a #\\b) 1)) (write-char (string-ref \"xyz\" 2))",
            b"bz",
        ),
        reads(
            b"(write-char (peek-char)) (write-char (read-char)) (write-char (read-char)) (if (eof-object? (peek-char)) (if (eof-object? (read-char)) (write-char #\\.) 1) 1)",
            b"pq",
            b"ppq.",
        ),
        fails(b"(+ 536870911 1)", b"", b"failed 4 1:1\n"),
        fails(b"(- -536870912 1)", b"", b"failed 4 1:1\n"),
        fails(b"(* 536870911 2)", b"", b"failed 4 1:1\n"),
        fails(b"(quotient -536870912 -1)", b"", b"failed 4 1:1\n"),
        fails(b"(quotient 1 0)", b"", b"failed 6 1:1\n"),
        fails(b"(remainder 1 0)", b"", b"failed 6 1:1\n"),
        fails(b"(modulo 1 0)", b"", b"failed 6 1:1\n"),
        fails(b"(vector-ref '#(1 2) 2)", b"", b"failed 5 1:1\n"),
        fails(b"(vector-ref '#(1 2) -1)", b"", b"failed 5 1:1\n"),
        fails(b"(string-ref \"ab\" 2)", b"", b"failed 5 1:1\n"),
        fails(b"(integer->char 256)", b"", b"failed 5 1:1\n"),
        fails(b"(set-car! '() 1)", b"", b"failed 3 1:1\n"),
        fails(b"(cdr 1)", b"", b"failed 3 1:1\n"),
        fails(b"(vector-length \"a\")", b"", b"failed 3 1:1\n"),
        fails(b"(string-length '#())", b"", b"failed 3 1:1\n"),
        fails(b"(char->integer 1)", b"", b"failed 3 1:1\n"),
        fails(b"(< 1 #\\a)", b"", b"failed 3 1:1\n"),
        fails(b"(write-char 5)", b"", b"failed 3 1:1\n"),
    ];
    for row in &rows {
        assert_eq!(rt; holds(rt.alloc(), row)?, true);
    }
    Ok(())
}

#[test]
fn heaps_that_are_full(rt: HostRuntime) -> Result<(), Fail> {
    let deep = b"(define (d n) (if (= n 0) 0 (+ 1 (d (- n 1)))))(d 100000)";
    let small = called_in(
        rt.alloc(),
        &["go", "mac", "a.scm", "4096", "100000000"],
        deep,
        NO_FAULTS,
    )?;
    assert_eq!(rt; small.status, 7);
    assert_eq!(rt; small.diag.held().starts_with(b"full "), true);
    let large = called_in(
        rt.alloc(),
        &["go", "mac", "a.scm", "4194304", "100000000"],
        deep,
        NO_FAULTS,
    )?;
    assert_eq!(rt; large.status, 0);
    // A string of 5,000 characters takes 1,251 words and one of padding.
    let mut text = Vec::from_slice(rt.alloc(), b"(write-char (string-ref \"")?;
    for _ in 0..5000 {
        text.push(b'a')?;
    }
    text.extend_from_slice(b"\" 0))")?;
    let unloaded = called_in(
        rt.alloc(),
        &["go", "mac", "a.scm", "1024", "1000"],
        text.as_slice(),
        NO_FAULTS,
    )?;
    assert_eq!(rt; unloaded.status, 7);
    assert_eq!(rt; unloaded.diag.held(), b"full 1252 1024 64\n".as_slice());
    Ok(())
}

#[test]
fn inputs(rt: HostRuntime) -> Result<(), Fail> {
    let go = ["go", "mac", "a.scm", "4096", "1000"];
    let failing = World {
        input: b"x",
        input_fails: &[0],
        ..NO_FAULTS
    };
    assert_eq!(rt;
        called_in(rt.alloc(), &go, b"(read-char)", failing)?.status,
        3
    );
    assert_eq!(rt; called_in(rt.alloc(), &go, b"(if)", failing)?.status, 1);
    let longest = vec![in rt.alloc(); b'a'; 16_777_216]?;
    let fits = World {
        input: longest.as_slice(),
        ..NO_FAULTS
    };
    assert_eq!(rt;
        called_in(rt.alloc(), &go, b"(write-char (read-char))", fits)?.status,
        0
    );
    let longer = vec![in rt.alloc(); b'a'; 16_777_217]?;
    let too_long = World {
        input: longer.as_slice(),
        ..NO_FAULTS
    };
    assert_eq!(rt;
        called_in(rt.alloc(), &go, b"(write-char (read-char))", too_long)?.status,
        11
    );
    Ok(())
}
