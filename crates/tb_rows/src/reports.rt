//! Reports of runs: the words that a run holds, behind every so many events.
use super::tests::{NO_FAULTS, World, called_in};
use std::alloc::Global;
use std::test::Fail;

/// A program with the words of its heap, the most steps and how many events a line is for, and its report, line and status.
#[derive(Drop)]
struct Row<'a> {
    text: &'a [u8],
    limits: [&'a str; 3],
    out: &'a [u8],
    diag: &'a [u8],
    status: u8,
}

/// A program that is reported so and ends.
fn reports<'a>(text: &'a [u8], limits: [&'a str; 3], out: &'a [u8]) -> Row<'a> {
    stops(text, limits, out, b"", 0)
}

/// A program that is reported so and stops so.
fn stops<'a>(
    text: &'a [u8],
    limits: [&'a str; 3],
    out: &'a [u8],
    diag: &'a [u8],
    status: u8,
) -> Row<'a> {
    Row {
        text,
        limits,
        out,
        diag,
        status,
    }
}

fn holds(alloc: Global, row: &Row) -> Result<bool, Fail> {
    let words = [
        "space",
        "mac",
        "a.scm",
        row.limits[0],
        row.limits[1],
        row.limits[2],
    ];
    let outcome = called_in(alloc, &words, row.text, NO_FAULTS)?;
    Ok(
        outcome.status == row.status
            && outcome.out.held() == row.out
            && outcome.diag.held() == row.diag,
    )
}

const DEEP: &[u8] = b"(define (d n) (if (= n 0) 0 (+ 1 (d (- n 1)))))(d 100000)";

#[test]
fn words_by_hand(rt: HostRuntime) -> Result<(), Fail> {
    let rows = [
        // 17 registers, and a frame of two words and no slot; no slot is wanted, so K is 4 * 16
        reports(
            b"(write-char #\\a)(write-char #\\b)",
            ["4096", "100", "1"],
            b"1 19\n2 19\npeak 19 64\n",
        ),
        // further two words for a global and its padding, and two for the pair
        reports(
            b"(define p (cons 1 2))(write-char #\\a)",
            ["4096", "100", "1"],
            b"1 23\npeak 23 68\n",
        ),
        // a pair that is dropped is not counted
        reports(
            b"(define p (cons 1 2))(write-char #\\a)(set! p 1)(write-char #\\b)",
            ["4096", "100", "1"],
            b"1 23\n2 21\npeak 23 68\n",
        ),
        // at the last entry of `d` 99,999 frames of five slots, one of one slot for the form, a global and a procedure; two of
        // the frames of `d` are left at event 200,000
        reports(
            DEEP,
            ["4194304", "100000000", "100000"],
            b"100000 700017\n200000 38\npeak 700017 84\n",
        ),
        // fewer events than a line is for
        reports(b"(write-char #\\a)", ["4096", "100", "2"], b"peak 0 64\n"),
        // a run that fails, is full, and has too few steps
        stops(
            b"(write-char #\\a)(car '())",
            ["4096", "100", "1"],
            b"1 19\npeak 19 64\n",
            b"failed 3 1:17\n",
            6,
        ),
        stops(
            DEEP,
            ["4096", "100000000", "100000"],
            b"peak 0 84\n",
            b"full 4 5 7\n",
            7,
        ),
        stops(
            b"(define (l n) (l n))(l 1)",
            ["4096", "1000", "1000000"],
            b"peak 0 72\n",
            b"",
            8,
        ),
    ];
    for row in &rows {
        assert_eq!(rt; holds(rt.alloc(), row)?, true);
    }
    Ok(())
}

/// A line of a report is put in four pieces. Where a piece is not put, those before it stay.
#[test]
fn lines_that_are_lost(rt: HostRuntime) -> Result<(), Fail> {
    let words = ["space", "mac", "a.scm", "4096", "100", "1"];
    let world = World {
        out_fails: &[4],
        ..NO_FAULTS
    };
    let outcome = called_in(
        rt.alloc(),
        &words,
        b"(write-char #\\a)(write-char #\\b)",
        world,
    )?;
    assert_eq!(rt; outcome.status, 4);
    assert_eq!(rt; outcome.out.held(), b"1 19\n".as_slice());
    Ok(())
}

/// The numbers of a report, in their order.
fn numbers(alloc: Global, report: &[u8]) -> Result<Vec<u64>, Fail> {
    let mut numbers = Vec::new(alloc);
    let mut inside = false;
    let mut number: u64 = 0;
    for byte in report {
        if byte.is_ascii_digit() {
            number = number
                .wrapping_mul(10)
                .wrapping_add(u64::from(byte.wrapping_sub(b'0')));
            inside = true;
        } else if inside {
            numbers.push(number)?;
            number = 0;
            inside = false;
        }
    }
    Ok(numbers)
}

/// Whether a program that makes a list of so many words and needs it no longer from some event before the 20,000th on is
/// reported so: at least these words at event 10,000, and at most 100 at 20,000 and 30,000.
fn is_let_go(alloc: Global, text: &[u8], least: u64) -> Result<bool, Fail> {
    let words = ["space", "mac", "a.scm", "1000000", "1000000000", "10000"];
    let outcome = called_in(alloc, &words, text, NO_FAULTS)?;
    let report = numbers(alloc, outcome.out.held())?;
    Ok(match report.as_slice() {
        [10000, first, 20000, second, 30000, third, peak, _factor] => {
            outcome.status == 0
                && *first >= least
                && *second <= 100
                && *third <= 100
                && peak == first
        }
        _ => false,
    })
}

#[test]
fn lists_that_are_let_go(rt: HostRuntime) -> Result<(), Fail> {
    // a list that only one branch needs
    let one_branch = b"(define (make n l) (if (= n 0) l (make (- n 1) (cons n l))))
(define (go n)
  (let ((big (make 10000 '())))
    (letrec ((f (lambda (k) (if (= k 0) 0 (f (- k 1)))))
             (g (lambda () (car big))))
      (write-char #\\a)
      (if (= n 0) (g) (f n)))))
(go 20000)";
    assert_eq!(rt; is_let_go(rt.alloc(), one_branch, 19_996)?, true);
    // a list that a procedure needs no longer
    let captured = b"(define (build n l) (if (= n 0) l (build (- n 1) (cons n l))))
(define (wait n) (if (= n 0) 0 (wait (- n 1))))
(define (make v k) (lambda () (let ((x (car v))) (wait 20000) (+ x k))))
((make (build 10000 '()) 7))";
    assert_eq!(rt; is_let_go(rt.alloc(), captured, 19_998)?, true);
    Ok(())
}
