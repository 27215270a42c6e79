use std::alloc::Global;
use std::test::Fail;
use tb_base::{MemSink, MemSource, MemStore, Store};
use tb_twobit::{CompileRefusal, RefusalKind, compile, twobit};

/// What a call gave.
#[derive(Drop)]
pub(super) struct Outcome {
    pub out: MemSink,
    pub diag: MemSink,
    pub status: u8,
}

/// The objects in memory of a call: what the input holds, and which calls of each fail.
#[derive(Clone, Copy)]
pub(super) struct World<'a> {
    pub input: &'a [u8],
    pub store_fails: &'a [u64],
    pub input_fails: &'a [u64],
    pub out_fails: &'a [u64],
}

pub(super) const NO_FAULTS: World<'static> = World {
    input: b"",
    store_fails: &[],
    input_fails: &[],
    out_fails: &[],
};

/// The call over objects in memory, of which the calls with these numbers fail. The text is saved by call 0
/// of the store.
pub(super) fn called_in(
    alloc: Global,
    words: &[&str],
    text: &[u8],
    world: World,
) -> Result<Outcome, Fail> {
    let mut store = MemStore::new(alloc, world.store_fails)?;
    store.save(alloc, "a.scm", text)?;
    let mut input = MemSource::new(alloc, world.input, world.input_fails)?;
    let mut out = MemSink::new(alloc, 4096, world.out_fails)?;
    let mut diag = MemSink::new(alloc, 4096, &[])?;
    let status = twobit(alloc, words, &mut store, &mut input, &mut out, &mut diag);
    Ok(Outcome { out, diag, status })
}

/// The same with an empty input.
fn called<'a>(
    alloc: Global,
    words: &[&str],
    text: &[u8],
    store_fails: &'a [u64],
    out_fails: &'a [u64],
) -> Result<Outcome, Fail> {
    let world = World {
        store_fails,
        out_fails,
        ..NO_FAULTS
    };
    called_in(alloc, words, text, world)
}

/// A text, and what its run is to give: output, line and status.
#[derive(Drop)]
struct Run<'a> {
    text: &'a [u8],
    out: &'a [u8],
    diag: &'a [u8],
    status: u8,
}

/// Runs the text with heap and steps enough, and compares.
fn check_run(alloc: Global, run: &Run) -> Result<bool, Fail> {
    let go = ["go", "mac", "a.scm", "4096", "100000"];
    let outcome = called(alloc, &go, run.text, &[], &[])?;
    Ok(
        outcome.status == run.status
            && outcome.out.held() == run.out
            && outcome.diag.held() == run.diag,
    )
}

#[test]
fn forms_run(rt: HostRuntime) -> Result<(), Fail> {
    let runs = [
        Run {
            text: b"",
            out: b"",
            diag: b"",
            status: 0,
        },
        Run {
            text: b"(write-char #\\a)",
            out: b"a",
            diag: b"",
            status: 0,
        },
        Run {
            text: b" ( write-char\n#\\space )\t(write-char #\\newline)(write-char #\\))",
            out: b" \n)",
            diag: b"",
            status: 0,
        },
        Run {
            text: b"(let ((a 5)(b 3)) (begin (write-char #\\x) (if #f (write-char #\\y) (write-char #\\n))))",
            out: b"xn",
            diag: b"",
            status: 0,
        },
        Run {
            text: b"(let ((a #\\o)) (begin (let ((a #\\i)) (write-char a)) (write-char a)))",
            out: b"io",
            diag: b"",
            status: 0,
        },
        // Operands that are not simple are evaluated in written order, and before those that are.
        Run {
            text: b"(let ((a (write-char #\\1)) (b 2) (c (write-char #\\3))) (if a 1 2))",
            out: b"13",
            diag: b"",
            status: 0,
        },
        // All values but #f are true.
        Run {
            text: b"(if 0 (write-char #\\y) (write-char #\\n)) (if #t (write-char #\\y) 1) (let () (write-char #\\z))",
            out: b"yyz",
            diag: b"",
            status: 0,
        },
        Run {
            text: b"; a comment\n(WRITE-CHAR #\\A) ; and another",
            out: b"A",
            diag: b"",
            status: 0,
        },
        Run {
            text: b"(write-char 5)",
            out: b"",
            diag: b"failed 3 1:1\n",
            status: 6,
        },
        Run {
            text: b"(write-char #\\x)\n (begin 1 (write-char #t) (write-char #\\y))",
            out: b"x",
            diag: b"failed 3 2:11\n",
            status: 6,
        },
    ];
    for run in &runs {
        assert_eq!(rt; check_run(rt.alloc(), run)?, true);
    }
    Ok(())
}

#[test]
fn sums_and_comparisons(rt: HostRuntime) -> Result<(), Fail> {
    let runs = [
        Run {
            text: b"(let ((a 5) (b 3)) (if (< b a) (write-char #\\y) (write-char #\\n)))",
            out: b"y",
            diag: b"",
            status: 0,
        },
        Run {
            text: b"(if (< 3 3) (write-char #\\y) (write-char #\\n)) (if (= (+ 1 2) (- 5 2)) (write-char #\\y) 1)",
            out: b"ny",
            diag: b"",
            status: 0,
        },
        Run {
            text: b"(if (< (- 2 3) 0) (write-char #\\y) (write-char #\\n))",
            out: b"y",
            diag: b"",
            status: 0,
        },
        Run {
            text: b"(+ 536870911 1)",
            out: b"",
            diag: b"failed 4 1:1\n",
            status: 6,
        },
        Run {
            text: b"(- -536870912 1)",
            out: b"",
            diag: b"failed 4 1:1\n",
            status: 6,
        },
        Run {
            text: b"(+ 1 #t)",
            out: b"",
            diag: b"failed 3 1:1\n",
            status: 6,
        },
        Run {
            text: b"(= 1 (+ 1 (< #\\a 1)))",
            out: b"",
            diag: b"failed 3 1:11\n",
            status: 6,
        },
        Run {
            text: b"(+ 536870910 1) (- -536870911 1)",
            out: b"",
            diag: b"",
            status: 0,
        },
    ];
    for run in &runs {
        assert_eq!(rt; check_run(rt.alloc(), run)?, true);
    }
    Ok(())
}

#[test]
fn refused_texts(rt: HostRuntime) -> Result<(), Fail> {
    let runs: [(&[u8], &[u8]); 27] = [
        (b"(write-char#\\a)", b"refused 101 1:2\n"),
        (b"1 ) 2", b"refused 101 1:3\n"),
        (b"(display \"ab", b"refused 102 1:10\n"),
        (b"(f . )", b"refused 101 1:6\n"),
        (b"536870912", b"refused 105 1:1\n"),
        (b"(if) )", b"refused 101 1:6\n"),
        (b"(if)", b"refused 106 1:1\n"),
        (b"1\n (begin 1 (if))", b"refused 106 2:11\n"),
        (b"()", b"refused 106 1:1\n"),
        (b"(quote)", b"refused 106 1:1\n"),
        (b"(lambda x)", b"refused 106 1:1\n"),
        (b"(lambda (1) 1)", b"refused 106 1:1\n"),
        (b"(let ((a)) a)", b"refused 106 1:1\n"),
        (b"(set! 1 2)", b"refused 106 1:1\n"),
        (b"(define ((f x) y) 1)", b"refused 106 1:1\n"),
        (
            b"(lambda (a b c d e f g h i j k l m) a)",
            b"refused 109 1:1\n",
        ),
        (b"(f 1 2 3 4 5 6 7 8 9 10 11 12 13)", b"refused 109 1:1\n"),
        (b"(define car 1)", b"refused 110 1:9\n"),
        (b"(set! cdr 1)", b"refused 110 1:7\n"),
        (b"(define if 1)", b"refused 110 1:9\n"),
        (b"(let ((a 1) (a 2)) a)", b"refused 112 1:14\n"),
        (b"(lambda (x y x) x)", b"refused 112 1:14\n"),
        (b"(letrec ((f 1) (f 2)) f)", b"refused 112 1:17\n"),
        (b"(cond (1 2))", b"refused 115 1:1\n"),
        (b"`(1 ,2)", b"refused 115 1:1\n"),
        (b"(let loop ((i 0)) (loop i))", b"refused 115 1:1\n"),
        (b"(if (if) (car))", b"refused 106 1:5\n"),
    ];
    for (text, line) in &runs {
        let run = Run {
            text,
            out: b"",
            diag: line,
            status: 1,
        };
        assert_eq!(rt; check_run(rt.alloc(), &run)?, true);
    }
    Ok(())
}

#[test]
fn words_and_steps(rt: HostRuntime) -> Result<(), Fail> {
    let rows: [(&[&str], u8); 19] = [
        (&[], 2),
        (&["go", "vax", "a.scm", "4096", "1"], 2),
        (&["go", "mac", "a.scm", "1023", "1"], 2),
        (&["go", "mac", "", "4096", "1"], 2),
        (&["go", "mac", "a.scm", "4096", "18446744073709551616"], 2),
        (&["go", "mac", "a.scm", "4096", "18446744073709551615"], 0),
        (&["go", "mac", "b.scm", "4096", "1"], 3),
        (&["go", "mac", "a.scm", "1024", "0"], 8),
        // Two steps for the frame, two for the form and one for the end.
        (&["go", "mac", "a.scm", "1024", "3"], 8),
        (&["go", "mac", "a.scm", "1024", "4"], 8),
        (&["go", "mac", "a.scm", "1024", "5"], 0),
        (&["go", "mac", "a.scm", "1024", "6"], 0),
        (&["go", "mac", "a.scm", "1024"], 2),
        (&["go", "mac", "a.scm", "1024", "6", "1"], 2),
        (&["space", "mac", "a.scm", "1024", "6"], 2),
        (&["space", "mac", "a.scm", "1024", "6", "0"], 2),
        (&["space", "mac", "a.scm", "1024", "4", "1"], 8),
        (
            &["space", "mac", "a.scm", "1024", "6", "18446744073709551615"],
            0,
        ),
        (
            &["space", "mac", "a.scm", "1024", "6", "18446744073709551616"],
            2,
        ),
    ];
    for (words, status) in &rows {
        let outcome = called(rt.alloc(), words, b"(write-char #\\a)", &[], &[])?;
        assert_eq!(rt; outcome.status, *status);
    }
    Ok(())
}

#[test]
fn faults_have_their_status(rt: HostRuntime) -> Result<(), Fail> {
    let go = ["go", "mac", "a.scm", "4096", "100000"];
    let load_fails = called(rt.alloc(), &go, b"(write-char #\\a)", &[1], &[])?;
    assert_eq!(rt; load_fails.status, 3);
    assert_eq!(rt; load_fails.out.held(), b"".as_slice());
    let put_fails = called(
        rt.alloc(),
        &go,
        b"(write-char #\\a)(write-char #\\b)",
        &[],
        &[1],
    )?;
    assert_eq!(rt; put_fails.status, 4);
    assert_eq!(rt; put_fails.out.held(), b"a".as_slice());
    // Each byte is one call of `put`, so that a third call does not come.
    let two_puts = called(
        rt.alloc(),
        &go,
        b"(write-char #\\a)(write-char #\\b)",
        &[],
        &[2],
    )?;
    assert_eq!(rt; two_puts.status, 0);
    Ok(())
}

#[test]
fn texts_are_compiled_or_refused(rt: HostRuntime) -> Result<(), Fail> {
    assert_eq!(rt; compile(rt.alloc(), b"(write-char #\\a)").is_ok(), true);
    let refused = match compile(rt.alloc(), b"(f . )") {
        Err(CompileRefusal::Refused(refusal)) => {
            refusal.kind == RefusalKind::Syntax && refusal.place.column == 6
        }
        Err(CompileRefusal::NoMemory) => false,
        Ok(_) => false,
    };
    assert_eq!(rt; refused, true);
    Ok(())
}

#[test]
fn long_files_are_refused(rt: HostRuntime) -> Result<(), Fail> {
    let go = ["go", "mac", "a.scm", "4096", "100000"];
    let longest = vec![in rt.alloc(); b' '; 4_194_304]?;
    assert_eq!(rt;
        called(rt.alloc(), &go, longest.as_slice(), &[], &[])?.status,
        0
    );
    let too_long = vec![in rt.alloc(); b' '; 4_194_305]?;
    assert_eq!(rt;
        called(rt.alloc(), &go, too_long.as_slice(), &[], &[])?.status,
        11
    );
    Ok(())
}

/// So many copies of a text, and then another.
fn repeated(alloc: Global, part: &[u8], count: usize, last: &[u8]) -> Result<Vec<u8>, Fail> {
    let mut text = Vec::new(alloc);
    for _ in 0..count {
        text.extend_from_slice(part)?;
    }
    text.extend_from_slice(last)?;
    Ok(text)
}

/// Whether the text that is so many copies of a part and another gives this line and status.
fn repeated_gives(
    alloc: Global,
    part: &[u8],
    count: usize,
    last: &[u8],
    line: &[u8],
    status: u8,
) -> Result<bool, Fail> {
    let go = ["go", "mac", "a.scm", "4096", "100000"];
    let text = repeated(alloc, part, count, last)?;
    let outcome = called(alloc, &go, text.as_slice(), &[], &[])?;
    Ok(outcome.status == status && outcome.diag.held() == line)
}

#[test]
fn limits_of_texts(rt: HostRuntime) -> Result<(), Fail> {
    let form = b"(write-char #\\x)";
    // A body of a thousand expressions is too wide.
    assert_eq!(rt;
        repeated_gives(rt.alloc(), b"(let ()", 1, b" 1)", b"", 0)?,
        true
    );
    let wide = repeated(rt.alloc(), b" 1", 1000, b")")?;
    assert_eq!(rt;
        repeated_gives(
            rt.alloc(),
            b"(let ()",
            1,
            wide.as_slice(),
            b"refused 111 1:1\n",
            1
        )?,
        true
    );
    // The sum of the squares is at its limit before the last form, whose parameters are judged before its width.
    let widths = [998, 218, 11];
    let mut parts = Vec::new(rt.alloc());
    for width in widths {
        let ones = repeated(rt.alloc(), b" 1", width, b")\n")?;
        parts.extend_from_slice(b"(let ()")?;
        parts.extend_from_slice(ones.as_slice())?;
    }
    assert_eq!(rt;
        repeated_gives(
            rt.alloc(),
            parts.as_slice(),
            1,
            b"(define x 1)\n1\n1\n1\n(lambda (a b c d e f g h i j k l m) a)",
            b"refused 109 8:1\n",
            1
        )?,
        true
    );
    // 256 brackets may be open.
    let closed = repeated(rt.alloc(), b")", 255, b"")?;
    let closed_more = repeated(rt.alloc(), b")", 256, b"")?;
    let inner = repeated(rt.alloc(), form, 1, closed.as_slice())?;
    let deep = repeated(rt.alloc(), form, 1, closed_more.as_slice())?;
    assert_eq!(rt;
        repeated_gives(rt.alloc(), b"(begin ", 255, inner.as_slice(), b"", 0)?,
        true
    );
    assert_eq!(rt;
        repeated_gives(
            rt.alloc(),
            b"(begin ",
            256,
            deep.as_slice(),
            b"refused 103 1:1793\n",
            1
        )?,
        true
    );
    assert_eq!(rt;
        repeated_gives(rt.alloc(), b"(", 257, b"", b"refused 103 1:257\n", 1)?,
        true
    );
    assert_eq!(rt;
        repeated_gives(rt.alloc(), b"a", 256, b"", b"refused 104 1:1\n", 1)?,
        true
    );
    Ok(())
}
