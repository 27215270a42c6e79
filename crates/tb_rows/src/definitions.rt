//! Which lambda expressions of texts are lifted, and which forms have rules of `syntax-rules`.
use std::alloc::Global;
use std::test::Fail;
use tb_expand::expand;
use tb_liftable::liftable;
use tb_rules::{RulesRefusal, compile_rules};
use tb_sexp::read_all;

/// Which lambda expressions of the text are lifted: of each its number, how many variables are added, and their numbers. None
/// where the text has no program, or there is no memory.
fn lifted_in(alloc: Global, text: &[u8]) -> Result<Option<Vec<u32>>, Fail> {
    let mut numbers = Vec::new(alloc);
    if text.len() > 1000 {
        return Ok(None);
    }
    let Ok(datums) = read_all(alloc, text, false) else {
        return Ok(None);
    };
    let Ok(program) = expand(alloc, datums.as_slice(), false) else {
        return Ok(None);
    };
    let Ok(set) = liftable(alloc, &program) else {
        return Ok(None);
    };
    for line in set.as_slice() {
        numbers.push(line.lambda)?;
        numbers.push(line.added.as_slice().len().min(1000) as u32)?;
        numbers.extend_from_slice(line.added.as_slice())?;
    }
    Ok(Some(numbers))
}

#[test]
fn lifted(rt: HostRuntime) -> Result<(), Fail> {
    let rows: [(&[u8], &[u32]); 4] = [
        // 11 parameters and one variable are 12
        (
            b"(let ((a 1)) (letrec ((h (lambda (b c d e f g i j k l m) a))) (h 1 2 3 4 5 6 7 8 9 10 11)))",
            &[0, 1, 0],
        ),
        (
            b"(let ((a 1)) (letrec ((h (lambda (b c d e f g i j k l m n) a))) (h 1 2 3 4 5 6 7 8 9 10 11 12)))",
            &[],
        ),
        // a procedure that is compared with itself is not only called
        (
            b"(let ((p (lambda (x) x)))
  (let ((v (cons p 1)))
    (if (eq? p (car v)) (write-char #\\t) (write-char #\\f))))",
            &[],
        ),
        // two procedures of a procedure, of which one names a variable
        (
            b"(define (make n l) (if (= n 0) l (make (- n 1) (cons n l))))
(define (go n)
  (let ((big (make 10000 '())))
    (letrec ((f (lambda (k) (if (= k 0) 0 (f (- k 1)))))
             (g (lambda () (car big))))
      (write-char #\\a)
      (if (= n 0) (g) (f n)))))
(go 20000)",
            &[2, 0, 3, 1, 3],
        ),
    ];
    for (text, wanted) in &rows {
        let numbers = lifted_in(rt.alloc(), text)?;
        assert_eq!(rt; numbers.is_some(), true);
        if let Some(numbers) = numbers {
            assert_eq!(rt; numbers.as_slice(), *wanted);
        }
    }
    Ok(())
}

/// What a form of `syntax-rules` comes to.
#[derive(Clone, Copy, Debug, PartialEq, Eq)]
enum Answer {
    Made,
    Bad,
    Vector,
    Nothing,
}

fn answer_to(alloc: Global, text: &[u8]) -> Answer {
    if text.len() > 1000 {
        return Answer::Nothing;
    }
    let Ok(datums) = read_all(alloc, text, false) else {
        return Answer::Nothing;
    };
    let [datum] = datums.as_slice() else {
        return Answer::Nothing;
    };
    match compile_rules(alloc, datum) {
        Ok(_) => Answer::Made,
        Err(RulesRefusal::BadRules(_)) => Answer::Bad,
        Err(RulesRefusal::NotInProfile(_)) => Answer::Vector,
        Err(RulesRefusal::NoMemory) => Answer::Nothing,
    }
}

#[test]
fn rules(rt: HostRuntime) -> Result<(), Fail> {
    let rows: &[(&[u8], Answer)] = &[
        (
            b"(syntax-rules () ((_ a b) (let ((t a)) (if t t b))))",
            Answer::Made,
        ),
        (
            b"(syntax-rules (else) ((_ (a b ...) ...) '((b ... a) ...)))",
            Answer::Made,
        ),
        (b"(syntax-rules ())", Answer::Made),
        // a variable twice, an ellipsis in the middle, and one under fewer ellipses than in its pattern
        (b"(syntax-rules () ((_ a a) 1))", Answer::Bad),
        (b"(syntax-rules () ((_ a ... b) 1))", Answer::Bad),
        (b"(syntax-rules () ((_ a ...) a))", Answer::Bad),
        (b"(syntax-rules)", Answer::Bad),
        (b"(syntax-rules () ((_ #(a)) a))", Answer::Vector),
    ];
    for (text, wanted) in rows {
        assert_eq!(rt; answer_to(rt.alloc(), text), *wanted);
    }
    Ok(())
}
