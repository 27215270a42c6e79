//! The programs of examples/, with what they read and put. Written by tools/example-rows.
use super::programs::{holds, reads};
use std::test::Fail;

#[test]
fn examples(rt: HostRuntime) -> Result<(), Fail> {
    let rows = [
        // examples/calculator.scm
        reads(
            b"; Reads lines of whole numbers and the signs + - * /, left to right, and writes the value of each line.
(define (write-number n)
  (if (< n 0)
      (begin
        (write-char #\\-)
        (write-number (- 0 n)))
      (begin
        (if (> n 9) (write-number (quotient n 10)))
        (write-char (integer->char (+ 48 (remainder n 10)))))))

(define (digit c)
  (if (eof-object? c)
      #f
      (let ((n (- (char->integer c) 48)))
        (if (< n 0)
            #f
            (if (> n 9) #f n)))))

; The number that begins with these digits: the next digit is read if there is one.
(define (read-number n)
  (let ((d (digit (peek-char))))
    (if d
        (begin
          (read-char)
          (read-number (+ (* 10 n) d)))
        n)))

(define (result sign a b)
  (if (eq? sign #\\+)
      (+ a b)
      (if (eq? sign #\\-)
          (- a b)
          (if (eq? sign #\\*)
              (* a b)
              (quotient a b)))))

(define (calculate value)
  (let ((c (read-char)))
    (if (eof-object? c)
        value
        (if (eq? c #\\newline)
            value
            (if (eq? c #\\space)
                (calculate value)
                (calculate (result c value (begin (skip-spaces) (read-number 0)))))))))

(define (skip-spaces)
  (if (eq? (peek-char) #\\space)
      (begin
        (read-char)
        (skip-spaces))))

(define (lines)
  (if (eof-object? (peek-char))
      'done
      (begin
        (write-number (calculate (read-number 0)))
        (write-char #\\newline)
        (lines))))

(lines)
",
            b"1+2
12 * 12 - 44
7-9*100
1000 / 7
",
            b"3
100
-200
142
",
        ),
        // examples/compare.scm
        reads(
            b"; Writes y, since 3 is less than 5.
(let ((a 5) (b 3))
  (if (< b a)
      (write-char #\\y)
      (write-char #\\n)))
(write-char #\\newline)
",
            b"",
            b"y
",
        ),
        // examples/counter.scm
        reads(
            b"; Procedures that share an assigned variable: writes 123.
(define (make-counter)
  (let ((n 0))
    (lambda ()
      (set! n (+ n 1))
      n)))

(define next (make-counter))
(define (digit n) (write-char (integer->char (+ 48 n))))
(digit (next))
(digit (next))
(digit (next))
(write-char #\\newline)
",
            b"",
            b"123
",
        ),
        // examples/echo.scm
        reads(
            b"; Copies the input to the output, each line in reverse.
(define (write-reversed line)
  (if (pair? line)
      (begin
        (write-char (car line))
        (write-reversed (cdr line)))))

(define (copy line)
  (let ((c (read-char)))
    (if (eof-object? c)
        (write-reversed line)
        (if (eq? c #\\newline)
            (begin
              (write-reversed line)
              (write-char #\\newline)
              (copy '()))
            (copy (cons c line))))))

(copy '())
",
            b"hello
abc
xy",
            b"olleh
cba
yx",
        ),
        // examples/hello.scm
        reads(
            b"(write-char #\\h)
(write-char #\\e)
(write-char #\\l)
(write-char #\\l)
(write-char #\\o)
(write-char #\\newline)
",
            b"",
            b"hello
",
        ),
        // examples/queens.scm
        reads(
            b"; Counts the ways to put eight queens on a board, and writes the count: 92.
(define (attacks row column dist rows)
  (if (null? rows)
      #f
      (let ((other (car rows)))
        (if (= other row)
            #t
            (if (= (- other row) dist)
                #t
                (if (= (- row other) dist)
                    #t
                    (attacks row column (+ dist 1) (cdr rows))))))))

(define (place column rows)
  (if (= column 0)
      1
      (try 1 column rows)))

(define (try row column rows)
  (if (> row 8)
      0
      (+ (if (attacks row column 1 rows)
             0
             (place (- column 1) (cons row rows)))
         (try (+ row 1) column rows))))

(define (write-number n)
  (if (> n 9) (write-number (quotient n 10)))
  (write-char (integer->char (+ 48 (remainder n 10)))))

(write-number (place 8 '()))
(write-char #\\newline)
",
            b"",
            b"92
",
        ),
        // examples/sort.scm
        reads(
            b"; Reads characters and writes them in order of their codes, sorted by merging.
(define (read-all)
  (let ((c (read-char)))
    (if (eof-object? c)
        '()
        (cons (char->integer c) (read-all)))))

(define (merge xs ys)
  (if (null? xs)
      ys
      (if (null? ys)
          xs
          (if (> (car xs) (car ys))
              (cons (car ys) (merge xs (cdr ys)))
              (cons (car xs) (merge (cdr xs) ys))))))

; Every other element, from the first on or from the second on.
(define (odd-ones xs)
  (if (null? xs)
      '()
      (cons (car xs) (even-ones (cdr xs)))))

(define (even-ones xs)
  (if (null? xs)
      '()
      (odd-ones (cdr xs))))

(define (sort xs)
  (if (null? xs)
      xs
      (if (null? (cdr xs))
          xs
          (merge (sort (odd-ones xs)) (sort (even-ones xs))))))

(define (write-all xs)
  (if (null? xs)
      (write-char #\\newline)
      (begin
        (write-char (integer->char (car xs)))
        (write-all (cdr xs)))))

(write-all (sort (read-all)))
",
            b"the quick brown fox",
            b"   bcefhiknooqrtuwx
",
        ),
    ];
    for row in &rows {
        assert_eq!(rt; holds(rt.alloc(), row)?, true);
    }
    Ok(())
}
