//! The primitives on numbers, characters and single words.

ghost use Rattle.std.specs.Prelude.{◌≡◌, ◌≢◌, ◌+ℤ◌, ◌-ℤ◌, ◌*ℤ◌, int_div, int_rem, int_lt, int_le, pos, cond};
ghost use Rattle.tb_mac.specs.Effects.{with_fixes, with_divisor, with_fix, with_char, with_index, gives_fix, gives_truth, modulo_of, is_zero, same_truth, is_boolean, is_char, is_integer, is_special, Gives};
ghost use Rattle.tb_mac.specs.Words.{same_int};
ghost use Rattle.tb_macm.specs.calls.Quiet.{effect_of};

use super::answer::Answer;
use tb_mac::Word;
use tb_prim::{Cause, is_fixnum};

const WRONG_TYPE: Answer = Answer::Fails(Cause::WrongType);

/// A result that has to be a fixnum.
fn fixnum(n: i64) -> Answer
    ensures { effect_of result ≡ gives_fix n }
{
    if is_fixnum(n) {
        Answer::Gives(Word::Fix(n as i32))
    } else {
        Answer::Fails(Cause::Overflow)
    }
}

/// True or false.
pub fn truth(holds: bool) -> Answer
    ensures { effect_of result ≡ gives_truth holds }
{
    if holds {
        Answer::Gives(Word::Special(1))
    } else {
        Answer::Gives(Word::Special(0))
    }
}

pub fn sum(u: Word, v: Word) -> Answer
    ensures { effect_of result ≡ with_fixes u v (λ m n. gives_fix (m +ℤ n)) }
{
    match (u, v) {
        (Word::Fix(m), Word::Fix(n)) => fixnum(i64::from(m) + i64::from(n)),
        _ => WRONG_TYPE,
    }
}

pub fn difference(u: Word, v: Word) -> Answer
    ensures { effect_of result ≡ with_fixes u v (λ m n. gives_fix (m -ℤ n)) }
{
    match (u, v) {
        (Word::Fix(m), Word::Fix(n)) => fixnum(i64::from(m) - i64::from(n)),
        _ => WRONG_TYPE,
    }
}

pub fn product(u: Word, v: Word) -> Answer
    ensures { effect_of result ≡ with_fixes u v (λ m n. gives_fix (m *ℤ n)) }
{
    match (u, v) {
        (Word::Fix(m), Word::Fix(n)) => fixnum(i64::from(m) * i64::from(n)),
        _ => WRONG_TYPE,
    }
}

pub fn quotient(u: Word, v: Word) -> Answer
    ensures { effect_of result ≡ with_divisor u v (λ m n. gives_fix (int_div m n)) }
{
    match (u, v) {
        (Word::Fix(_), Word::Fix(0)) => Answer::Fails(Cause::ZeroDivide),
        (Word::Fix(m), Word::Fix(n)) => fixnum(i64::from(m) / i64::from(n)),
        _ => WRONG_TYPE,
    }
}

pub fn equal(u: Word, v: Word) -> Answer
    ensures { effect_of result ≡ with_fixes u v (λ m n. gives_truth (same_int m n)) }
{
    match (u, v) {
        (Word::Fix(m), Word::Fix(n)) => truth(m == n),
        _ => WRONG_TYPE,
    }
}

pub fn less(u: Word, v: Word) -> Answer
    ensures { effect_of result ≡ with_fixes u v (λ m n. gives_truth (int_lt m n)) }
{
    match (u, v) {
        (Word::Fix(m), Word::Fix(n)) => truth(m < n),
        _ => WRONG_TYPE,
    }
}

pub fn at_most(u: Word, v: Word) -> Answer
    ensures { effect_of result ≡ with_fixes u v (λ m n. gives_truth (int_le m n)) }
{
    match (u, v) {
        (Word::Fix(m), Word::Fix(n)) => truth(m <= n),
        _ => WRONG_TYPE,
    }
}

fn remainder_of(m: i32, n: i32) -> i32
    requires { n ≢ pos 0 }
    ensures { result ≡ int_rem m n }
{
    (i64::from(m) % i64::from(n)) as i32
}

/// The remainder has the sign of the dividend.
pub fn remainder(u: Word, v: Word) -> Answer
    ensures { effect_of result ≡ with_divisor u v (λ m n. Gives (Word.Fix (int_rem m n))) }
{
    match (u, v) {
        (Word::Fix(_), Word::Fix(0)) => Answer::Fails(Cause::ZeroDivide),
        (Word::Fix(m), Word::Fix(n)) => Answer::Gives(Word::Fix(remainder_of(m, n))),
        _ => WRONG_TYPE,
    }
}

/// A remainder by n, with the sign of n.
fn with_sign(r: i32, n: i32) -> i32
    ensures { result ≡ cond (is_zero r) r (cond (same_truth (int_lt r (pos 0)) (int_lt n (pos 0))) r (r +ℤ n)) }
{
    if r == 0 {
        r
    } else if r < 0 {
        if n < 0 { r } else { r + n }
    } else if n < 0 {
        r + n
    } else {
        r
    }
}

/// The modulo has the sign of the divisor.
pub fn modulo(u: Word, v: Word) -> Answer
    ensures { effect_of result ≡ with_divisor u v (λ m n. Gives (Word.Fix (modulo_of m n))) }
{
    match (u, v) {
        (Word::Fix(_), Word::Fix(0)) => Answer::Fails(Cause::ZeroDivide),
        (Word::Fix(m), Word::Fix(n)) => {
            Answer::Gives(Word::Fix(with_sign(remainder_of(m, n), n)))
        }
        _ => WRONG_TYPE,
    }
}

pub fn code_of_char(u: Word) -> Answer
    ensures { effect_of result ≡ with_char u (λ c. Gives (Word.Fix (pos c))) }
{
    match u {
        Word::Char(c) => Answer::Gives(Word::Fix(i32::from(c))),
        _ => WRONG_TYPE,
    }
}

pub fn char_of_code(u: Word) -> Answer
    ensures { effect_of result ≡ with_fix u (λ n. with_index n 256 (λ c. Gives (Word.Char c))) }
{
    match u {
        Word::Fix(n) if n >= 0 && n < 256 => Answer::Gives(Word::Char(n as u8)),
        Word::Fix(_) => Answer::Fails(Cause::Range),
        _ => WRONG_TYPE,
    }
}

/// The word is true or false.
pub fn boolean(u: Word) -> Answer
    ensures { effect_of result ≡ gives_truth (is_boolean u) }
{
    match u {
        Word::Special(k) => truth(k < 2),
        _ => truth(false),
    }
}

/// The word is a character.
pub fn character(u: Word) -> Answer
    ensures { effect_of result ≡ gives_truth (is_char u) }
{
    truth(matches!(u, Word::Char(_)))
}

/// The word is a fixnum.
pub fn integer(u: Word) -> Answer
    ensures { effect_of result ≡ gives_truth (is_integer u) }
{
    truth(matches!(u, Word::Fix(_)))
}

/// The word is the special with this number.
pub fn is_special(u: Word, number: u8) -> Answer
    ensures { effect_of result ≡ gives_truth (is_special number u) }
{
    match u {
        Word::Special(k) => truth(k == number),
        _ => truth(false),
    }
}
