ghost use Rattle.std.specs.Prelude.{◌≡◌, ◌+◌, ◌*◌, ◌^◌, ◌<◌, ◌≤◌, SomeIff, length};
ghost use Rattle.std.specs.List.{list_all};
ghost use Rattle.std.specs.Prelude.{nat_lt};
ghost use Rattle.tb_sexp.specs.calls.Lexing.{fixnum_of, number_of};
ghost use Rattle.tb_sexp.specs.Numbers as numbers;
ghost use Rattle.tb_sexp.specs.calls.Lexing as lexing;
ghost use Rattle.tb_sexp.specs.Numbers.{digit_of, value_of};

use super::token::{Fault, Token};

/// One more than the largest magnitude of a fixnum.
const LIMIT: u64 = 536_870_913;

/// The value of a digit, or 16.
fn digit(b: u8) -> u8
    ensures exact { result ≡ digit_of b }
    ensures bound { result ≤ 16 }
{
    let lower = b.to_ascii_lowercase();
    if b'0' <= b && b <= b'9' {
        b - b'0'
    } else if b'a' <= lower && lower <= b'f' {
        lower - 87
    } else {
        16
    }
}

fn are_all_digits(base: u64, digits: &[u8]) -> bool
    ensures { result ≡ list_all (λ d. nat_lt (digit_of d) base) digits.now }
{
    digits.iter().all(|b| u64::from(digit(*b)) < base)
}

fn are_digits(base: u64, digits: &[u8]) -> bool
    ensures { result ≡ numbers.are_digits base digits.now }
{
    !digits.is_empty() && are_all_digits(base, digits)
}

fn is_negative(run: &[u8]) -> bool
    ensures { result ≡ lexing.is_negative run.now }
{
    match run {
        [b'-', ..] => true,
        _ => false,
    }
}

fn digits_of(run: &[u8]) -> &[u8]
    ensures { result.now ≡ lexing.digits_of run.now }
{
    match run {
        [b'+' | b'-', rest @ ..] => rest,
        _ => run,
    }
}

/// The number with one more digit, where its magnitude can be that of a fixnum.
fn with_digit(base: u64, number: u64, b: u8) -> Option<u64>
    requires base { base ≤ 16 }
    requires number { number < LIMIT }
    ensures { SomeIff result (number * base + digit_of b < LIMIT) (number * base + digit_of b) }
{
    let longer = number * base + u64::from(digit(b));
    if longer < LIMIT { Some(longer) } else { None }
}

/// The number that digits of the base stand for, where its magnitude can be that of a fixnum.
fn value(base: u64, digits: &[u8]) -> Option<u64>
    requires { (2 ≤ base) × (base ≤ 16) }
    ensures { SomeIff result (value_of base digits.now < LIMIT) (value_of base digits.now) }
{
    let mut number = 0;
    for b in digits {
        match with_digit(base, number, *b) {
            Some(longer) => number = longer,
            None => return None,
        }
    }
    Some(number)
}

/// The fixnum of this sign and magnitude.
fn fixnum(negative: bool, magnitude: u64) -> Result<Token, Fault>
    requires { magnitude < LIMIT }
    ensures { result ≡ fixnum_of negative magnitude }
{
    if negative {
        Ok(Token::Fix(-(magnitude as i32)))
    } else if magnitude < LIMIT - 1 {
        Ok(Token::Fix(magnitude as i32))
    } else {
        Err(Fault::BigNumber)
    }
}

/// The number that the bytes are in the base.
pub fn number(base: u64, run: &[u8]) -> Result<Token, Fault>
    requires { (2 ≤ base) × (base ≤ 16) }
    ensures { result ≡ number_of base run.now }
{
    let digits = digits_of(run);
    if are_digits(base, digits) {
        match value(base, digits) {
            Some(magnitude) => fixnum(is_negative(run), magnitude),
            None => Err(Fault::BigNumber),
        }
    } else {
        Err(Fault::Syntax)
    }
}
