//! Operations on words, and the condition codes that they set.

ghost use Rattle.std.specs.Prelude.{◌≡◌, ◌≢◌, ◌<◌, ◌^◌, ◌*ℤ◌, None, Some, cond, int_div, pos};
ghost use Rattle.tb_sparc.specs.SparcStep.{behind, moved};
ghost use Rattle.tb_sparc.specs.WordOps.{after_add, after_logic, after_sub, after_tagged_add, after_tagged_sub, condition, has_tag, is_outside, joined, low_condition, product, shift_left, shift_right, shift_signed};

use tb_sparc::Codes;

/// The word behind another.
pub fn behind(word: u32) -> u32
    requires { word < 2 ^ 30 }
    ensures word { result ≡ behind word }
    ensures small { result < 2 ^ 30 }
{
    (word + 1) % 0x4000_0000
}

/// The word so many words from another.
pub fn moved(word: u32, distance: i32) -> u32
    ensures word { result ≡ moved word distance }
    ensures small { result < 2 ^ 30 }
{
    word.wrapping_add(distance.cast_unsigned()) % 0x4000_0000
}

pub fn shift_left(a: u32, b: u32) -> u32
    ensures { result ≡ shift_left a b }
{
    a << (b % 32)
}

pub fn shift_right(a: u32, b: u32) -> u32
    ensures { result ≡ shift_right a b }
{
    a >> (b % 32)
}

pub fn shift_signed(a: u32, b: u32) -> u32
    ensures { result ≡ shift_signed a b }
{
    (a.cast_signed() >> (b % 32)).cast_unsigned()
}

fn times(m: i32, n: i32) -> i64
    ensures { result ≡ m *ℤ n }
{
    i64::from(m) * i64::from(n)
}

/// The 64 bits of a product of signed numbers.
pub fn product(a: u32, b: u32) -> u64
    ensures { result ≡ product a b }
{
    times(a.cast_signed(), b.cast_signed()).cast_unsigned()
}

/// The signed number with this high and this low word.
pub fn joined(y: u32, a: u32) -> i64
    ensures { result ≡ joined y a }
{
    (u64::from(y) * 0x1_0000_0000 + u64::from(a)).cast_signed()
}

/// The number is outside the signed numbers of 32 bits.
fn is_outside(z: i64) -> bool
    ensures { result ≡ is_outside z }
{
    z < -0x8000_0000 || 0x7fff_ffff < z
}

/// The quotient, where it is one of 32 bits.
pub fn divided(dividend: i64, divisor: i64) -> Option<i32>
    requires { divisor ≢ pos 0 }
    ensures { result ≡ cond (is_outside (int_div dividend divisor)) None (Some (int_div dividend divisor)) }
{
    if dividend == i64::MIN && divisor == -1 {
        return None;
    }
    let quotient = dividend / divisor;
    if is_outside(quotient) {
        None
    } else {
        Some(quotient as i32)
    }
}

fn add_overflows(a: u32, b: u32) -> bool
    ensures { result ≡ (after_add a b).overflow }
{
    is_outside(i64::from(a.cast_signed()) + i64::from(b.cast_signed()))
}

fn sub_overflows(a: u32, b: u32) -> bool
    ensures { result ≡ (after_sub a b).overflow }
{
    is_outside(i64::from(a.cast_signed()) - i64::from(b.cast_signed()))
}

/// Bit 0 or 1 of an operand is 1.
fn has_tag(a: u32, b: u32) -> bool
    ensures { result ≡ has_tag a b }
{
    a % 4 + b % 4 != 0
}

fn carries(a: u32, b: u32) -> bool
    ensures { result ≡ (after_add a b).carry }
{
    u64::from(a) + u64::from(b) >= 0x1_0000_0000
}

pub fn after_add(a: u32, b: u32) -> Codes
    ensures { result ≡ after_add a b }
{
    let sum = a.wrapping_add(b);
    Codes {
        negative: sum >= 0x8000_0000,
        zero: sum == 0,
        overflow: add_overflows(a, b),
        carry: carries(a, b),
    }
}

pub fn after_sub(a: u32, b: u32) -> Codes
    ensures { result ≡ after_sub a b }
{
    let difference = a.wrapping_sub(b);
    Codes {
        negative: difference >= 0x8000_0000,
        zero: difference == 0,
        overflow: sub_overflows(a, b),
        carry: a < b,
    }
}

pub fn after_tagged_add(a: u32, b: u32) -> Codes
    ensures { result ≡ after_tagged_add a b }
{
    let codes = after_add(a, b);
    Codes {
        negative: codes.negative,
        zero: codes.zero,
        overflow: has_tag(a, b) || codes.overflow,
        carry: codes.carry,
    }
}

pub fn after_tagged_sub(a: u32, b: u32) -> Codes
    ensures { result ≡ after_tagged_sub a b }
{
    let codes = after_sub(a, b);
    Codes {
        negative: codes.negative,
        zero: codes.zero,
        overflow: has_tag(a, b) || codes.overflow,
        carry: codes.carry,
    }
}

pub fn after_logic(word: u32) -> Codes
    ensures { result ≡ after_logic word }
{
    Codes {
        negative: word >= 0x8000_0000,
        zero: word == 0,
        overflow: false,
        carry: false,
    }
}

/// Conditions 0 to 7.
fn low_condition(k: u8, codes: Codes) -> bool
    requires { k < 8 }
    ensures { result ≡ low_condition k codes }
{
    match k {
        0 => false,
        1 => codes.zero,
        2 => codes.zero || codes.negative != codes.overflow,
        3 => codes.negative != codes.overflow,
        4 => codes.carry || codes.zero,
        5 => codes.carry,
        6 => codes.negative,
        _ => codes.overflow,
    }
}

/// A condition, 0 to 15.
pub fn condition(k: u8, codes: Codes) -> bool
    requires { k < 16 }
    ensures { result ≡ condition k codes }
{
    if k < 8 {
        low_condition(k, codes)
    } else {
        !low_condition(k - 8, codes)
    }
}
