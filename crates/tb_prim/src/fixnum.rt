ghost use Rattle.std.specs.Prelude.{◌≡◌};
ghost use Rattle.tb_prim.specs.Fixnums as fixnums;

/// The least fixnum, -2^29.
pub const LEAST_FIXNUM: i32 = -536_870_912;

/// The greatest fixnum, 2^29 - 1.
pub const GREATEST_FIXNUM: i32 = 536_870_911;

/// Whether the number is a fixnum: 30 bits in two's complement.
pub fn is_fixnum(n: i64) -> bool
    ensures { result ≡ fixnums.is_fixnum n }
{
    n >= LEAST_FIXNUM as i64 && n <= GREATEST_FIXNUM as i64
}
