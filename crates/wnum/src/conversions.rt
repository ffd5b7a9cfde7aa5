//! The conversions between words of 32 and of 64 bits (4.3.4).

ghost use Rattle.std.specs.Prelude.{◌≡◌, ◌%◌, ◌^◌};
ghost use Rattle.wnum.specs.Arithmetic.{extended};

/// The lowest 32 bits (wrap).
#[inline(always)]
pub fn wrap(x: u64) -> u32
    ensures { result ≡ x % 2 ^ 32 }
{
    (x & 0xFFFF_FFFF) as u32
}

/// The word with the same signed number (extend_s).
#[inline(always)]
pub fn extend_s(x: u32) -> u64
    ensures { result ≡ extended 32 64 x }
{
    i64::from(x.cast_signed()).cast_unsigned()
}

/// The same number (extend_u).
#[inline(always)]
pub fn extend_u(x: u32) -> u64
    ensures { result ≡ x }
{
    u64::from(x)
}
