//! The integer operators on words of 32 bits (4.3.2). Of two operands `x` is the one pushed first.

ghost use Rattle.std.specs.Prelude.{◌≡◌, ◌%◌, ◌^◌, nat_eq};
ghost use Rattle.wnum.specs.Arithmetic.{unary, binary, compare_by, extended, Clz, Ctz, Popcnt, Add, Sub, Mul, DivS, DivU};
ghost use Rattle.wnum.specs.Arithmetic.{RemS, RemU, And, Or, Xor, Shl, ShrS, ShrU, Rotl, Rotr, Eq, Ne, LtS, LtU, GtS, GtU};
ghost use Rattle.wnum.specs.Arithmetic.{LeS, LeU, GeS, GeU};

use crate::trap::NumTrap;

/// The zeros above the highest one; all bits of 0 (iclz).
#[inline(always)]
pub fn clz(x: u32) -> u32
    ensures { result ≡ unary 32 Clz x }
{
    x.leading_zeros()
}

/// The zeros below the lowest one; all bits of 0 (ictz).
#[inline(always)]
pub fn ctz(x: u32) -> u32
    ensures { result ≡ unary 32 Ctz x }
{
    x.trailing_zeros()
}

/// The ones (ipopcnt).
#[inline(always)]
pub fn popcnt(x: u32) -> u32
    ensures { result ≡ unary 32 Popcnt x }
{
    x.count_ones()
}

/// The sum modulo 2^32 (iadd).
#[inline(always)]
pub fn add(x: u32, y: u32) -> u32
    ensures { Ok result ≡ binary 32 Add x y }
{
    x.wrapping_add(y)
}

/// The difference modulo 2^32 (isub).
#[inline(always)]
pub fn sub(x: u32, y: u32) -> u32
    ensures { Ok result ≡ binary 32 Sub x y }
{
    x.wrapping_sub(y)
}

/// The product modulo 2^32 (imul).
#[inline(always)]
pub fn mul(x: u32, y: u32) -> u32
    ensures { Ok result ≡ binary 32 Mul x y }
{
    x.wrapping_mul(y)
}

/// The quotient of the signed numbers, rounded toward zero (idiv_s). `DivideByZero` where `y` is 0, `IntegerOverflow` where
/// -2^31 is divided by -1.
#[inline(always)]
pub fn div_s(x: u32, y: u32) -> Result<u32, NumTrap>
    ensures { result ≡ binary 32 DivS x y }
{
    if y == 0 {
        return Err(NumTrap::DivideByZero);
    }
    let (dividend, divisor) = (x.cast_signed(), y.cast_signed());
    if dividend == i32::MIN && divisor == -1 {
        return Err(NumTrap::IntegerOverflow);
    }
    Ok((dividend / divisor).cast_unsigned())
}

/// The quotient, rounded down (idiv_u). `DivideByZero` where `y` is 0.
#[inline(always)]
pub fn div_u(x: u32, y: u32) -> Result<u32, NumTrap>
    ensures { result ≡ binary 32 DivU x y }
{
    if y == 0 {
        Err(NumTrap::DivideByZero)
    } else {
        Ok(x / y)
    }
}

/// The remainder of the signed numbers, with the sign of `x` (irem_s); 0 where -2^31 is divided by -1. `DivideByZero` where `y` is 0.
#[inline(always)]
pub fn rem_s(x: u32, y: u32) -> Result<u32, NumTrap>
    ensures { result ≡ binary 32 RemS x y }
{
    if y == 0 {
        return Err(NumTrap::DivideByZero);
    }
    let (dividend, divisor) = (x.cast_signed(), y.cast_signed());
    if divisor == -1 {
        return Ok(0);
    }
    Ok((dividend % divisor).cast_unsigned())
}

/// The remainder (irem_u). `DivideByZero` where `y` is 0.
#[inline(always)]
pub fn rem_u(x: u32, y: u32) -> Result<u32, NumTrap>
    ensures { result ≡ binary 32 RemU x y }
{
    if y == 0 {
        Err(NumTrap::DivideByZero)
    } else {
        Ok(x % y)
    }
}

/// The ones of both (iand).
#[inline(always)]
pub fn and(x: u32, y: u32) -> u32
    ensures { Ok result ≡ binary 32 And x y }
{
    x & y
}

/// The ones of either (ior).
#[inline(always)]
pub fn or(x: u32, y: u32) -> u32
    ensures { Ok result ≡ binary 32 Or x y }
{
    x | y
}

/// The ones of exactly one (ixor).
#[inline(always)]
pub fn xor(x: u32, y: u32) -> u32
    ensures { Ok result ≡ binary 32 Xor x y }
{
    x ^ y
}

/// The bits moved up by `y` modulo 32 (ishl).
#[inline(always)]
pub fn shl(x: u32, y: u32) -> u32
    ensures { Ok result ≡ binary 32 Shl x y }
{
    x.wrapping_shl(y)
}

/// The bits moved down by `y` modulo 32, with copies of the sign above (ishr_s).
#[inline(always)]
pub fn shr_s(x: u32, y: u32) -> u32
    ensures { Ok result ≡ binary 32 ShrS x y }
{
    x.cast_signed().wrapping_shr(y).cast_unsigned()
}

/// The bits moved down by `y` modulo 32, with zeros above (ishr_u).
#[inline(always)]
pub fn shr_u(x: u32, y: u32) -> u32
    ensures { Ok result ≡ binary 32 ShrU x y }
{
    x.wrapping_shr(y)
}

/// The bits moved up by `y` modulo 32, those from the top to the bottom (irotl).
#[inline(always)]
pub fn rotl(x: u32, y: u32) -> u32
    ensures { Ok result ≡ binary 32 Rotl x y }
{
    x.rotate_left(y)
}

/// The bits moved down by `y` modulo 32, those from the bottom to the top (irotr).
#[inline(always)]
pub fn rotr(x: u32, y: u32) -> u32
    ensures { Ok result ≡ binary 32 Rotr x y }
{
    x.rotate_right(y)
}

/// Whether the word is 0 (ieqz).
#[inline(always)]
pub fn eqz(x: u32) -> bool
    ensures { result ≡ nat_eq x 0 }
{
    x == 0
}

/// Whether the words are equal (ieq).
#[inline(always)]
pub fn eq(x: u32, y: u32) -> bool
    ensures { result ≡ compare_by 32 Eq x y }
{
    x == y
}

/// Whether the words differ (ine).
#[inline(always)]
pub fn ne(x: u32, y: u32) -> bool
    ensures { result ≡ compare_by 32 Ne x y }
{
    x != y
}

/// Whether `x` is below `y` as a signed number (ilt_s).
#[inline(always)]
pub fn lt_s(x: u32, y: u32) -> bool
    ensures { result ≡ compare_by 32 LtS x y }
{
    x.cast_signed() < y.cast_signed()
}

/// Whether `x` is below `y` (ilt_u).
#[inline(always)]
pub fn lt_u(x: u32, y: u32) -> bool
    ensures { result ≡ compare_by 32 LtU x y }
{
    x < y
}

/// Whether `x` is above `y` as a signed number (igt_s).
#[inline(always)]
pub fn gt_s(x: u32, y: u32) -> bool
    ensures { result ≡ compare_by 32 GtS x y }
{
    x.cast_signed() > y.cast_signed()
}

/// Whether `x` is above `y` (igt_u).
#[inline(always)]
pub fn gt_u(x: u32, y: u32) -> bool
    ensures { result ≡ compare_by 32 GtU x y }
{
    x > y
}

/// Whether `x` is at most `y` as a signed number (ile_s).
#[inline(always)]
pub fn le_s(x: u32, y: u32) -> bool
    ensures { result ≡ compare_by 32 LeS x y }
{
    x.cast_signed() <= y.cast_signed()
}

/// Whether `x` is at most `y` (ile_u).
#[inline(always)]
pub fn le_u(x: u32, y: u32) -> bool
    ensures { result ≡ compare_by 32 LeU x y }
{
    x <= y
}

/// Whether `x` is at least `y` as a signed number (ige_s).
#[inline(always)]
pub fn ge_s(x: u32, y: u32) -> bool
    ensures { result ≡ compare_by 32 GeS x y }
{
    x.cast_signed() >= y.cast_signed()
}

/// Whether `x` is at least `y` (ige_u).
#[inline(always)]
pub fn ge_u(x: u32, y: u32) -> bool
    ensures { result ≡ compare_by 32 GeU x y }
{
    x >= y
}

/// The lowest 8 bits, read with their sign (iextend8_s).
#[inline(always)]
pub fn extend8_s(x: u32) -> u32
    ensures { result ≡ extended 8 32 (x % 2 ^ 8) }
{
    let low = (x & 0xFF) as u8;
    i32::from(low.cast_signed()).cast_unsigned()
}

/// The lowest 16 bits, read with their sign (iextend16_s).
#[inline(always)]
pub fn extend16_s(x: u32) -> u32
    ensures { result ≡ extended 16 32 (x % 2 ^ 16) }
{
    let low = (x & 0xFFFF) as u16;
    i32::from(low.cast_signed()).cast_unsigned()
}
