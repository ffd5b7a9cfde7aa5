//! Numbers are read in the one way in which they are printed: no needless zero in front, and no sign before zero.
ghost use Rattle.std.specs.Prelude.{ℕ, ◌<◌, ◌^◌, decimal, FitsSigned, IsTrue, ◌↔◌, ◌∷◌};
ghost use Rattle.std.specs.Fmt.{signed_decimal};
ghost use Rattle.std.specs.Int.{w64};
ghost use Rattle.wnum.specs.Arithmetic.{signed};
ghost use Rattle.batch_text.specs.Reading.{IsReading, IsFrontPrinted, IsLonger};

/// The word of 32 bits whose signed number the text prints.
pub(crate) fn read_word32(text: &[u8]) -> Option<u32>
    ensures { IsReading (λ n. n < 2 ^ 32) (λ n. signed_decimal (signed 32 n)) text.now result }
{
    let number = i32::try_from(read_signed(text)?).ok()?;
    Some(number.cast_unsigned())
}

/// The word of 64 bits whose signed number the text prints.
pub(crate) fn read_word64(text: &[u8]) -> Option<u64>
    ensures { IsReading (λ n. n < 2 ^ 64) (λ n. signed_decimal (signed 64 n)) text.now result }
{
    Some(read_signed(text)?.cast_unsigned())
}

/// The signed number that the text prints.
fn read_signed(text: &[u8]) -> Option<i64>
    ensures { IsReading (λ z. FitsSigned w64 z) signed_decimal text.now result }
{
    match text.strip_prefix(b"-") {
        Some(digits) => read_negative(digits),
        None => i64::try_from(read_decimal(text)?).ok(),
    }
}

/// The negative number that is printed as a minus sign and these digits.
fn read_negative(digits: &[u8]) -> Option<i64>
    ensures { IsReading (λ z. FitsSigned w64 z) signed_decimal (45 ∷ digits.now) result }
{
    let magnitude = read_decimal(digits)?;
    if magnitude == 0 {
        return None;
    }
    0_i64.checked_sub_unsigned(magnitude)
}

/// The number that these digits print.
fn read_decimal(digits: &[u8]) -> Option<u64>
    ensures { IsReading (λ n. n < 2 ^ 64) decimal digits.now result }
{
    if !begins_as_printed(digits) {
        return None;
    }
    let mut number = 0;
    for digit in digits {
        let Some(longer) = with_digit(number, *digit) else {
            return None;
        };
        number = longer;
    }
    Some(number)
}

/// Whether there is a first digit, and no needless zero.
fn begins_as_printed(digits: &[u8]) -> bool
    ensures { IsTrue result ↔ IsFrontPrinted digits.now }
{
    match digits {
        [] => false,
        [first, ..] => *first != b'0' || digits.len() == 1,
    }
}

/// The number with a digit after it. `None` where the byte is no digit, or where the number is too great.
fn with_digit(number: u64, digit: u8) -> Option<u64>
    ensures { IsLonger number digit result }
{
    if !digit.is_ascii_digit() {
        return None;
    }
    number.checked_mul(10)?.checked_add(u64::from(digit - b'0'))
}
