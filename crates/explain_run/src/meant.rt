//! The argument that a word means which is spelled otherwise than a text of calls spells it.

use wsyntax::Value;

/// The value of a digit of base 10 or 16.
fn digit_value(byte: u8, base: u64) -> Option<u64> {
    let value = match byte {
        b'0'..=b'9' => byte - b'0',
        b'a'..=b'f' => byte - b'a' + 10,
        b'A'..=b'F' => byte - b'A' + 10,
        _ => return None,
    };
    if (value as u64) < base {
        Some(value as u64)
    } else {
        None
    }
}

/// The number of these digits, below 2^64; of none there is no number.
fn magnitude(digits: &[u8], base: u64) -> Option<u64> {
    if digits.is_empty() {
        return None;
    }
    let mut number: u64 = 0;
    for digit in digits {
        number = number
            .checked_mul(base)?
            .checked_add(digit_value(*digit, base)?)?;
    }
    Some(number)
}

/// The number behind a sign: in base 16 where `0x` stands before it.
fn unsigned(word: &[u8]) -> Option<u64> {
    match word.strip_prefix(b"0x").or(word.strip_prefix(b"0X")) {
        Some(digits) => magnitude(digits, 16),
        None => magnitude(word, 10),
    }
}

/// The word of 32 bits of that number; with a sign no number below -2^31 has one.
fn word32(number: u64, is_negative: bool) -> Option<u32> {
    let bits = u32::try_from(number).ok()?;
    match is_negative {
        false => Some(bits),
        true if bits > 1 << 31 => None,
        true => Some(0u32.wrapping_sub(bits)),
    }
}

/// The same of 64 bits.
fn word64(number: u64, is_negative: bool) -> Option<u64> {
    match is_negative {
        false => Some(number),
        true if number > 1 << 63 => None,
        true => Some(0u64.wrapping_sub(number)),
    }
}

/// The value that a word means as an argument, with a base, a sign or zeros that a text of calls has not.
pub(crate) fn meant(word: &[u8]) -> Option<Value> {
    let (number, is_wide) = match word.strip_prefix(b"i32:") {
        Some(number) => (number, false),
        None => (word.strip_prefix(b"i64:")?, true),
    };
    let (digits, is_negative) = match number.strip_prefix(b"-") {
        Some(digits) => (digits, true),
        None => (number.strip_prefix(b"+").unwrap_or(number), false),
    };
    let size = unsigned(digits)?;
    if is_wide {
        Some(Value::I64(word64(size, is_negative)?))
    } else {
        Some(Value::I32(word32(size, is_negative)?))
    }
}
