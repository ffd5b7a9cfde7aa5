//! Numbers in LEB128 (5.2.2): one or two bytes are read in place, longer ones by their groups.
ghost use Rattle.std.specs.Prelude.{◌≡◌, ◌≤◌, ◌<◌, ◌*◌, ◌+◌, Some, IfSome};
ghost use Rattle.std.specs.Option.{option_map};
ghost use Rattle.wnum.specs.Reading.{sums_at, ranged, signed_value, fits_signed_bits, unsigned_at, signed_at};
ghost use Rattle.wnum.specs.Number.{five};

/// A number at the front: the sum of its groups, what a negative one subtracts from that, and the bytes after it.
#[derive(Clone, Copy)]
struct Groups<'a> {
    sum: u64,
    sign: u64,
    rest: &'a [u8],
}

/// The groups of a number of five bytes, which linkers write where they may put another number later; `None` where it has fewer
/// or more.
#[inline(always)]
fn five_groups(bytes: &[u8]) -> Option<Groups<'_>>
    ensures value { IfSome result (λ x. sums_at 5 bytes.now ≡ Some ((x.sum, x.sign), x.rest.now)) }
    ensures small { IfSome result (λ x. (x.sum < 34359738368) × (x.sign ≤ 34359738368)) }
{
    // PERF: one test of the length serves all five bytes.
    let [a, b, c, d, e, rest @ ..] = bytes else {
        return None;
    };
    if *a < 128 || *b < 128 || *c < 128 || *d < 128 || *e >= 128 {
        return None;
    }
    let sum = u64::from(*a) - 128 + 128 * u64::from(*b);
    let sum = sum - 16384 + 16384 * u64::from(*c);
    let sum = sum - 2097152 + 2097152 * u64::from(*d);
    let sum = sum - 268435456 + 268435456 * u64::from(*e);
    let sign = if *e < 64 { 0 } else { 34359738368 };
    Some(Groups { sum, sign, rest })
}

/// The groups of a number of at most five bytes, each worth a power of 128. What a byte has above its group is taken off with
/// the next byte.
#[inline(always)]
fn groups_5(bytes: &[u8]) -> Option<Groups<'_>>
    ensures value { sums_at 5 bytes.now ≡ option_map (λ x. ((x.sum, x.sign), x.rest.now)) result }
    ensures small { IfSome result (λ x. (x.sum < 34359738368) × (x.sign ≤ 34359738368)) }
{
    if let Some(groups) = five_groups(bytes) {
        return Some(groups);
    }
    let [a, rest @ ..] = bytes else { return None };
    let sum = u64::from(*a);
    if *a < 128 {
        let sign = if *a < 64 { 0 } else { 128 };
        return Some(Groups { sum, sign, rest });
    }
    let [b, rest @ ..] = rest else { return None };
    let sum = sum - 128 + 128 * u64::from(*b);
    if *b < 128 {
        let sign = if *b < 64 { 0 } else { 16384 };
        return Some(Groups { sum, sign, rest });
    }
    let [c, rest @ ..] = rest else { return None };
    let sum = sum - 16384 + 16384 * u64::from(*c);
    if *c < 128 {
        let sign = if *c < 64 { 0 } else { 2097152 };
        return Some(Groups { sum, sign, rest });
    }
    let [d, rest @ ..] = rest else { return None };
    let sum = sum - 2097152 + 2097152 * u64::from(*d);
    if *d < 128 {
        let sign = if *d < 64 { 0 } else { 268435456 };
        return Some(Groups { sum, sign, rest });
    }
    let [e, rest @ ..] = rest else { return None };
    let sum = sum - 268435456 + 268435456 * u64::from(*e);
    if *e < 128 {
        let sign = if *e < 64 { 0 } else { 34359738368 };
        return Some(Groups { sum, sign, rest });
    }
    None
}

/// A number u32 at the front, and the bytes after it (5.2.2). One of one or two bytes is read in place.
#[inline(always)]
#[tactic(auto, unfolding(crate::specs::Reading::unsigned_at))]
pub fn front_u32(bytes: &[u8]) -> Option<(u32, &[u8])>
    ensures { option_map (λ x. (x.0, x.1.now)) result ≡ unsigned_at 32 bytes.now }
{
    if let [a, rest @ ..] = bytes {
        if *a < 128 {
            return Some((u32::from(*a), rest));
        }
        if let [b, rest @ ..] = rest
            && *b < 128
        {
            return Some((u32::from(*a) - 128 + 128 * u32::from(*b), rest));
        }
    }
    long_u32(bytes)
}

/// A number u32 of any length.
#[inline(never)]
#[tactic(auto, unfolding(crate::specs::Reading::unsigned_at))]
fn long_u32(bytes: &[u8]) -> Option<(u32, &[u8])>
    ensures { option_map (λ x. (x.0, x.1.now)) result ≡ unsigned_at 32 bytes.now }
{
    let groups = groups_5(bytes)?;
    if groups.sum <= u32::MAX as u64 {
        Some((groups.sum as u32, groups.rest))
    } else {
        None
    }
}

/// A number s32 at the front, and the bytes after it (5.2.2). One of one or two bytes is read in place.
#[inline(always)]
#[tactic(auto, unfolding(crate::specs::Reading::signed_at))]
pub fn front_s32(bytes: &[u8]) -> Option<(i32, &[u8])>
    ensures { option_map (λ x. (x.0, x.1.now)) result ≡ signed_at 32 bytes.now }
{
    if let [a, rest @ ..] = bytes {
        let low = i32::from(*a);
        if *a < 128 {
            return Some((if low < 64 { low } else { low - 128 }, rest));
        }
        if let [b, rest @ ..] = rest
            && *b < 128
        {
            let value = low - 128 + 128 * i32::from(*b);
            if *b < 64 {
                return Some((value, rest));
            }
            return Some((value - 16384, rest));
        }
    }
    long_s32(bytes)
}

/// A number s32 of any length.
#[inline(never)]
#[tactic(auto, unfolding(crate::specs::Reading::signed_at))]
fn long_s32(bytes: &[u8]) -> Option<(i32, &[u8])>
    ensures { option_map (λ x. (x.0, x.1.now)) result ≡ signed_at 32 bytes.now }
{
    let groups = groups_5(bytes)?;
    let value = groups.sum as i64 - groups.sign as i64;
    if i32::MIN as i64 <= value && value <= i32::MAX as i64 {
        Some((value as i32, groups.rest))
    } else {
        None
    }
}

/// A number s33 at the front, and the bytes after it (5.2.2; the index of a block type is one).
#[inline(always)]
#[tactic(auto, unfolding(crate::specs::Reading::signed_at))]
pub fn front_s33(bytes: &[u8]) -> Option<(i64, &[u8])>
    ensures { option_map (λ x. (x.0, x.1.now)) result ≡ signed_at 33 bytes.now }
{
    if let [a, rest @ ..] = bytes
        && *a < 128
    {
        let group = i64::from(*a);
        return Some((if group < 64 { group } else { group - 128 }, rest));
    }
    long_s33(bytes)
}

/// A number s33 of any length.
#[inline(never)]
#[tactic(auto, unfolding(crate::specs::Reading::signed_at))]
fn long_s33(bytes: &[u8]) -> Option<(i64, &[u8])>
    ensures { option_map (λ x. (x.0, x.1.now)) result ≡ signed_at 33 bytes.now }
{
    let groups = groups_5(bytes)?;
    let value = groups.sum as i64 - groups.sign as i64;
    if value >= -4294967296 && value < 4294967296 {
        Some((value, groups.rest))
    } else {
        None
    }
}

/// A number s64 at the front, and the bytes after it (5.2.2). One of one or two bytes is read in place.
#[inline(always)]
#[tactic(auto, unfolding(crate::specs::Reading::signed_at))]
pub fn front_s64(bytes: &[u8]) -> Option<(i64, &[u8])>
    ensures { option_map (λ x. (x.0, x.1.now)) result ≡ signed_at 64 bytes.now }
{
    if let [a, rest @ ..] = bytes {
        let value = i64::from(*a);
        if *a < 128 {
            return Some((if value < 64 { value } else { value - 128 }, rest));
        }
        if let [b, rest @ ..] = rest
            && *b < 128
        {
            let value = value - 128 + 128 * i64::from(*b);
            if *b < 64 {
                return Some((value, rest));
            }
            return Some((value - 16384, rest));
        }
    }
    long_s64(bytes)
}

/// A number s64 of any length: five bytes, and then one of at most five.
#[inline(never)]
#[tactic(auto, unfolding(crate::specs::Reading::signed_at))]
fn long_s64(bytes: &[u8]) -> Option<(i64, &[u8])>
    ensures { option_map (λ x. (x.0, x.1.now)) result ≡ signed_at 64 bytes.now }
{
    if let Some(groups) = groups_5(bytes) {
        return Some((groups.sum as i64 - groups.sign as i64, groups.rest));
    }
    let [a, b, c, d, e, rest @ ..] = bytes else {
        return None
    };
    let groups = groups_5(rest)?;
    joined_s64(low_5(*a, *b, *c, *d, *e), groups)
}

/// The sum of five groups of seven bits.
fn low_5(a: u8, b: u8, c: u8, d: u8, e: u8) -> u64
    ensures { result ≡ five a b c d e }
{
    u64::from(a % 128)
        + 128 * u64::from(b % 128)
        + 16384 * u64::from(c % 128)
        + 2097152 * u64::from(d % 128)
        + 268435456 * u64::from(e % 128)
}

/// Five groups, and the groups above them, as a number s64: the upper ones are a number s29, since 35 bits lie below them.
fn joined_s64(low: u64, high: Groups<'_>) -> Option<(i64, &[u8])>
    requires low { low < 34359738368 }
    requires high { (high.sum < 34359738368) × (high.sign ≤ 34359738368) }
    ensures { option_map (λ x. (x.0, x.1.now)) result
        ≡ ranged signed_value (fits_signed_bits 64)
        (Some ((low + 34359738368 * high.entry.sum, 34359738368 * high.entry.sign), high.entry.rest.now)) }
{
    let value = high.sum as i64 - high.sign as i64;
    if value >= -268435456 && value < 268435456 {
        Some((low as i64 + 34359738368 * value, high.rest))
    } else {
        None
    }
}
