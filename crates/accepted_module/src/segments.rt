//! The first segments that lie outside (4.5.4).

ghost use Rattle.std.specs.Prelude.{◌≡◌, ◌+◌, ◌<◌, ◌^◌, nat_le, length, All};
ghost use Rattle.wsyntax.specs.Execution.Start.{first_outside};
ghost use Rattle.accepted_module.specs.Segments.{IsOffset, element_segments, data_segments};

use crate::offsets::offset_of;
use wsyntax::{Data, Elements};

/// Whether `count` items from `offset` on end within `size`. Nothing wraps.
fn ends_within(offset: u32, count: usize, size: usize) -> bool
    ensures { result ≡ nat_le (offset + count) size }
{
    count <= size && offset as usize <= size - count
}

/// The index of the first element segment that does not end within a table of that size.
pub(crate) fn first_element_outside(size: usize, segments: &Elements<'_>) -> Option<u32>
    requires few { length segments.now < 2 ^ 32 }
    requires offsets { All (λ s. IsOffset s.offset) segments.now }
    ensures { result ≡ first_outside 0 size (element_segments segments.now) }
{
    for index in 0..segments.len() {
        let Some(segment) = segments.get(index) else {
            unreachable!()
        };
        if !ends_within(offset_of(segment.offset), segment.functions.len(), size) {
            return Some(index as u32);
        }
    }
    None
}

/// The index of the first data segment that does not end within a memory of that size.
pub(crate) fn first_data_outside(size: usize, segments: &[Data<'_>]) -> Option<u32>
    requires few { length segments.now < 2 ^ 32 }
    requires offsets { All (λ s. IsOffset s.offset) segments.now }
    ensures { result ≡ first_outside 0 size (data_segments segments.now) }
{
    for (index, segment) in segments.iter().enumerate() {
        if !ends_within(offset_of(&segment.offset), segment.bytes.len(), size) {
            return Some(index as u32);
        }
    }
    None
}
