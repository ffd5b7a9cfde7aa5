ghost use Rattle.std.specs.Prelude.{◌≡◌, IfOk};

use std::alloc::AllocError;

/// A position in a list that types or segments share, in few bytes; 2^32 items are answered by out of memory.
pub(crate) fn position_in_list(len: usize) -> Result<u32, AllocError>
    ensures { IfOk result (λ n. n ≡ len) }
{
    match u32::try_from(len) {
        Ok(position) => Ok(position),
        Err(_) => Err(AllocError),
    }
}
