//! Marks of the blocks of a memory that were written.

ghost use Rattle.std.specs.Prelude.{◌≡◌, ℕ, ◌+◌, ◌*◌, ◌/◌, ◌^◌, ◌<◌, ◌≤◌, max, true, false, length};
ghost use Rattle.std.specs.Prelude.{slice_set, slice_index_or, vec_len, slice_index, OnOk, OnErr};
ghost use Rattle.memory.specs.Zeros.{AreZero, AreUnmarked, AreZeroUnmarked};
ghost use Rattle.memory.specs.Buffered.{StaysShort};

use crate::bytes::{provide, zero};
use crate::tuning::BLOCK;
use std::alloc::AllocError;

/// A store writes at most `REACH` bytes after its first.
// PERF: a store marks the block of its first byte alone, so that it makes one mark, and `clear` looks `REACH` bytes further.
pub const REACH: usize = 7;

/// Marks the block of address `at`.
#[inline(always)]
pub fn mark(marks: &mut [bool], at: usize)
    requires { at / 4096 < length marks.old }
    ensures { marks.new ≡ slice_set marks.old (at / 4096) true }
{
    marks[at / BLOCK] = true;
}

/// Marks the blocks of the addresses from `from` up to `to`.
pub fn mark_all(marks: &mut [bool], from: usize, to: usize)
    requires { to ≤ length marks.old * 4096 }
    ensures inside { (b : ℕ) → from / 4096 ≤ b → b * 4096 < to → slice_index_or marks.new b false ≡ true }
    ensures kept { (b : ℕ) → slice_index_or marks.new b false ≡ false → slice_index_or marks.old b false ≡ false }
    ensures above { (b : ℕ) → to ≤ b * 4096 → slice_index_or marks.new b false ≡ slice_index_or marks.old b false }
{
    for block in from / BLOCK..to.div_ceil(BLOCK) {
        marks[block] = true;
    }
}

/// Makes the marks at least `count`, by blocks that are not marked. It takes memory only where they are fewer.
fn provide_marks(marks: &mut Vec<bool>, count: usize) -> Result<(), AllocError>
    ensures len { OnOk result (vec_len marks.new ≡ max (vec_len marks.old) count) }
    ensures longer { vec_len marks.old ≤ vec_len marks.new }
    ensures same { (b : ℕ) → slice_index_or marks.new.items b false ≡ slice_index_or marks.old.items b false }
    ensures refused { OnErr result (vec_len marks.old < count) }
{
    if marks.len() < count {
        marks.resize(count, false)?;
    }
    Ok(())
}

/// Makes the bytes at least `length`, by zeros at their end, with a mark for each block. It takes memory only where
/// they are fewer.
pub fn provide_buffer(
    bytes: &mut Vec<u8>,
    marks: &mut Vec<bool>,
    length: usize,
) -> Result<(), AllocError>
    requires { vec_len bytes.old ≤ vec_len marks.old * 4096 }
    ensures len { OnOk result (vec_len bytes.new ≡ max (vec_len bytes.old) length) }
    ensures same { (k : ℕ) → slice_index bytes.new.items k ≡ slice_index bytes.old.items k }
    ensures marks { (b : ℕ) → slice_index_or marks.new.items b false ≡ slice_index_or marks.old.items b false }
    ensures covered { vec_len bytes.new ≤ vec_len marks.new * 4096 }
    ensures refused { OnErr result (StaysShort bytes.old length bytes.new) }
{
    provide_marks(marks, length.div_ceil(BLOCK))?;
    provide(bytes, length)
}

/// Writes zero into the marked blocks below `used` and the bytes that a store there may reach, and takes their
/// marks away.
pub fn clear(bytes: &mut [u8], marks: &mut [bool], used: usize)
    requires small { used ≤ 2 ^ 32 }
    requires marks { used ≤ length marks.old * 4096 }
    requires zero { AreZeroUnmarked bytes.old marks.old }
    requires unused { (b : ℕ) → used ≤ b * 4096 → slice_index_or marks.old b false ≡ false }
    ensures zero { AreZero bytes.new }
    ensures unmarked { AreUnmarked marks.new }
{
    for block in 0..used.div_ceil(BLOCK) {
        if marks[block] {
            let from = block * BLOCK;
            zero(bytes, from, (from + BLOCK + REACH).min(bytes.len()));
            marks[block] = false;
        }
    }
}
