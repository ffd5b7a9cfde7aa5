//! Numbers in bytes, little-endian (4.3.1), and bytes made zero.

// PERF: the bytes of a number are named one by one, and the compiler makes one move of them.

ghost use Rattle.std.specs.Prelude.{◌≡◌, ℕ, ◌+◌, ◌<◌, ◌≤◌, max, length, take, drop};
ghost use Rattle.std.specs.Prelude.{slice_index, vec_len, OnOk, OnErr};
ghost use Rattle.wsyntax.specs.Table.{little_endian};
ghost use Rattle.wsyntax.specs.Execution.Store.{to_bytes};
ghost use Rattle.wsyntax.specs.Execution.Allocation.{overwrite};
ghost use Rattle.memory.specs.Buffered.{StaysShort};

use std::alloc::AllocError;

#[inline(always)]
pub fn number_16(bytes: &[u8], at: usize) -> u16
    requires { at + 2 ≤ length bytes.now }
    ensures { result ≡ little_endian (take 2 (drop at bytes.now)) }
{
    u16::from_le_bytes([bytes[at], bytes[at + 1]])
}

#[inline(always)]
pub fn number_32(bytes: &[u8], at: usize) -> u32
    requires { at + 4 ≤ length bytes.now }
    ensures { result ≡ little_endian (take 4 (drop at bytes.now)) }
{
    u32::from_le_bytes([bytes[at], bytes[at + 1], bytes[at + 2], bytes[at + 3]])
}

#[inline(always)]
pub fn number_64(bytes: &[u8], at: usize) -> u64
    requires { at + 8 ≤ length bytes.now }
    ensures { result ≡ little_endian (take 8 (drop at bytes.now)) }
{
    u64::from_le_bytes([
        bytes[at],
        bytes[at + 1],
        bytes[at + 2],
        bytes[at + 3],
        bytes[at + 4],
        bytes[at + 5],
        bytes[at + 6],
        bytes[at + 7],
    ])
}

#[inline(always)]
pub fn put_8(bytes: &mut [u8], at: usize, n: u64)
    requires { at + 1 ≤ length bytes.old }
    ensures { bytes.new ≡ overwrite at (to_bytes 1 n) bytes.old }
{
    bytes[at] = (n % 0x100) as u8;
}

#[inline(always)]
pub fn put_16(bytes: &mut [u8], at: usize, n: u64)
    requires { at + 2 ≤ length bytes.old }
    ensures { bytes.new ≡ overwrite at (to_bytes 2 n) bytes.old }
{
    bytes[at] = (n % 0x100) as u8;
    bytes[at + 1] = (n / 0x100 % 0x100) as u8;
}

#[inline(always)]
pub fn put_32(bytes: &mut [u8], at: usize, n: u64)
    requires { at + 4 ≤ length bytes.old }
    ensures { bytes.new ≡ overwrite at (to_bytes 4 n) bytes.old }
{
    bytes[at] = (n % 0x100) as u8;
    bytes[at + 1] = (n / 0x100 % 0x100) as u8;
    bytes[at + 2] = (n / 0x1_0000 % 0x100) as u8;
    bytes[at + 3] = (n / 0x100_0000 % 0x100) as u8;
}

#[inline(always)]
pub fn put_64(bytes: &mut [u8], at: usize, n: u64)
    requires { at + 8 ≤ length bytes.old }
    ensures { bytes.new ≡ overwrite at (to_bytes 8 n) bytes.old }
{
    bytes[at] = (n % 0x100) as u8;
    bytes[at + 1] = (n / 0x100 % 0x100) as u8;
    bytes[at + 2] = (n / 0x1_0000 % 0x100) as u8;
    bytes[at + 3] = (n / 0x100_0000 % 0x100) as u8;
    bytes[at + 4] = (n / 0x1_0000_0000 % 0x100) as u8;
    bytes[at + 5] = (n / 0x100_0000_0000 % 0x100) as u8;
    bytes[at + 6] = (n / 0x1_0000_0000_0000 % 0x100) as u8;
    bytes[at + 7] = (n / 0x100_0000_0000_0000 % 0x100) as u8;
}

/// Writes the bytes of `source` from address `at` on.
pub fn put(bytes: &mut [u8], at: usize, source: &[u8])
    requires { at + length source.now ≤ length bytes.old }
    ensures { bytes.new ≡ overwrite at source.now bytes.old }
{
    bytes[at..at + source.len()].copy_from_slice(source);
}

/// Writes zero into the bytes from `from` up to `to`.
pub fn zero(bytes: &mut [u8], from: usize, to: usize)
    requires { to ≤ length bytes.old }
    ensures inside { (k : ℕ) → from ≤ k → k < to → slice_index bytes.new k ≡ 0 }
    ensures below { (k : ℕ) → k < from → slice_index bytes.new k ≡ slice_index bytes.old k }
    ensures above { (k : ℕ) → to ≤ k → slice_index bytes.new k ≡ slice_index bytes.old k }
{
    for i in from..to {
        bytes[i] = 0;
    }
}

/// Makes the bytes at least `length`, by zeros at their end. It takes memory only where they are fewer.
pub fn provide(bytes: &mut Vec<u8>, length: usize) -> Result<(), AllocError>
    ensures len { OnOk result (vec_len bytes.new ≡ max (vec_len bytes.old) length) }
    ensures same { (k : ℕ) → slice_index bytes.new.items k ≡ slice_index bytes.old.items k }
    ensures refused { OnErr result (StaysShort bytes.old length bytes.new) }
{
    if bytes.len() < length {
        bytes.resize(length, 0)?;
    }
    Ok(())
}

/// The law that bytes are below 256.
pub fn are_bytes(bytes: &[u8])
    ensures { (k : ℕ) → slice_index bytes.now k < 256 }
{
    let _bytes = bytes;
}
