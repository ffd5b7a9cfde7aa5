//! Bytes of the memory of an instance, for a host between calls.

ghost use Rattle.std.specs.Prelude.{◌≡◌, ◌+◌, ◌≤◌, nat_le, length, take, drop};
ghost use Rattle.wsyntax.specs.Execution.Allocation.{overwrite};
ghost use Rattle.interpreter.specs.Seen.{seen};
ghost use Rattle.interpreter.specs.Buffers.{room_with};
ghost use Rattle.wstore.specs.Buffers.{with_bytes};
ghost use Rattle.wstore.specs.Bytes.{size_in, ReadsBytes, StorePuts};
ghost use Rattle.wstore.specs.Views.{KeepsMarks};

use crate::instance::Instance;
use memory::LinearMemory;

/// Whether `count` bytes from address `at` on lie within the memory.
fn has_bytes(memory: &LinearMemory, at: u64, count: usize) -> bool
    ensures { result ≡ nat_le (at + count) (length memory.now.memory.bytes) }
{
    let size = memory.len() as u64;
    at <= size && count as u64 <= size - at
}

/// Copies the bytes from address `at` on, as many as there is room for.
fn copy_out(memory: &LinearMemory, at: u64, out: &mut [u8])
    requires { at + length out.old ≤ length memory.now.memory.bytes }
    ensures { out.new ≡ take (length out.old) (drop at memory.now.memory.bytes) }
{
    memory.typed();
    for position in 0..out.len() {
        let Some(byte) = memory.read_8(at + position as u64) else {
            unreachable!()
        };
        out[position] = byte;
    }
}

/// Writes the bytes from address `at` on.
fn copy_in(memory: &mut LinearMemory, at: u64, bytes: &[u8])
    requires { at + length bytes.now ≤ length memory.old.memory.bytes }
    ensures { memory.new ≡ with_bytes memory.old (overwrite at bytes.now memory.old.memory.bytes) }
{
    memory.typed();
    // An address of more than 32 bits is the end of the greatest memory, where no byte fits.
    if let Ok(address) = u32::try_from(at) {
        memory.overwrite(address, bytes);
    }
}

impl<'a> Instance<'a> {
    /// The number of bytes of its memory; 0 where it has none.
    pub fn memory_size(&self) -> u64
        ensures { result ≡ size_in (seen self.now.parts).memory }
    {
        match &self.parts.memory {
            Some(memory) => memory.len() as u64,
            None => 0,
        }
    }

    /// Copies the bytes of its memory from address `at` on, as many as there is room for. Where they reach past the end, or where it
    /// has no memory, it answers false, and `out` is as it was. It asks for no memory.
    pub fn read_bytes(&self, at: u64, out: &mut [u8]) -> bool
        ensures { ReadsBytes (seen self.now.parts).memory at out.old result out.new }
    {
        let Some(memory) = &self.parts.memory else {
            return false;
        };
        if !has_bytes(memory, at, out.len()) {
            return false;
        }
        copy_out(memory, at, out);
        true
    }

    /// Writes the bytes to its memory from address `at` on. Where they reach past the end, or where it has no memory, it answers
    /// false, and nothing changes. It asks for no memory.
    pub fn write_bytes(&mut self, at: u64, bytes: &[u8]) -> bool
        ensures memory { StorePuts (seen self.old.parts) at bytes.now result (seen self.new.parts) }
        ensures room { room_with self.new.parts.memory self.new.lent ≡ room_with self.old.parts.memory self.old.lent }
        ensures marks { KeepsMarks self.old self.new }
    {
        let Some(memory) = &mut self.parts.memory else {
            return false;
        };
        if !has_bytes(memory, at, bytes.len()) {
            return false;
        }
        copy_in(memory, at, bytes);
        memory.typed();
        true
    }
}
