//! The memory instance of a running module (4.2.8) and what memory instructions do to it (4.4.4).

// PERF: reads and writes of 8 to 64 bits are inlined into the interpreter's loop, each with one test of its bounds.

ghost use Rattle.std.specs.Prelude.{◌≡◌};
ghost use Rattle.wsyntax.specs.Execution.Store.{may_have};
ghost use Rattle.memory.specs.Buffered.{zeros};

use crate::bytes::{
    are_bytes, number_16, number_32, number_64, provide, put, put_8, put_16, put_32, put_64,
};
use crate::clean::CleanMem;
use crate::marks::{clear, mark, mark_all, provide_buffer};
use std::alloc::AllocError;
use std::marker::Model;
use wsyntax::{PAGE, PAGE_RANGE};

/// A memory instance: whole pages of bytes, its declared maximum, and the greatest number of pages that the
/// settings allow. Its buffer may have more bytes than it; those are zero. It marks the blocks that are written, so
/// that cleaning it costs what was written.
#[derive(Drop)]
pub struct LinearMemory {
    bytes: Vec<u8>,
    length: usize,
    marks: Vec<bool>,
    most: Option<u32>,
    pages: u32,
}

impl Model for LinearMemory {
    ghost use Rattle.std.specs.Prelude.{vec_len};
    ghost use Rattle.memory.specs.Buffered.{Buffered, front_of, IsBuffered};

    ghost Value = { Buffered };

    ghost view = { λ m. front_of m.bytes.items m.length m.most m.pages (vec_len m.bytes) };

    ghost invariant = { λ m. IsBuffered m.bytes.items m.marks.items m.length m.most m.pages };
}

/// Whether a memory may have `count` pages: no more than its declared maximum `most`, than 65,536, and than the setting `pages`.
fn allows(most: Option<u32>, pages: u32, count: u64) -> bool
    ensures { result ≡ may_have (zeros 0 most pages) count }
{
    let declared = match most {
        Some(most) => count <= u64::from(most),
        None => true,
    };
    declared && count <= u64::from(PAGE_RANGE) && count <= u64::from(pages)
}

impl LinearMemory {
    ghost use Rattle.std.specs.Prelude.{ℕ, ◌+◌, ◌*◌, ◌/◌, ◌-◌, ◌^◌, ◌<◌, ◌≤◌, true, max, length};
    ghost use Rattle.std.specs.Prelude.{IfOk, OnOk, IfErr, OnErr};
    ghost use Rattle.wsyntax.specs.Execution.Store.{page, read};
    ghost use Rattle.wsyntax.specs.Execution.Allocation.{overwrite};
    ghost use Rattle.wsyntax.specs.Execution.ConfigTyped.{MemoryTyped};
    ghost use Rattle.memory.specs.Buffered.{Writes, Grows, LacksRoomFor, Overwrites};

    /// A memory of `min` pages of zeros in the bytes that are lent, with the declared maximum `most` and the
    /// setting `pages`. It takes memory only where fewer bytes are lent than it needs; where memory is refused,
    /// what was lent comes back as it was.
    pub fn allocate(
        clean: CleanMem,
        min: u32,
        most: Option<u32>,
        pages: u32,
    ) -> Result<LinearMemory, CleanMem>
        requires { may_have (zeros min most pages) min ≡ true }
        ensures memory { IfOk result (λ m. m.memory ≡ zeros min most pages) }
        ensures room { IfOk result (λ m. m.room ≡ max clean (min * page)) }
        ensures refused { IfErr result (λ back. (back ≡ clean) × (clean < min * page)) }
    {
        let (mut bytes, mut marks) = clean.into_parts();
        let length = min as usize * PAGE;
        if provide_buffer(&mut bytes, &mut marks, length).is_err() {
            return Err(CleanMem::of(bytes, marks));
        }
        Ok(LinearMemory {
            bytes,
            length,
            marks,
            most,
            pages,
        })
    }

    /// The law that it is whole pages within its bounds, and that its buffer has room for them.
    pub fn typed(&self)
        ensures typed { MemoryTyped self.now.memory }
        ensures room { length self.now.memory.bytes ≤ self.now.room }
    {
        are_bytes(&self.bytes);
    }

    /// The number of its bytes.
    #[inline(always)]
    pub fn len(&self) -> usize
        ensures { result ≡ length self.now.memory.bytes }
    {
        self.length
    }

    /// The number of its pages.
    #[inline(always)]
    pub fn pages(&self) -> u32
        ensures { result ≡ length self.now.memory.bytes / page }
    {
        (self.length / PAGE) as u32
    }

    /// The byte at an address. `None` exactly where it lies past the end.
    #[inline(always)]
    pub fn read_8(&self, at: u64) -> Option<u8>
        requires { at < 2 ^ 33 }
        ensures { result ≡ read self.now.memory.bytes at 1 }
    {
        let at = at as usize;
        if at + 1 <= self.length {
            Some(self.bytes[at])
        } else {
            None
        }
    }

    /// The 16 bits from an address on, little-endian. `None` exactly where they reach past the end.
    #[inline(always)]
    pub fn read_16(&self, at: u64) -> Option<u16>
        requires { at < 2 ^ 33 }
        ensures { result ≡ read self.now.memory.bytes at 2 }
    {
        let at = at as usize;
        if at + 2 <= self.length {
            Some(number_16(&self.bytes, at))
        } else {
            None
        }
    }

    /// The 32 bits from an address on, little-endian. `None` exactly where they reach past the end.
    #[inline(always)]
    pub fn read_32(&self, at: u64) -> Option<u32>
        requires { at < 2 ^ 33 }
        ensures { result ≡ read self.now.memory.bytes at 4 }
    {
        let at = at as usize;
        if at + 4 <= self.length {
            Some(number_32(&self.bytes, at))
        } else {
            None
        }
    }

    /// The 64 bits from an address on, little-endian. `None` exactly where they reach past the end.
    #[inline(always)]
    pub fn read_64(&self, at: u64) -> Option<u64>
        requires { at < 2 ^ 33 }
        ensures { result ≡ read self.now.memory.bytes at 8 }
    {
        let at = at as usize;
        if at + 8 <= self.length {
            Some(number_64(&self.bytes, at))
        } else {
            None
        }
    }

    /// Writes the 8 lowest bits at an address. Where they reach past the end it answers false, and nothing changes.
    #[inline(always)]
    pub fn write_8(&mut self, at: u64, bits: u64) -> bool
        requires { at < 2 ^ 33 }
        ensures { Writes self.old at 1 bits result self.new }
    {
        let at = at as usize;
        if at + 1 > self.length {
            return false;
        }
        mark(&mut self.marks, at);
        put_8(&mut self.bytes, at, bits);
        true
    }

    /// Writes the 16 lowest bits at an address. Where they reach past the end it answers false, and nothing changes.
    #[inline(always)]
    pub fn write_16(&mut self, at: u64, bits: u64) -> bool
        requires { at < 2 ^ 33 }
        ensures { Writes self.old at 2 bits result self.new }
    {
        let at = at as usize;
        if at + 2 > self.length {
            return false;
        }
        mark(&mut self.marks, at);
        put_16(&mut self.bytes, at, bits);
        true
    }

    /// Writes the 32 lowest bits at an address. Where they reach past the end it answers false, and nothing changes.
    #[inline(always)]
    pub fn write_32(&mut self, at: u64, bits: u64) -> bool
        requires { at < 2 ^ 33 }
        ensures { Writes self.old at 4 bits result self.new }
    {
        let at = at as usize;
        if at + 4 > self.length {
            return false;
        }
        mark(&mut self.marks, at);
        put_32(&mut self.bytes, at, bits);
        true
    }

    /// Writes the 64 bits at an address. Where they reach past the end it answers false, and nothing changes.
    #[inline(always)]
    pub fn write_64(&mut self, at: u64, bits: u64) -> bool
        requires { at < 2 ^ 33 }
        ensures { Writes self.old at 8 bits result self.new }
    {
        let at = at as usize;
        if at + 8 > self.length {
            return false;
        }
        mark(&mut self.marks, at);
        put_64(&mut self.bytes, at, bits);
        true
    }

    /// Writes `bytes` from address `at` on, as a data segment does.
    pub fn overwrite(&mut self, at: u32, bytes: &[u8])
        requires { at + length bytes.now ≤ length self.old.memory.bytes }
        ensures { Overwrites self.old at bytes.now self.new }
    {
        let from = at as usize;
        mark_all(&mut self.marks, from, from + bytes.len());
        put(&mut self.bytes, from, bytes);
    }

    /// Grows by `more` pages of zeros, and answers the size before, in pages. `None` exactly where it may not have that
    /// many. It takes memory only where its buffer has too few bytes. An error says that memory was refused. In both of
    /// these cases nothing changes.
    pub fn grow(&mut self, more: u32) -> Result<Option<u32>, AllocError>
        ensures grown { IfOk result (λ size. Grows self.old.memory more size self.new.memory) }
        ensures room { OnOk result (self.new.room ≡ max self.old.room (length self.new.memory.bytes)) }
        ensures refused { OnErr result (self.new ≡ self.old) }
        ensures needed { OnErr result (LacksRoomFor self.old more) }
    {
        let size = self.length / PAGE;
        let count = size + more as usize;
        if !allows(self.most, self.pages, count as u64) {
            return Ok(None);
        }
        let length = count * PAGE;
        provide_buffer(&mut self.bytes, &mut self.marks, length)?;
        self.length = length;
        Ok(Some(size as u32))
    }

    /// Cleans it: writes zero into the blocks that were written, and nowhere else. The whole buffer is kept, and no
    /// memory is taken.
    pub fn close(self) -> CleanMem
        ensures { result ≡ self.room }
    {
        let LinearMemory {
            mut bytes,
            length,
            mut marks,
            most: _,
            pages: _,
        } = self;
        clear(&mut bytes, &mut marks, length);
        CleanMem::of(bytes, marks)
    }
}
