//! Memories whose bytes are all zero.

ghost use Rattle.std.specs.Prelude.{◌≡◌, ◌==◌, ℕ, vec_len};
ghost use Rattle.memory.specs.Zeros.{IsClean};

use std::alloc::Global;
use std::marker::Model;

/// A memory whose bytes are all zero, by its type. It has no clone, so it has one owner: it is lent for one
/// instance, and comes back when that is closed. With it goes the room for the marks of its blocks, none of which is
/// set. In contracts it is the number of its bytes.
#[derive(Drop)]
pub struct CleanMem {
    bytes: Vec<u8>,
    marks: Vec<bool>,
}

impl Model for CleanMem {
    ghost Value = { ℕ };

    ghost view = { λ m. vec_len m.bytes };

    ghost invariant = { λ m. IsClean m.bytes.items m.marks.items };
}

impl CleanMem {
    /// A memory of no bytes. It takes no memory.
    pub fn empty(alloc: Global) -> CleanMem
        ensures { result ≡ 0 }
    {
        CleanMem {
            bytes: Vec::new(alloc),
            marks: Vec::new(alloc),
        }
    }

    /// The number of its bytes.
    pub fn len(&self) -> usize
        ensures { result ≡ self.now }
    {
        self.bytes.len()
    }

    /// Whether it has no bytes.
    pub fn is_empty(&self) -> bool
        ensures { result ≡ (self.now == 0) }
    {
        self.bytes.is_empty()
    }

    /// The memory of these bytes, all of which are zero, and the marks of their blocks, none of which is set.
    pub(crate) fn of(bytes: Vec<u8>, marks: Vec<bool>) -> CleanMem
        requires { IsClean bytes.items marks.items }
        ensures { result ≡ vec_len bytes }
    {
        CleanMem { bytes, marks }
    }

    /// Its bytes and its marks.
    pub(crate) fn into_parts(self) -> (Vec<u8>, Vec<bool>)
        ensures clean { IsClean result.0.items result.1.items }
        ensures len { vec_len result.0 ≡ self }
    {
        (self.bytes, self.marks)
    }
}
