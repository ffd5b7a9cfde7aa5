//! Where the program reads modules and calls from.
ghost use Rattle.std.specs.Prelude.{◌≡◌, ◌≤◌, ℕ, List, [], ◌∷◌, Option, IfOk, IfSome, IsNone, None, Some, map, string_bytes, take, vec_len};
ghost use Rattle.program.specs.Sources.{ReadsPaths, reason_text};

use std::alloc::{AllocError, Global};
use std::fmt;
use std::fmt::{Display, Formatter};
use std::io::Read;

/// Why a path cannot be read.
#[derive(Clone, Copy, Debug, PartialEq, Eq)]
pub enum Reason {
    /// There is no file of this path.
    Missing,
    /// It is a folder.
    Folder,
    /// The system denies it.
    Denied,
    /// There are too many links on the way, or they go in a circle.
    Links,
    /// What stands before a `/` is no folder.
    NoFolder,
    /// No file can have this path.
    BadName,
    /// Anything else.
    Failed,
}

impl Reason {
    /// The reason in words.
    pub fn text(self) -> &'static str
        ensures { result.now ≡ reason_text self }
    {
        match self {
            Reason::Missing => "no such file",
            Reason::Folder => "a folder",
            Reason::Denied => "permission denied",
            Reason::Links => "too many links",
            Reason::NoFolder => "a part of the path is no folder",
            Reason::BadName => "no file can have this name",
            Reason::Failed => "a read failed",
        }
    }
}

impl Display for Reason {
    fn fmt<W: fmt::Write>(&self, f: &mut Formatter<W>) -> fmt::Result {
        f.write_str(self.text())
    }
}

/// Why a path gives no bytes.
#[derive(Clone, Copy, PartialEq, Eq)]
pub enum ReadFault {
    /// There is nothing to read, or a read failed.
    Unreadable(Reason),
    /// A growth of memory was refused.
    Memory,
}

/// What holds bytes under paths.
pub trait Source {
    /// The bytes that a path holds, where they are known.
    ghost holds: { Self → List ℕ → Option (List ℕ) } = { λ _ _. None };

    /// The paths that were asked for so far, in order, where they are known.
    ghost asked: { Self → Option (List (List ℕ)) } = { λ _. None };

    /// The files that a path stands for, where they are known.
    ghost lists: { Self → List ℕ → Option (List (List ℕ)) } = { λ _ _. None };

    /// The bytes of a path, `most` of them where it holds more.
    fn read(&mut self, alloc: Global, path: &str, most: usize) -> Result<Vec<u8>, ReadFault>
        ensures most { IfOk result (λ bytes. vec_len bytes ≤ most) }
        ensures known { IfOk result (λ bytes. IfSome (holds self.old path.now) (λ held. bytes.items ≡ take most held)) }
        ensures unreadable { (reason : Reason) → result ≡ Err (ReadFault.Unreadable reason) → IsNone (holds self.old path.now) }
        ensures same { (other : List ℕ) → holds self.new other ≡ holds self.old other }
        ensures same_lists { (other : List ℕ) → lists self.new other ≡ lists self.old other }
        ensures logged { ReadsPaths (asked self.old) (asked self.new) (path.now ∷ []) };

    /// What gives the bytes of a path, read after read.
    type File: Read + Drop;

    /// Opens a path, for it to be read while its bytes are answered.
    fn open(&mut self, path: &str) -> Result<Self::File, ReadFault>
        ensures known { IfOk result (λ file. IfSome (holds self.old path.now) (λ held. Self.File.remaining file ≡ Some held)) }
        ensures unreadable { (reason : Reason) → result ≡ Err (ReadFault.Unreadable reason) → IsNone (holds self.old path.now) }
        ensures same { (other : List ℕ) → holds self.new other ≡ holds self.old other }
        ensures same_lists { (other : List ℕ) → lists self.new other ≡ lists self.old other }
        ensures logged { ReadsPaths (asked self.old) (asked self.new) (path.now ∷ []) };

    /// The files that a path stands for: of a folder those below it whose names end with `.wasm`, in the order of their paths;
    /// of any other path itself.
    fn list(&mut self, alloc: Global, path: &str) -> Result<Vec<String>, AllocError>
        ensures known { IfOk result (λ files. IfSome (lists self.old path.now) (λ held. map string_bytes files.items ≡ held)) }
        ensures same { (other : List ℕ) → holds self.new other ≡ holds self.old other }
        ensures same_lists { (other : List ℕ) → lists self.new other ≡ lists self.old other }
        ensures logged { ReadsPaths (asked self.old) (asked self.new) [] };
}
