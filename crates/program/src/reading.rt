//! Reading of a source.
ghost use Rattle.std.specs.Prelude.{◌≡◌, ◌+◌, ◌<◌, ◌^◌, ℕ, List, [], ◌∷◌, IfOk, IfErr};
ghost use Rattle.program.specs.Sources.{ReadsPaths};
ghost use Rattle.program.specs.Reads.{IsRead, IsWant};

use crate::fault::ProgramFault;
use crate::source::{ReadFault, Source};
use std::alloc::Global;

/// The bytes of a path, or why the program ends without them. Of more bytes than the limit one past it is read, by which
/// the text is seen to be too large.
pub fn read_file<'a, S: Source>(
    alloc: Global,
    path: &'a str,
    limit: usize,
    source: &mut S,
) -> Result<Vec<u8>, ProgramFault<'a>>
    requires { limit + 1 < 2 ^ 64 }
    ensures known { IfOk result (λ bytes. IsRead limit (S.holds source.old path.entry.now) bytes.items) }
    ensures fault { IfErr result (IsWant path.entry.now) }
    ensures same { (other : List ℕ) → S.holds source.new other ≡ S.holds source.old other }
    ensures same_lists { (other : List ℕ) → S.lists source.new other ≡ S.lists source.old other }
    ensures logged { ReadsPaths (S.asked source.old) (S.asked source.new) (path.entry.now ∷ []) }
{
    match source.read(alloc, path, limit + 1) {
        Ok(bytes) => Ok(bytes),
        Err(ReadFault::Unreadable(reason)) => Err(ProgramFault::Unread { path, reason }),
        Err(ReadFault::Memory) => Err(ProgramFault::Memory),
    }
}
