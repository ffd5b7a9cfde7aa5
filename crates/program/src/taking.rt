//! Reading of the files of one round.
ghost use Rattle.std.specs.Prelude.{◌≡◌, ◌≤◌, ◌<◌, ℕ, List, [], ◌∷◌, IfOk, IfErr, length, map, take};
ghost use Rattle.program.specs.Sources.{ReadsPaths};
ghost use Rattle.program.specs.FileLines.{AreTaken, IsTaken, taken_bytes};

use crate::source::{ReadFault, Reason, Source};
use crate::tuning::{ROUND_BYTES, ROUND_FILES};
use std::alloc::{AllocError, Global};
use wsyntax::MODULE_LIMIT;

/// What is read of a file.
#[derive(Drop)]
pub enum Taken {
    Bytes(Vec<u8>),
    Unread(Reason),
}

impl Taken {
    /// The bytes that are judged: none of a file that cannot be read.
    pub fn bytes(&self) -> &[u8]
        ensures { result.now ≡ taken_bytes self.now }
    {
        match self {
            Taken::Bytes(bytes) => bytes.as_slice(),
            Taken::Unread(_) => &[],
        }
    }
}

/// What is read of one file: of more bytes than a module may have one more than that.
fn take_file<S: Source>(alloc: Global, name: &str, source: &mut S) -> Result<Taken, AllocError>
    ensures taken { IfOk result (IsTaken (S.holds source.old name.now)) }
    ensures same { (other : List ℕ) → S.holds source.new other ≡ S.holds source.old other }
    ensures logged { ReadsPaths (S.asked source.old) (S.asked source.new) (name.now ∷ []) }
{
    match source.read(alloc, name, MODULE_LIMIT + 1) {
        Ok(bytes) => Ok(Taken::Bytes(bytes)),
        Err(ReadFault::Unreadable(reason)) => Ok(Taken::Unread(reason)),
        Err(ReadFault::Memory) => Err(AllocError),
    }
}

/// Reads files from the first on, until there are enough for a round: one at least, where there is one.
pub fn take_round<S: Source>(
    alloc: Global,
    names: &[&str],
    source: &mut S,
) -> Result<Vec<Taken>, AllocError>
    ensures taken { IfOk result (λ ts. AreTaken (S.holds source.old) (take (length ts.items) (map (λ n. n.now) names.now)) ts.items) }
    ensures within { IfOk result (λ ts. length ts.items ≤ length names.now) }
    ensures few { IfOk result (λ ts. length ts.items ≤ 4096) }
    ensures some { IfOk result (λ ts. 0 < length names.now → 0 < length ts.items) }
    ensures same { (other : List ℕ) → S.holds source.new other ≡ S.holds source.old other }
    ensures logged { IfOk result (λ ts. ReadsPaths
        (S.asked source.old) (S.asked source.new) (take (length ts.items) (map (λ n. n.now) names.now))) }
    ensures begun { IfErr result (λ _. (k : ℕ) × ReadsPaths
        (S.asked source.old) (S.asked source.new) (take k (map (λ n. n.now) names.now))) }
{
    let mut taken = Vec::new(alloc);
    let mut room = ROUND_BYTES;
    for i in 0..names.len() {
        let one = take_file(alloc, names[i], source)?;
        room = room.saturating_sub(one.bytes().len());
        taken.push(one)?;
        if room == 0 || i + 1 == ROUND_FILES {
            return Ok(taken);
        }
    }
    Ok(taken)
}
