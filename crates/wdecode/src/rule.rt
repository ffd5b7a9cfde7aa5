//! Data segments, asked one by one and not kept.
ghost use Rattle.std.specs.Prelude.{◌≡◌, ◌↔◌, IsTrue, IsErrOf, IfOk, List, Some, None, All};
ghost use Rattle.wsyntax.specs.Modules.{DataShape, data_shape};
ghost use Rattle.wsyntax.specs.Binary.Production.{whole_at};
ghost use Rattle.wsyntax.specs.Binary.Values.{vector_at as vector_of};
ghost use Rattle.wsyntax.specs.Binary.Sections.{data_segment};

use crate::fault::Fault;
use crate::sections::data_at;
use crate::values::u32_at;
use std::alloc::Global as Alloc;
use wsyntax::Data;

/// What is asked of each data segment.
pub trait SegmentRule {
    /// The rule allows the segment.
    ghost holds: { Self → DataShape → Type 0 };

    fn accepts(&self, segment: &Data<'_>) -> bool
        ensures { IsTrue result ↔ holds self.now (data_shape segment.now) };
}

/// Whether the rule accepts each data segment of a vector that fills bytes (5.1.3, 5.5.14). They are read one by one, and
/// none is kept; after one that is not accepted the others are still read, since they may be malformed.
pub(crate) fn each_passes<R: SegmentRule>(
    alloc: Alloc,
    rule: &R,
    bytes: &[u8],
) -> Result<bool, Fault>
    ensures found { IfOk result (λ b. (segments : List DataShape) × (whole_at (vector_of data_segment.read) bytes.now ≡ Some segments)
        × (IsTrue b ↔ All (R.holds rule.now) segments)) }
    ensures malformed { IsErrOf result Fault.Malformed → whole_at (vector_of data_segment.read) bytes.now ≡ None }
{
    let (count, mut rest) = u32_at(bytes)?;
    let mut passes = true;
    'each: for _ in 0..count {
        let (data, after) = data_at(alloc, rest)?;
        passes = passes && rule.accepts(&data);
        rest = after;
    }
    if rest.is_empty() {
        Ok(passes)
    } else {
        Err(Fault::Malformed)
    }
}
