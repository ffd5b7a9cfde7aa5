//! The offsets of segments, computed (4.5.4).

ghost use Rattle.std.specs.Prelude.{◌≡◌, map, All, IfOk};
ghost use Rattle.wsyntax.specs.Modules.{initial_tokens};
ghost use Rattle.wsyntax.specs.Execution.Start.{constant_in};
ghost use Rattle.accepted_module.specs.Segments.{IsOffset, element_offset, data_offset};

use std::alloc::{AllocError, Global};
use wsyntax::{ConstExpr, Data, Elements};

/// What an offset is: the number of one `i32.const`, without sign; 0 of an offset that reads an imported global.
pub(crate) fn offset_of(offset: &ConstExpr<'_>) -> u32
    requires { IsOffset offset.now }
    ensures { result ≡ constant_in (initial_tokens offset.now) }
{
    match *offset {
        ConstExpr::I32Const(number) => number.cast_unsigned(),
        _ => 0,
    }
}

/// The offset of each element segment in its table.
pub(crate) fn offsets_of_elements(
    alloc: Global,
    segments: &Elements<'_>,
) -> Result<Vec<u32>, AllocError>
    requires { All (λ s. IsOffset s.offset) segments.now }
    ensures { IfOk result (λ v. v.items ≡ map element_offset segments.now) }
{
    let mut offsets = Vec::new(alloc);
    for index in 0..segments.len() {
        let Some(segment) = segments.get(index) else {
            unreachable!()
        };
        offsets.push(offset_of(segment.offset))?;
    }
    Ok(offsets)
}

/// The offset of each data segment in its memory.
pub(crate) fn offsets_of_data(alloc: Global, segments: &[Data<'_>]) -> Result<Vec<u32>, AllocError>
    requires { All (λ s. IsOffset s.offset) segments.now }
    ensures { IfOk result (λ v. v.items ≡ map data_offset segments.now) }
{
    let mut offsets = Vec::new(alloc);
    for segment in segments {
        offsets.push(offset_of(&segment.offset))?;
    }
    Ok(offsets)
}
