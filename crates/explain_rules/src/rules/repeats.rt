//! Two exports of one name, found in the order of their names. What is found is proposed: who asks sees to it that the exports before the
//! later one have different names.

use super::exports::name_of;
use accepted_module::positions_by_name;
use std::alloc::{AllocError, Global};
use wsyntax::Export;

/// Two exports of one name, by their positions.
#[derive(Clone, Copy)]
pub(crate) struct Repeat {
    pub(crate) later: usize,
    pub(crate) earlier: usize,
}

/// The first two of some exports of one name, by their positions.
fn first_two(positions: &[usize]) -> Option<Repeat> {
    let earlier = *positions.iter().min()?;
    let later = *positions
        .iter()
        .filter(|position| **position > earlier)
        .min()?;
    Some(Repeat { later, earlier })
}

/// The first export that has the name of an earlier one, and that one.
pub(crate) fn proposed(
    alloc: Global,
    exports: &[Export<'_>],
) -> Result<Option<Repeat>, AllocError> {
    let positions = positions_by_name(alloc, exports)?;
    Ok(
        positions
            .chunk_by(|one, other| name_of(exports, *one) == name_of(exports, *other))
            .filter_map(first_two)
            .min_by_key(|repeat| repeat.later),
    )
}
