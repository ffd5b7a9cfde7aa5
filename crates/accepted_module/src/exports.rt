//! Exports, sorted by their names.
ghost use Rattle.std.specs.Prelude.{◌≡◌, ◌≢◌, IfOk, MatchOption, All, Contains, length};
ghost use Rattle.std.specs.List.{range_with_len};
ghost use Rattle.std.specs.List.Sorted.{IsPermutation};
ghost use Rattle.accepted_module.specs.Exports.{name_at, AreAscending};

use std::alloc::{AllocError, Global};
use wsyntax::Export;

/// The name of the export at that position; empty where there is none.
fn name_at<'a>(exports: &[Export<'a>], position: usize) -> &'a [u8]
    ensures { result.now ≡ name_at exports.now position }
{
    match exports.get(position) {
        Some(export) => export.name,
        None => &[],
    }
}

/// The positions of exports, in the order of their names. The time is near linear in the length of the names, whatever they are.
pub fn positions_by_name(alloc: Global, exports: &[Export<'_>]) -> Result<Vec<usize>, AllocError>
    ensures each { IfOk result (λ v. IsPermutation (range_with_len 0 (length exports.now)) v.items) }
    ensures ascending { IfOk result (λ v. AreAscending exports.now v.items) }
{
    let mut positions: Vec<usize> = (0..exports.len()).collect(alloc)?;
    positions.sort_unstable_by(|one, next| name_at(exports, *one).cmp(name_at(exports, *next)));
    Ok(positions)
}

/// The position of the export of that name.
pub(crate) fn position_of(exports: &[Export<'_>], positions: &[usize], name: &[u8]) -> Option<usize>
    requires ascending { AreAscending exports.now positions.now }
    ensures { MatchOption result (All (λ k. name_at exports.now k ≢ name.now) positions.now)
        (λ k. Contains positions.now k × (name_at exports.now k ≡ name.now)) }
{
    match positions.binary_search_by(|position| name_at(exports, *position).cmp(name)) {
        Ok(rank) => Some(positions[rank]),
        Err(_) => None,
    }
}
