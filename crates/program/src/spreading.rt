//! The files that names stand for.
ghost use Rattle.std.specs.Prelude.{◌≡◌, ℕ, List, [], true, IfOk, OnOk, map, string_bytes};
ghost use Rattle.program.specs.Sources.{ReadsPaths};
ghost use Rattle.program.specs.NameLists.{IsSpread};

use crate::source::Source;
use std::alloc::{AllocError, Global};

/// The files that these names stand for, in their order.
pub fn spread<S: Source>(
    alloc: Global,
    names: &[&str],
    source: &mut S,
) -> Result<Vec<String>, AllocError>
    ensures spread { IfOk result (λ files. IsSpread true (S.lists source.old) (map (λ n. n.now) names.now) (map string_bytes files.items)) }
    ensures same { (other : List ℕ) → S.holds source.new other ≡ S.holds source.old other }
    ensures logged { ReadsPaths (S.asked source.old) (S.asked source.new) [] }
{
    let mut files = Vec::new(alloc);
    for name in names {
        let mut here = source.list(alloc, name)?;
        files.append(&mut here)?;
    }
    Ok(files)
}

/// The names of these files as string slices.
pub fn texts_of<'a>(alloc: Global, files: &'a [String]) -> Result<Vec<&'a str>, AllocError>
    ensures { IfOk result (λ texts. map (λ t. t.now) texts.items ≡ map string_bytes files.now) }
{
    let mut texts = Vec::with_capacity(alloc, files.len())?;
    for file in files {
        texts.push(file.as_str())?;
    }
    Ok(texts)
}
