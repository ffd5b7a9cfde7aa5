//! What stands behind a key in the text of an explanation.

use std::alloc::{AllocError, Global};

/// What the first line with that key says, where there is one. The key is padded to its column.
pub fn first_behind(alloc: Global, text: &str, key: &str) -> Result<Option<String>, AllocError> {
    for line in text.split('\n') {
        if let Some(said) = line.strip_prefix(key) {
            return Ok(Some(String::from_str(alloc, said)?));
        }
    }
    Ok(None)
}

/// What each line with that key says.
pub fn all_behind(alloc: Global, text: &str, key: &str) -> Result<Vec<String>, AllocError> {
    let mut found = Vec::new(alloc);
    for line in text.split('\n') {
        if let Some(said) = line.strip_prefix(key) {
            found.push(String::from_str(alloc, said)?)?;
        }
    }
    Ok(found)
}
