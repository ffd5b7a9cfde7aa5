// Modules that are long enough for many workers.
use std::alloc::{AllocError, Global};

/// The head of a custom section of `ZEROS` bytes (5.5.3).
const HEAD: [u8; 4] = [0x00, 0x80, 0x80, 0x10];

const ZEROS: usize = 262_144;

/// The module with a custom section of zeros at its end. It has 4,096 bytes for each of 64 workers, so that all of them may
/// start.
pub fn lengthened(alloc: Global, module: &[u8]) -> Result<Vec<u8>, AllocError> {
    let mut bytes = module.to_vec(alloc)?;
    bytes.extend_from_slice(&HEAD)?;
    let end = bytes.len().saturating_add(ZEROS);
    bytes.resize(end, 0)?;
    Ok(bytes)
}
