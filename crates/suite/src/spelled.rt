//! Bytes and texts as the tables spell them.
use anyhow::{Result, anyhow};
use std::alloc::{AllocError, Global};

/// Bytes in hexadecimal, with blanks between words; `xNN*K` stands for K times the bytes NN.
pub fn read_bytes(alloc: Global, text: &str) -> Result<Vec<u8>> {
    let mut bytes = Vec::new(alloc);
    for word in text.split_whitespace() {
        match word.strip_prefix('x') {
            None => bytes.extend_from_slice(&hex::decode(alloc, word)?)?,
            Some(run) => add_run(&mut bytes, alloc, run)?,
        }
    }
    Ok(bytes)
}

/// `NN*K`: K times the bytes NN.
fn add_run(bytes: &mut Vec<u8>, alloc: Global, run: &str) -> Result<()> {
    let (part, times) = run.split_once('*').ok_or_else(|| anyhow!("no number"))?;
    let part = hex::decode(alloc, part)?;
    for _ in 0..times.parse::<u32>()? {
        bytes.extend_from_slice(&part)?;
    }
    Ok(())
}

/// Text in which `\t` stands for a tab and `\n` for a newline.
pub fn read_text(alloc: Global, text: &str) -> Result<String, AllocError> {
    let with_tabs = text.replace(alloc, "\\t", "\t")?;
    with_tabs.as_str().replace(alloc, "\\n", "\n")
}
