//! Texts into buffers of the caller.

ghost use Rattle.c_api.specs.Texts.{Hands};

use crate::status::SHORT_BUFFER;

/// Writes a text, where there is room for it, and its length. This status, or that the buffer is short.
pub(crate) fn hand_text(text: &[u8], status: u32, out: &mut [u8], length: &mut usize) -> u32
    ensures { Hands text.now status out.old out.new length.new result }
{
    *length = text.len();
    if text.len() > out.len() {
        return SHORT_BUFFER;
    }
    out[..text.len()].copy_from_slice(text);
    status
}
