//! Which build this is.

ghost use Rattle.c_api.specs.Builds.{HandsBuild};

use crate::status::OK;
use crate::text::hand_text;

/// Release, commit and kit. The dashes stand for the digits of the commit, which `packaging/release` writes into what is built.
const BUILD: &[u8] = b"gate 0.2.0 (commit ------------, rattle-kit-13f)";

/// Writes the text that says which build this is. 0: it is written, and its length; 75: it has `length` bytes, and there is no room
/// for it.
#[unsafe(no_mangle)]
pub extern "C" fn gate_build(out: &mut [u8], length: &mut usize) -> u32
    ensures { HandsBuild out.old out.new length.new result }
{
    hand_text(BUILD, OK, out, length)
}
