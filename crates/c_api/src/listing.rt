//! What C calls for the list of what a module imports and exports.

ghost use Rattle.std.specs.Prelude.{IfOk, string_bytes};
ghost use Rattle.c_api.specs.Listed.{HandsList, IsList};

use crate::settings::GateSettings;
use crate::status::{BAD_ARGUMENT, MODULE_REFUSED, NO_MEMORY, OK};
use crate::text::hand_text;
use batch::verdict_line;
use explain::text_of_exports;
use std::alloc::{AllocError, Global};
use verdict::judge_alone;

/// A list, and the status that goes with it.
#[derive(Drop)]
struct Listed {
    text: String,
    status: u32,
}

/// The list of these bytes, where a memory may have at most `pages` pages.
fn list_of(alloc: Global, bytes: &[u8], pages: u32) -> Result<Listed, AllocError>
    ensures { IfOk result (λ listed. IsList bytes.now pages (string_bytes listed.text) listed.status) }
{
    match judge_alone(alloc, bytes) {
        Ok(accepted) => {
            let text = text_of_exports(alloc, bytes, &accepted, pages)?;
            Ok(Listed { text, status: OK })
        }
        Err(refusal) => {
            let text = verdict_line(alloc, Err(refusal))?;
            Ok(Listed {
                text,
                status: MODULE_REFUSED,
            })
        }
    }
}

/// Judges a module, and writes the list of what it exports, or its verdict line where it is refused. 0: it is accepted; 2: it is refused;
/// either way the text is written, and its length. 64: a limit is out of its range; 70: nothing is written; 75: the text has `length`
/// bytes, and there is no room for it.
#[unsafe(no_mangle)]
pub extern "C" fn gate_exports_text(
    alloc: Global,
    bytes: &[u8],
    settings: &GateSettings,
    out: &mut [u8],
    length: &mut usize,
) -> u32
    ensures { HandsList bytes.now settings.now out.old out.new length.old length.new result }
{
    let Some(limits) = settings.settings() else {
        return BAD_ARGUMENT;
    };
    match list_of(alloc, bytes, limits.pages()) {
        Ok(listed) => hand_text(listed.text.as_bytes(), listed.status, out, length),
        Err(_) => NO_MEMORY,
    }
}
