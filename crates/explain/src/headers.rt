//! What bytes are that spell no module, as far as their first bytes tell.
ghost use Rattle.explain.specs.Headers.{IsOther, TellsHeader};

use crate::forms::form_of;
use explanation::NoModule;

/// The magic and the version of a module (5.5.15).
const HEADER: [u8; 8] = [0x00, 0x61, 0x73, 0x6D, 0x01, 0x00, 0x00, 0x00];

/// How many bytes the magic is.
const MAGIC: usize = 4;

/// That byte of the bytes, which is another than in the header of a module.
fn other_byte(bytes: &[u8], at: usize, found: u8) -> NoModule
    requires { IsOther bytes.now at found }
    ensures { TellsHeader bytes.now result }
{
    let form = form_of(bytes);
    if at < MAGIC {
        NoModule::Magic { at, found, form }
    } else {
        NoModule::Version { at, found, form }
    }
}

/// What bytes are that spell no module: the first that is another than in the header of a module.
pub(crate) fn no_module(bytes: &[u8]) -> NoModule
    ensures { TellsHeader bytes.now result }
{
    for at in 0..HEADER.len() {
        let Some(found) = bytes.get(at) else {
            return NoModule::Short;
        };
        if *found != HEADER[at] {
            return other_byte(bytes, at, *found);
        }
    }
    NoModule::Sections {
        location: None,
        sign: None,
    }
}
