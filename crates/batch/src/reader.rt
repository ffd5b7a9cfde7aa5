//! Pieces of what a reader has left.

ghost use Rattle.std.specs.Prelude.{◌<◌, length};
ghost use Rattle.batch.specs.Streams.{GivesPiece};

use crate::stream_fault::StreamFault;
use std::io::{ErrorKind, Read};

/// Reads some bytes to the front of `piece`. How many these are: none where the read was interrupted, and `None` at the end.
pub(crate) fn read_piece<F: Read>(
    file: &mut F,
    piece: &mut [u8],
) -> Result<Option<usize>, StreamFault>
    requires { 0 < length piece.old }
    ensures { GivesPiece (F.remaining file.old) (F.remaining file.new) piece.new result }
{
    match file.read(piece) {
        Ok(0) => Ok(None),
        Ok(count) => Ok(Some(count)),
        Err(error) => match error.kind() {
            ErrorKind::Interrupted => Ok(Some(0)),
            _ => Err(StreamFault::Read),
        },
    }
}
