//! What the functions answer: `gate_status` of gate.h.

ghost use Rattle.std.specs.Prelude.{◌≡◌};
ghost use Rattle.c_api.specs.Statuses.{code_of};

use batch::Status;

/// The module is accepted; the text, the handle or the end is written.
pub(crate) const OK: u32 = 0;
/// The module is refused, and the verdict or the text says why.
pub(crate) const MODULE_REFUSED: u32 = 2;
/// The text of calls is refused, and the text says why.
pub(crate) const CALLS_REFUSED: u32 = 3;
/// There is no such export or function.
pub(crate) const NOTHING: u32 = 4;
/// A limit is out of its range, or fields are of no verdict or value.
pub(crate) const BAD_ARGUMENT: u32 = 64;
/// An allocation was refused that the function cannot do without.
pub(crate) const NO_MEMORY: u32 = 70;
/// The buffer is shorter than the text.
pub(crate) const SHORT_BUFFER: u32 = 75;
/// Bytes do not lie in the memory of an instance.
pub(crate) const OUTSIDE: u32 = 80;
/// There is no instance.
pub(crate) const NO_INSTANCE: u32 = 81;
/// No global is exported under that name.
pub(crate) const NO_GLOBAL: u32 = 82;

/// The code of the status of an answer.
pub(crate) fn status_code(status: Status) -> u32
    ensures { result ≡ code_of status }
{
    match status {
        Status::Good => OK,
        Status::ModuleRefused => MODULE_REFUSED,
        Status::CallsRefused => CALLS_REFUSED,
    }
}
