//! What may go to another thread.

ghost use Rattle.std.specs.Prelude.{◌≡◌};

/// The value itself. All that stands behind a handle goes through here, so that the check proves `Send` of it: C may hand its
/// handle to another thread.
pub(crate) fn sendable<T: Send>(value: T) -> T
    ensures { result ≡ value }
{
    value
}
