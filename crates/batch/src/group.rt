ghost use Rattle.std.specs.Prelude.{◌<◌, ◌+◌, ◌^◌, length};

use batch_text::Call;

/// Some consecutive calls of a batch.
#[derive(Clone, Copy)]
pub(crate) struct Group<'s, 't> {
    pub(crate) calls: &'s [Call<'t>],
    /// The index of the first of them.
    pub(crate) first: u32,
    pub(crate) ghost few: { first + length calls.now < 2 ^ 32 },
}
