ghost use Rattle.std.specs.Prelude.{◌≡◌, length};
ghost use Rattle.batch_text.specs.Slices.{joined_calls};

use batch_text::Call;

/// The calls of a text, in slices.
#[derive(Drop)]
pub(crate) struct SlicedCalls<'t> {
    pub(crate) slices: Vec<Vec<Call<'t>>>,
    /// How many calls the slices have together.
    pub(crate) count: u32,
    pub(crate) ghost counted: { count ≡ length (joined_calls slices.items) },
}
