ghost use Rattle.std.specs.Prelude.{◌≡◌, take};
ghost use Rattle.wsyntax.specs.Types.{same_type};

use wsyntax::ValType;

/// Whether two value types are the same.
#[inline]
pub(crate) fn is_same(a: ValType, b: ValType) -> bool
    ensures { result ≡ same_type a b }
{
    a as u8 == b as u8
}

/// The first `count` types, or all where there are fewer.
#[inline]
pub(crate) fn first_of(types: &[ValType], count: usize) -> &[ValType]
    ensures { result.now ≡ take count types.now }
{
    if count < types.len() {
        &types[..count]
    } else {
        types
    }
}
