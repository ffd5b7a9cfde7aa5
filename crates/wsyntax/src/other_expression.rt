ghost use Rattle.std.specs.Prelude.{◌≡◌, false};
ghost use Rattle.wsyntax.specs.Initials.{tokens_read, has_constant_form};

/// The expression at the front of `bytes`, which lie in the input: any other than one constant or one `global.get`. No
/// valid module has one as a first value or an offset (3.3.7.2), so nothing else is kept of it.
#[derive(Clone, Copy)]
pub struct OtherExpression<'a> {
    pub bytes: &'a [u8],
    pub ghost other: { has_constant_form (tokens_read bytes.now) ≡ false },
}
