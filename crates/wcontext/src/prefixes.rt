//! Whether the types of one prefix of a list are a suffix of those of another.
ghost use Rattle.std.specs.Prelude.{◌≡◌, true, length, take, IfSome};
ghost use Rattle.wcontext.specs.Lists.{prefix_of, IsSuffix};

use crate::context::Context;
use crate::lists::TypePrefix;
use crate::tuning::LONG;
use wsyntax::ValType;

/// The first `count` types, or all where there are fewer.
#[inline]
fn first_of(types: &[ValType], count: u32) -> &[ValType]
    ensures { result.now ≡ take count types.now }
{
    &types[..types.len().min(count as usize)]
}

/// Whether the types of `short` are a suffix of those of `long`, by comparing them.
fn ends_with(long: &[ValType], short: &[ValType]) -> bool
    ensures { result ≡ true → IsSuffix short.now long.now }
{
    if short.len() > long.len() {
        return false;
    }
    long[long.len() - short.len()..] == short[..]
}

impl Context {
    /// What the suffix tree answers, where it knows both prefixes, which have that many types.
    #[inline]
    fn known_suffix(
        &self,
        short: TypePrefix,
        short_count: usize,
        long: TypePrefix,
        long_count: usize,
    ) -> Option<bool>
        requires short { short_count ≡ length (prefix_of self.now.context.types short) }
        requires long { long_count ≡ length (prefix_of self.now.context.types long) }
        ensures { IfSome result (λ answer. answer ≡ true →
            IsSuffix (prefix_of self.now.context.types short) (prefix_of self.now.context.types long)) }
    {
        let tree = self.ends.as_ref()?;
        tree.has_suffix(short.list, short_count, long.list, long_count)
    }

    /// Whether the types of `short` are a suffix of those of `long`. It takes constant time, but where a prefix has fewer
    /// than 256 types, or where the bodies are too short to ask much: then they are compared. No contract says that `false` is
    /// right.
    pub fn is_suffix(&self, short: TypePrefix, long: TypePrefix) -> bool
        ensures { result ≡ true → IsSuffix (prefix_of self.now.context.types short) (prefix_of self.now.context.types long) }
    {
        let short_types = first_of(self.list(short.list), short.count);
        let long_types = first_of(self.list(long.list), long.count);
        if short_types.len() >= LONG && long_types.len() >= short_types.len() {
            let known = self.known_suffix(short, short_types.len(), long, long_types.len());
            if let Some(answer) = known {
                return answer;
            }
        }
        ends_with(long_types, short_types)
    }
}
