ghost use Rattle.std.specs.Prelude.{◌≡◌, [], option_map};
ghost use Rattle.wsyntax.specs.Validation.Context.{block_sig};
ghost use Rattle.wcontext.specs.Lists.{pair_type};

use crate::locals::Locals;
use wcontext::{Context, ListPair, TypeList};
use wsyntax::{BlockType, ValType};

/// What the instructions of one body look up (3.4.1).
#[derive(Drop)]
pub(crate) struct Scope<'a> {
    pub(crate) context: &'a Context,
    pub(crate) locals: Locals<'a>,
    pub(crate) results: TypeList,
}

static NONE: [ValType; 0] = [];

/// The list of no type.
#[inline]
pub(crate) fn none() -> &'static [ValType]
    ensures { result.now ≡ [] }
{
    &NONE
}

/// The function type that a block type stands for; `None` where it names none.
#[inline]
pub(crate) fn block_signature(context: &Context, block: BlockType) -> Option<ListPair>
    ensures { option_map (pair_type context.now.context.types) result ≡ block_sig context.now.context.types block }
{
    match block {
        BlockType::Empty => Some(ListPair {
            params: TypeList::Nothing,
            results: TypeList::Nothing,
        }),
        BlockType::Value(t) => Some(ListPair {
            params: TypeList::Nothing,
            results: TypeList::One(t),
        }),
        BlockType::Index(y) => context.lists(y),
    }
}
