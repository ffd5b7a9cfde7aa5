//! The tree of ends says what comparing says.
use std::alloc::{AllocError, Global};
use std::test::Fail;
use wcontext::{Context, TypeList, TypePrefix, check_rules_before_code};
use wsyntax::ValType::{self, I32, I64};
use wsyntax::{FuncTypes, Module};

/// A list of `count` types, of which every `step`th from the first on is an i64 and all others are i32.
fn stepped(alloc: Global, count: usize, step: usize) -> Result<Vec<ValType>, AllocError> {
    let mut types = Vec::new(alloc);
    for i in 0..count {
        types.push(if i % step.max(1) == 0 { I64 } else { I32 })?;
    }
    Ok(types)
}

/// A list of 300 types, of which those at `positions` are i64 and all others are i32.
fn marked(alloc: Global, positions: &[usize]) -> Result<Vec<ValType>, AllocError> {
    let mut types = Vec::new(alloc);
    for i in 0..300 {
        types.push(if positions.contains(&i) { I64 } else { I32 })?;
    }
    Ok(types)
}

/// Function types whose parameters are long lists: some are ends of others, two are equal, one is too short for the tree, and of
/// two the fronts part and meet again.
fn long_lists(alloc: Global) -> Result<FuncTypes, AllocError> {
    let mut types = FuncTypes::new(alloc);
    for (count, step) in [
        (300, 2),
        (601, 2),
        (300, 3),
        (601, 1_000),
        (300, 2),
        (255, 2),
    ] {
        types.push(&stepped(alloc, count, step)?, &[])?;
    }
    types.push(&marked(alloc, &[0, 10, 251])?, &[])?;
    types.push(&marked(alloc, &[0, 34, 44])?, &[])?;
    Ok(types)
}

/// The first `count` parameters of that function type.
fn front_of(types: &FuncTypes, y: u32, count: u32) -> &[ValType] {
    match types.get(y as usize) {
        Some(signature) => &signature.params[..signature.params.len().min(count as usize)],
        None => &[],
    }
}

/// Whether the types of one front are an end of those of another, type by type.
fn ends_with(long: &[ValType], short: &[ValType]) -> bool {
    if short.len() > long.len() {
        return false;
    }
    let over = long.len() - short.len();
    (0..short.len()).all(|i| long[over + i] == short[i])
}

/// Whether the context says of two fronts what comparing says.
fn says_as_comparing(
    context: &Context,
    types: &FuncTypes,
    one: (u32, u32),
    other: (u32, u32),
) -> bool {
    let short = TypePrefix {
        list: TypeList::Params(one.0),
        count: one.1,
    };
    let long = TypePrefix {
        list: TypeList::Params(other.0),
        count: other.1,
    };
    let expected = ends_with(
        front_of(types, other.0, other.1),
        front_of(types, one.0, one.1),
    );
    context.is_suffix(short, long) == expected
}

const COUNTS: [u32; 6] = [254, 255, 256, 299, 300, 601];

/// The first two fronts of which the context does not say what comparing says.
fn differing(context: &Context, types: &FuncTypes) -> Option<((u32, u32), (u32, u32))> {
    for y in 0..8 {
        for z in 0..8 {
            for count in COUNTS {
                for more in COUNTS {
                    if !says_as_comparing(context, types, (y, count), (z, more)) {
                        return Some(((y, count), (z, more)));
                    }
                }
            }
        }
    }
    None
}

/// The bytes of a body: all of them are enough for a tree of all long lists, and 5,000 for the lists of 601 types alone.
static BODY: [u8; 10_000] = [0; 10_000];

#[test]
fn fronts_of_long_lists_are_ends_where_comparing_says_so(rt: HostRuntime) -> Result<(), Fail> {
    let types = long_lists(rt.alloc())?;
    for body in [&BODY[..0], &BODY[..5_000], &BODY[..]] {
        let mut module = Module::empty(rt.alloc());
        module.types = long_lists(rt.alloc())?;
        module.bodies.push(body)?;
        let (context, _) = check_rules_before_code(rt.alloc(), &module)?;
        let differing = differing(&context, &types);
        assert!(rt;
            differing.is_none(),
            "{} bytes: the first types of two lists: {differing:?}",
            body.len()
        );
    }
    Ok(())
}
