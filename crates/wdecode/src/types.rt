//! Types (5.3).
ghost use Rattle.std.specs.Prelude.{◌≡◌, ℕ, List, Option, map};
ghost use Rattle.wdecode.specs.Gives.{Gives};
ghost use Rattle.wdecode.specs.Held.{type_of};
ghost use Rattle.wsyntax.specs.declared.types.ValType.{ValType as ValTypeShape};
ghost use Rattle.wsyntax.specs.declared.types.Limits.{Limits as LimitsShape};
ghost use Rattle.wsyntax.specs.declared.module.Table.{Table as TableShape};
ghost use Rattle.wsyntax.specs.Binary.Production.{given, ◌>>=◌ as followed_by, times_at as times_of, whole_at};
ghost use Rattle.wsyntax.specs.Binary.Values.{s33, vector_at as vector_of};
ghost use Rattle.wsyntax.specs.Binary.Types.{val_type, block_type, index_of, func_type, limits, table_type, global_type};

use crate::fault::Fault;
use crate::values::{Item, u32_at, vector_at};
use std::alloc::Global;
use wsyntax::{BlockType, FuncTypes, GlobalType, Limits, Table, ValType};

/// A value type (5.3.1).
#[inline(always)]
#[tactic(auto, unfolding(wsyntax::specs::Binary::Types::val_type))]
pub fn val_type_at(bytes: &[u8]) -> Result<(ValType, &[u8]), Fault>
    ensures { Gives (λ x. (x.0, x.1.now)) result (val_type.read bytes.now) }
{
    match bytes {
        [0x7F, rest @ ..] => Ok((ValType::I32, rest)),
        [0x7E, rest @ ..] => Ok((ValType::I64, rest)),
        [0x7D, rest @ ..] => Ok((ValType::F32, rest)),
        [0x7C, rest @ ..] => Ok((ValType::F64, rest)),
        _ => Err(Fault::Malformed),
    }
}

/// The index of a type as a block type: a number s33 that is not negative (5.4.1 of Core 2.0).
#[inline(never)]
fn type_index_at(bytes: &[u8]) -> Result<(BlockType, &[u8]), Fault>
    ensures { Gives (λ x. (x.0, x.1.now)) result ((followed_by s33 (λ z. given (index_of z))).read bytes.now) }
{
    let Some((index, rest)) = wnum::front_s33(bytes) else {
        return Err(Fault::Malformed);
    };
    if index < 0 {
        return Err(Fault::Malformed);
    }
    Ok((BlockType::Index(index as u32), rest))
}

/// A block type (5.3.2, and 5.4.1 of Core 2.0): empty, one value type, or the index of a type.
#[inline(always)]
#[tactic(auto, unfolding(wsyntax::specs::Binary::Types::block_type))]
pub fn block_type_at(bytes: &[u8]) -> Result<(BlockType, &[u8]), Fault>
    ensures { Gives (λ x. (x.0, x.1.now)) result (block_type.read bytes.now) }
{
    match bytes {
        [0x40, rest @ ..] => Ok((BlockType::Empty, rest)),
        [0x7F, rest @ ..] => Ok((BlockType::Value(ValType::I32), rest)),
        [0x7E, rest @ ..] => Ok((BlockType::Value(ValType::I64), rest)),
        [0x7D, rest @ ..] => Ok((BlockType::Value(ValType::F32), rest)),
        [0x7C, rest @ ..] => Ok((BlockType::Value(ValType::F64), rest)),
        _ => type_index_at(bytes),
    }
}

/// The parameters and the results of a function type (5.3.3), and the bytes after it.
#[tactic(auto, unfolding(wsyntax::specs::Binary::Types::func_type))]
fn func_type_at(alloc: Global, bytes: &[u8]) -> Result<(Vec<ValType>, Vec<ValType>, &[u8]), Fault>
    ensures { Gives (λ x. (type_of x.0.items x.1.items, x.2.now)) result (func_type.read bytes.now) }
{
    let [0x60, rest @ ..] = bytes else {
        return Err(Fault::Malformed);
    };
    let (params, rest) = vector_at::<ValType>(alloc, rest)?;
    let (results, rest) = vector_at::<ValType>(alloc, rest)?;
    Ok((params, results, rest))
}

/// The fewest bytes of a function type.
const LEAST_TYPE: usize = 3;

/// Function types, `count` of them in a row. Room is made for as many as the bytes can hold, and for no more.
fn func_types_at(alloc: Global, count: u32, bytes: &[u8]) -> Result<(FuncTypes, &[u8]), Fault>
    ensures { Gives (λ x. (x.0, x.1.now)) result (times_of func_type.read count bytes.now) }
{
    let most = bytes.len() / LEAST_TYPE;
    let mut types = FuncTypes::with_capacity(alloc, most.min(count as usize))?;
    let mut rest = bytes;
    for _ in 0..count {
        let (params, results, after) = func_type_at(alloc, rest)?;
        types.push(&params, &results)?;
        rest = after;
    }
    Ok((types, rest))
}

/// The function types that fill bytes (5.5.4).
pub fn filled_types(alloc: Global, bytes: &[u8]) -> Result<FuncTypes, Fault>
    ensures { Gives (λ ts. ts) result (whole_at (vector_of func_type.read) bytes.now) }
{
    let (count, rest) = u32_at(bytes)?;
    let (types, rest) = func_types_at(alloc, count, rest)?;
    if rest.is_empty() {
        Ok(types)
    } else {
        Err(Fault::Malformed)
    }
}

/// Limits (5.3.4).
#[tactic(auto, unfolding(wsyntax::specs::Binary::Types::limits))]
pub fn limits_at(bytes: &[u8]) -> Result<(Limits, &[u8]), Fault>
    ensures { Gives (λ x. (x.0, x.1.now)) result (limits.read bytes.now) }
{
    match bytes {
        [0, rest @ ..] => {
            let (min, rest) = u32_at(rest)?;
            Ok((Limits { min, max: None }, rest))
        }
        [1, rest @ ..] => {
            let (min, rest) = u32_at(rest)?;
            let (max, rest) = u32_at(rest)?;
            Ok((
                Limits {
                    min,
                    max: Some(max),
                },
                rest,
            ))
        }
        _ => Err(Fault::Malformed),
    }
}

/// A table type (5.3.6).
#[tactic(auto, unfolding(wsyntax::specs::Binary::Types::table_type))]
pub fn table_type_at(bytes: &[u8]) -> Result<(Table, &[u8]), Fault>
    ensures { Gives (λ x. (x.0, x.1.now)) result (table_type.read bytes.now) }
{
    let [0x70, rest @ ..] = bytes else {
        return Err(Fault::Malformed);
    };
    let (limits, rest) = limits_at(rest)?;
    Ok((Table { limits }, rest))
}

/// A global type (5.3.7).
#[tactic(auto, unfolding(wsyntax::specs::Binary::Types::global_type))]
pub fn global_type_at(bytes: &[u8]) -> Result<(GlobalType, &[u8]), Fault>
    ensures { Gives (λ x. (x.0, x.1.now)) result (global_type.read bytes.now) }
{
    let (val_type, rest) = val_type_at(bytes)?;
    match rest {
        [0, rest @ ..] => Ok((
            GlobalType {
                val_type,
                mutable: false,
            },
            rest,
        )),
        [1, rest @ ..] => Ok((
            GlobalType {
                val_type,
                mutable: true,
            },
            rest,
        )),
        _ => Err(Fault::Malformed),
    }
}

impl<'a> Item<'a> for ValType {
    ghost Shape = { ValTypeShape };

    ghost shape = { λ t. t };

    ghost at = { val_type.read };

    const LEAST: usize = 1;

    fn read(_alloc: Global, bytes: &'a [u8]) -> Result<(ValType, &'a [u8]), Fault> {
        val_type_at(bytes)
    }
}

impl<'a> Item<'a> for Limits {
    ghost Shape = { LimitsShape };

    ghost shape = { λ l. l };

    ghost at = { limits.read };

    const LEAST: usize = 2;

    fn read(_alloc: Global, bytes: &'a [u8]) -> Result<(Limits, &'a [u8]), Fault> {
        limits_at(bytes)
    }
}

impl<'a> Item<'a> for Table {
    ghost Shape = { TableShape };

    ghost shape = { λ t. t };

    ghost at = { table_type.read };

    const LEAST: usize = 3;

    fn read(_alloc: Global, bytes: &'a [u8]) -> Result<(Table, &'a [u8]), Fault> {
        table_type_at(bytes)
    }
}
