//! The items of the sections (5.5), read past.
ghost use Rattle.std.specs.Prelude.{◌≡◌};
ghost use Rattle.wsyntax.specs.Binary.Production.{times_at};
ghost use Rattle.wsyntax.specs.Binary.Values.{u32 as u32_production, vector_at, blob};
ghost use Rattle.wsyntax.specs.Binary.Sections.{an_import, an_export, global, element, data_segment};
ghost use Rattle.wdecode.specs.Gives.{rest_of};
ghost use Rattle.explain_bytes.specs.Shells.{Passes, after};

use crate::shell::expressions::after_expression;
use crate::shell::primitives::{Stuck, after_index, after_name, number_at, sized_at, wrong_byte};
use crate::shell::type_items::{
    after_func_type, after_global_type, after_limits, after_table_type,
};
use explanation::Wanted;
use std::alloc::Global;

/// The bytes after an import (5.5.5).
#[tactic(auto, unfolding(wsyntax::specs::Binary::Sections::an_import, wsyntax::specs::Binary::Sections::import_kind))]
fn after_import<'a>(bytes: &'a [u8]) -> Result<&'a [u8], Stuck<'a>>
    ensures { Passes (rest_of (an_import.read bytes.now)) result }
{
    let rest = after_name(bytes)?;
    let rest = after_name(rest)?;
    match rest {
        [0, rest @ ..] => after_index(rest),
        [1, rest @ ..] => after_table_type(rest),
        [2, rest @ ..] => after_limits(rest, Wanted::MemoryFlags),
        [3, rest @ ..] => after_global_type(rest),
        _ => Err(wrong_byte(rest, Wanted::ImportKind)),
    }
}

/// The bytes after a global (5.5.9).
#[tactic(auto, unfolding(wsyntax::specs::Binary::Sections::global))]
fn after_global<'a>(alloc: Global, bytes: &'a [u8]) -> Result<&'a [u8], Stuck<'a>>
    ensures { Passes (rest_of (global.read bytes.now)) result }
{
    let rest = after_global_type(bytes)?;
    after_expression(alloc, rest)
}

/// The bytes after an export (5.5.10).
#[tactic(auto, unfolding(wsyntax::specs::Binary::Sections::an_export))]
fn after_export<'a>(bytes: &'a [u8]) -> Result<&'a [u8], Stuck<'a>>
    ensures { Passes (rest_of (an_export.read bytes.now)) result }
{
    let rest = after_name(bytes)?;
    match rest {
        [0 | 1 | 2 | 3, rest @ ..] => after_index(rest),
        _ => Err(wrong_byte(rest, Wanted::ExportKind)),
    }
}

/// The bytes after `count` indices.
fn indices_in<'a>(count: u32, bytes: &'a [u8]) -> Result<&'a [u8], Stuck<'a>>
    ensures { Passes (rest_of (times_at u32_production.read count bytes.now)) result }
{
    let mut rest = bytes;
    for _ in 0..count {
        rest = after_index(rest)?;
    }
    Ok(rest)
}

/// The bytes after a vector of indices.
pub(crate) fn after_indices<'a>(bytes: &'a [u8]) -> Result<&'a [u8], Stuck<'a>>
    ensures { Passes (rest_of (vector_at u32_production.read bytes.now)) result }
{
    let (count, rest) = number_at(bytes, Wanted::Count)?;
    indices_in(count, rest)
}

/// The bytes after an element segment (5.5.12).
#[tactic(auto, unfolding(wsyntax::specs::Binary::Sections::element))]
fn after_element<'a>(alloc: Global, bytes: &'a [u8]) -> Result<&'a [u8], Stuck<'a>>
    ensures { Passes (rest_of (element.read bytes.now)) result }
{
    let rest = after_index(bytes)?;
    let rest = after_expression(alloc, rest)?;
    after_indices(rest)
}

/// The bytes after a data segment (5.5.14).
#[tactic(auto, unfolding(wsyntax::specs::Binary::Sections::data_segment))]
fn after_data<'a>(alloc: Global, bytes: &'a [u8]) -> Result<&'a [u8], Stuck<'a>>
    ensures { Passes (rest_of (data_segment.read bytes.now)) result }
{
    let rest = after_index(bytes)?;
    let rest = after_expression(alloc, rest)?;
    let (_data, rest) = sized_at(rest, Wanted::DataSize)?;
    Ok(rest)
}

/// The bytes after a body (5.5.13), which is not looked into.
fn after_body<'a>(bytes: &'a [u8]) -> Result<&'a [u8], Stuck<'a>>
    ensures { Passes (rest_of (blob.read bytes.now)) result }
{
    let (_body, rest) = sized_at(bytes, Wanted::BodySize)?;
    Ok(rest)
}

/// What the items of a section are (5.5.2).
#[derive(Clone, Copy, PartialEq, Eq)]
pub(crate) enum Items {
    Types,
    Imports,
    Functions,
    Tables,
    Memories,
    Globals,
    Exports,
    Elements,
    Bodies,
    Segments,
}

/// The bytes after an item.
pub(crate) fn after_item<'a>(
    alloc: Global,
    items: Items,
    bytes: &'a [u8],
) -> Result<&'a [u8], Stuck<'a>>
    ensures { Passes (after items bytes.now) result }
{
    match items {
        Items::Types => after_func_type(bytes),
        Items::Imports => after_import(bytes),
        Items::Functions => after_index(bytes),
        Items::Tables => after_table_type(bytes),
        Items::Memories => after_limits(bytes, Wanted::MemoryFlags),
        Items::Globals => after_global(alloc, bytes),
        Items::Exports => after_export(bytes),
        Items::Elements => after_element(alloc, bytes),
        Items::Bodies => after_body(bytes),
        Items::Segments => after_data(alloc, bytes),
    }
}
