//! What the sections hold, value by value (5.5).
ghost use Rattle.std.specs.Prelude.{◌≡◌, ℕ, List, Option, Some, IfSome, map};
ghost use Rattle.wdecode.specs.Gives.{Gives};
ghost use Rattle.wsyntax.specs.Modules.{ImportShape, ExportShape, GlobalShape, DataShape};
ghost use Rattle.wsyntax.specs.Modules.{import_shape, export_shape, global_shape, data_shape};
ghost use Rattle.wsyntax.specs.declared.module.LocalRun.{LocalRun as LocalRunShape};
ghost use Rattle.wsyntax.specs.Binary.Sections.{import_kind, an_import, an_export, global, data_segment, run};

use crate::fault::Fault;
use crate::initial::{initial_at, number_at};
use crate::types::{global_type_at, limits_at, table_type_at, val_type_at};
use crate::values::{Item, blob_at, name_at, u32_at};
use std::alloc::Global as Alloc;
use wsyntax::{ConstExpr, Data, Export, ExportKind, Global, Import, ImportKind, LocalRun};

/// What an import asks for (5.5.5).
#[tactic(auto, unfolding(wsyntax::specs::Binary::Sections::import_kind))]
fn import_kind_at(bytes: &[u8]) -> Result<(ImportKind, &[u8]), Fault>
    ensures { Gives (λ x. (x.0, x.1.now)) result (import_kind.read bytes.now) }
{
    match bytes {
        [0, rest @ ..] => {
            let (index, rest) = u32_at(rest)?;
            Ok((ImportKind::Function(index), rest))
        }
        [1, rest @ ..] => {
            let (table, rest) = table_type_at(rest)?;
            Ok((ImportKind::Table(table), rest))
        }
        [2, rest @ ..] => {
            let (memory, rest) = limits_at(rest)?;
            Ok((ImportKind::Memory(memory), rest))
        }
        [3, rest @ ..] => {
            let (global, rest) = global_type_at(rest)?;
            Ok((ImportKind::Global(global), rest))
        }
        _ => Err(Fault::Malformed),
    }
}

/// An import (5.5.5).
#[tactic(auto, unfolding(wsyntax::specs::Binary::Sections::an_import))]
fn import_at(bytes: &[u8]) -> Result<(Import<'_>, &[u8]), Fault>
    ensures { Gives (λ x. (import_shape x.0, x.1.now)) result (an_import.read bytes.now) }
{
    let (module, rest) = name_at(bytes)?;
    let (name, rest) = name_at(rest)?;
    let (kind, rest) = import_kind_at(rest)?;
    Ok((Import { module, name, kind }, rest))
}

/// A global (5.5.9).
#[tactic(auto, unfolding(wsyntax::specs::Binary::Sections::global))]
fn global_at(alloc: Alloc, bytes: &[u8]) -> Result<(Global<'_>, &[u8]), Fault>
    ensures { Gives (λ x. (global_shape x.0, x.1.now)) result (global.read bytes.now) }
{
    let (global_type, rest) = global_type_at(bytes)?;
    let (init, rest) = initial_at(alloc, rest)?;
    Ok((Global { global_type, init }, rest))
}

/// An export (5.5.10).
#[tactic(auto, unfolding(wsyntax::specs::Binary::Sections::an_export))]
fn export_at(bytes: &[u8]) -> Result<(Export<'_>, &[u8]), Fault>
    ensures { Gives (λ x. (export_shape x.0, x.1.now)) result (an_export.read bytes.now) }
{
    let (name, rest) = name_at(bytes)?;
    let (kind, rest) = match rest {
        [0, rest @ ..] => (ExportKind::Function, rest),
        [1, rest @ ..] => (ExportKind::Table, rest),
        [2, rest @ ..] => (ExportKind::Memory, rest),
        [3, rest @ ..] => (ExportKind::Global, rest),
        _ => return Err(Fault::Malformed),
    };
    let (index, rest) = u32_at(rest)?;
    Ok((Export { name, kind, index }, rest))
}

/// A run of declared locals (5.5.13).
#[tactic(auto, unfolding(wsyntax::specs::Binary::Sections::run))]
fn run_at(bytes: &[u8]) -> Result<(LocalRun, &[u8]), Fault>
    ensures { Gives (λ x. (x.0, x.1.now)) result (run.read bytes.now) }
{
    let (count, rest) = u32_at(bytes)?;
    let (val_type, rest) = val_type_at(rest)?;
    Ok((LocalRun { count, val_type }, rest))
}

/// A data segment at the front whose offset is a constant i32, as nearly each is; `None` says nothing.
// PERF: it is read as one piece, since the compiler else cuts the offset into bytes on its way to the segment.
#[inline(always)]
#[tactic(auto, unfolding(wsyntax::specs::Binary::Sections::data_segment))]
fn frequent_data_at(bytes: &[u8]) -> Option<(Data<'_>, &[u8])>
    ensures { IfSome result (λ x. data_segment.read bytes.now ≡ Some (data_shape x.0, x.1.now)) }
{
    let (memory, rest) = wnum::front_u32(bytes)?;
    let (number, rest) = number_at(rest)?;
    let Ok((bytes, rest)) = blob_at(rest) else {
        return None;
    };
    let offset = ConstExpr::I32Const(number);
    Some((
        Data {
            memory,
            offset,
            bytes,
        },
        rest,
    ))
}

/// A data segment at the front, whatever its offset is.
#[inline(never)]
#[tactic(auto, unfolding(wsyntax::specs::Binary::Sections::data_segment))]
fn rare_data_at(alloc: Alloc, bytes: &[u8]) -> Result<(Data<'_>, &[u8]), Fault>
    ensures { Gives (λ x. (data_shape x.0, x.1.now)) result (data_segment.read bytes.now) }
{
    let (memory, rest) = u32_at(bytes)?;
    let (offset, rest) = initial_at(alloc, rest)?;
    let (bytes, rest) = blob_at(rest)?;
    Ok((
        Data {
            memory,
            offset,
            bytes,
        },
        rest,
    ))
}

/// A data segment (5.5.14).
#[inline(always)]
pub(crate) fn data_at(alloc: Alloc, bytes: &[u8]) -> Result<(Data<'_>, &[u8]), Fault>
    ensures { Gives (λ x. (data_shape x.0, x.1.now)) result (data_segment.read bytes.now) }
{
    match frequent_data_at(bytes) {
        Some((data, rest)) => Ok((data, rest)),
        None => rare_data_at(alloc, bytes),
    }
}

impl<'a> Item<'a> for Import<'a> {
    ghost Shape = { ImportShape };

    ghost shape = { import_shape };

    ghost at = { an_import.read };

    const LEAST: usize = 4;

    fn read(_alloc: Alloc, bytes: &'a [u8]) -> Result<(Import<'a>, &'a [u8]), Fault> {
        import_at(bytes)
    }
}

impl<'a> Item<'a> for Global<'a> {
    ghost Shape = { GlobalShape };

    ghost shape = { global_shape };

    ghost at = { global.read };

    const LEAST: usize = 3;

    fn read(alloc: Alloc, bytes: &'a [u8]) -> Result<(Global<'a>, &'a [u8]), Fault> {
        global_at(alloc, bytes)
    }
}

impl<'a> Item<'a> for Export<'a> {
    ghost Shape = { ExportShape };

    ghost shape = { export_shape };

    ghost at = { an_export.read };

    const LEAST: usize = 3;

    fn read(_alloc: Alloc, bytes: &'a [u8]) -> Result<(Export<'a>, &'a [u8]), Fault> {
        export_at(bytes)
    }
}

impl<'a> Item<'a> for LocalRun {
    ghost Shape = { LocalRunShape };

    ghost shape = { λ r. r };

    ghost at = { run.read };

    const LEAST: usize = 2;

    fn read(_alloc: Alloc, bytes: &'a [u8]) -> Result<(LocalRun, &'a [u8]), Fault> {
        run_at(bytes)
    }
}

impl<'a> Item<'a> for Data<'a> {
    ghost Shape = { DataShape };

    ghost shape = { data_shape };

    ghost at = { data_segment.read };

    const LEAST: usize = 3;

    fn read(alloc: Alloc, bytes: &'a [u8]) -> Result<(Data<'a>, &'a [u8]), Fault> {
        data_at(alloc, bytes)
    }
}
