//! The first item that breaks a module rule (3.2, 3.4).
ghost use Rattle.std.specs.Prelude.{IfOk, IfSome};
ghost use Rattle.wsyntax.specs.Modules.{module_shape};
ghost use Rattle.explain_bytes.specs.Shells.{IsItemAt};
ghost use Rattle.explain_rules.specs.Rules.{Breaks, BreaksAt, BreaksIn};

mod exports;
mod initial;
mod repeats;
mod spaces;
mod start;

use explain_bytes::{item_offset, value_at};
use explanation::{BrokenItem, InitialValue, ItemFault};
use std::alloc::{AllocError, Global};
use wcontext::{SpaceSizes, Spaces};
use wdecode::{DecodeFault, decode_module};
use wsyntax::Module;

/// The first item that breaks a rule: the id of its section, its position there, and what is wrong with it.
pub(crate) type FirstItem<'a> = Option<(u8, usize, ItemFault<'a>)>;

/// The first item of a module that breaks the rule of that number, which is not that on the names of exports.
fn item_by_spaces<'a>(
    alloc: Global,
    module: &Module<'a>,
    rule: u32,
) -> Result<FirstItem<'a>, AllocError>
    ensures { IfOk result (λ o. IfSome o (λ x. BreaksAt (module_shape «module».now) rule x.0 x.1 x.2)) }
{
    let spaces = Spaces::new(alloc, module)?;
    let counts = SpaceSizes::of(alloc, module, &spaces)?;
    match rule {
        2 => Ok(spaces::imported_type(module, &spaces)),
        3 => Ok(spaces::defined_type(module, &spaces)),
        4 => Ok(spaces::table_limits(module, &spaces)),
        5 => Ok(spaces::memory_limits(module, &spaces)),
        6 => Ok(spaces::second_table(module, &spaces)),
        7 => Ok(spaces::second_memory(module, &spaces)),
        8 => Ok(initial::global_value(module, &spaces)),
        9 => Ok(exports::exported_index(module, &counts)),
        11 => start::start(alloc, module, &spaces),
        12 => Ok(initial::element(module, &counts)),
        13 => Ok(initial::data(module, &counts)),
        _ => Ok(None),
    }
}

/// The first item of a module that breaks the rule of that number, its offset aside.
fn item_in<'a>(
    alloc: Global,
    module: Module<'a>,
    rule: u32,
) -> Result<Option<BrokenItem<'a>>, AllocError>
    ensures { IfOk result (λ o. IfSome o (BreaksIn (module_shape «module».entry) rule)) }
{
    if rule == exports::NAMES_RULE {
        return exports::exported_name(alloc, module);
    }
    match item_by_spaces(alloc, &module, rule)? {
        None => Ok(None),
        Some((section, position, fault)) => Ok(Some(BrokenItem {
            section,
            position,
            at: None,
            value: None,
            fault,
        })),
    }
}

/// The initial value or the offset of an item that begins at that offset, where that breaks the rule.
fn value_told(bytes: &[u8], item: &BrokenItem<'_>, at: Option<usize>) -> Option<InitialValue> {
    match item.fault {
        ItemFault::GlobalValue { .. } | ItemFault::ElementOffset(_) | ItemFault::DataOffset(_) => {
            value_at(bytes, item.section, at?)
        }
        _ => None,
    }
}

/// The first item of a module that breaks the rule of that number, and its offset.
fn placed_item<'a>(
    alloc: Global,
    bytes: &[u8],
    module: Module<'a>,
    rule: u32,
) -> Result<Option<BrokenItem<'a>>, AllocError>
    ensures { IfOk result (λ o. IfSome o (λ item. BreaksIn (module_shape «module».entry) rule item
        × IfSome item.at (IsItemAt bytes.now item.section item.position))) }
{
    match item_in(alloc, module, rule)? {
        None => Ok(None),
        Some(item) => {
            let at = item_offset(alloc, bytes, item.section, item.position)?;
            let value = value_told(bytes, &item, at);
            Ok(Some(BrokenItem { at, value, ..item }))
        }
    }
}

/// The first item that breaks the rule of that number, in the module that the bytes spell.
pub fn broken_item(
    alloc: Global,
    bytes: &[u8],
    rule: u32,
) -> Result<Option<BrokenItem<'_>>, AllocError>
    ensures { IfOk result (λ o. IfSome o (Breaks bytes.now rule)) }
{
    match decode_module(alloc, bytes) {
        Ok(module) => placed_item(alloc, bytes, module, rule),
        Err(DecodeFault::Memory) => Err(AllocError),
        Err(DecodeFault::Malformed | DecodeFault::TooLarge) => Ok(None),
    }
}
