//! Rules 8, 12 and 13: first values and offsets (3.3.7.2), and what else segments name.
ghost use Rattle.std.specs.Prelude.{◌≡◌, IfSome, slice_get};
ghost use Rattle.wsyntax.specs.Elements.{element_of};
ghost use Rattle.wsyntax.specs.Modules.{element_shape, initial_tokens, module_shape};
ghost use Rattle.wcontext.specs.Counted.{AreCountsOf};
ghost use Rattle.wcontext.specs.Spaces.{AreSpacesOf};
ghost use Rattle.explain_rules.specs.Rules.{BreaksAt, IsElementFault, IsInitial};

use super::FirstItem;
use explain_bytes::{DATA, ELEMENT, GLOBAL};
use explanation::{Initial, ItemFault};
use wcontext::{
    SpaceSizes, Spaces, first_inconstant_global, first_invalid_element, first_invalid_segment,
    first_unknown, is_offset,
};
use wsyntax::{ConstExpr, Element, GlobalType, Module, ValType};

/// The type of the global of that index.
fn global_at(globals: &[GlobalType], index: u32) -> Option<GlobalType>
    ensures { result ≡ slice_get globals.now index }
{
    globals.get(index as usize).copied()
}

/// What is told of an expression, under these imported globals.
fn initial_of(expression: &ConstExpr<'_>, globals: &[GlobalType]) -> Initial
    ensures { IsInitial globals.now (initial_tokens expression.now) result }
{
    match *expression {
        ConstExpr::I32Const(_) => Initial::Constant(ValType::I32),
        ConstExpr::I64Const(_) => Initial::Constant(ValType::I64),
        ConstExpr::F32Const(_) => Initial::Constant(ValType::F32),
        ConstExpr::F64Const(_) => Initial::Constant(ValType::F64),
        ConstExpr::GlobalGet(global) => Initial::Get {
            global,
            imported: globals.len(),
            gets: global_at(globals, global),
        },
        ConstExpr::Other(_) => Initial::Other,
    }
}

/// The first global whose first value is no constant expression of its type.
pub(crate) fn global_value<'a>(module: &Module<'_>, spaces: &Spaces) -> FirstItem<'a>
    requires { AreSpacesOf (module_shape «module».now) spaces.now }
    ensures { IfSome result (λ x. BreaksAt (module_shape «module».now) 8 x.0 x.1 x.2) }
{
    let imported = spaces.constant_globals();
    let (position, global) = first_inconstant_global(module, spaces)?;
    let fault = ItemFault::GlobalValue {
        global: imported.len().checked_add(position)?,
        wanted: global.global_type.val_type,
        initial: initial_of(&global.init, imported),
    };
    Some((GLOBAL, position, fault))
}

/// What is wrong with an element segment, of a module with these numbers of tables and functions and these imported globals.
fn element_fault<'a>(segment: Element<'_>, counts: &SpaceSizes) -> Option<ItemFault<'a>>
    ensures { IfSome result (IsElementFault counts.now.tables counts.now.functions counts.now.constant_globals.items
        (element_shape (element_of segment.entry))) }
{
    let (table, tables) = (segment.table, counts.tables);
    if table as usize >= tables {
        return Some(ItemFault::ElementTable { table, tables });
    }
    let globals: &[GlobalType] = &counts.constant_globals;
    if !is_offset(segment.offset, globals) {
        return Some(ItemFault::ElementOffset(initial_of(segment.offset, globals)));
    }
    let functions = counts.functions;
    let (position, func) = first_unknown(segment.functions, functions)?;
    Some(ItemFault::ElementFunction {
        position,
        func,
        functions,
    })
}

/// The first element segment that is not valid.
pub(crate) fn element<'a>(module: &Module<'_>, counts: &SpaceSizes) -> FirstItem<'a>
    requires { AreCountsOf (module_shape «module».now) counts.now }
    ensures { IfSome result (λ x. BreaksAt (module_shape «module».now) 12 x.0 x.1 x.2) }
{
    let (position, segment) = first_invalid_element(module, counts)?;
    Some((ELEMENT, position, element_fault(segment, counts)?))
}

/// The first data segment that is not valid.
pub(crate) fn data<'a>(module: &Module<'_>, counts: &SpaceSizes) -> FirstItem<'a>
    requires { AreCountsOf (module_shape «module».now) counts.now }
    ensures { IfSome result (λ x. BreaksAt (module_shape «module».now) 13 x.0 x.1 x.2) }
{
    let (position, segment) = first_invalid_segment(module, counts)?;
    let (memory, memories) = (segment.memory, counts.memories);
    if memory as usize >= memories {
        return Some((DATA, position, ItemFault::DataMemory { memory, memories }));
    }
    let offset = initial_of(&segment.offset, &counts.constant_globals);
    Some((DATA, position, ItemFault::DataOffset(offset)))
}
