use crate::constant::is_offset;
use crate::rules::{first_unknown, starts_plainly};
use crate::spaces::Spaces;
use std::alloc::{AllocError, Global};
use wsyntax::{Data, Element, Export, ExportKind, GlobalType, Module};

/// How much each index space of a module holds (2.5.1), and what else its exports, its start function and its segments
/// are looked at by. It does not borrow the module.
#[derive(Drop)]
pub struct SpaceSizes {
    pub functions: usize,
    pub tables: usize,
    pub memories: usize,
    globals: usize,
    /// The types of the imported globals, which alone a constant expression may read.
    pub constant_globals: Vec<GlobalType>,
    /// Whether the start function, where there is one, exists and has type `[] -> []` (3.4.7).
    pub(crate) starts_plainly: bool,
}

impl SpaceSizes {
    ghost use Rattle.std.specs.Prelude.{◌≡◌, ◌↔◌, ◌<◌, IsTrue, IfOk};
    ghost use Rattle.wsyntax.specs.Elements.{element_of};
    ghost use Rattle.wsyntax.specs.Modules.{module_shape, data_shape, element_shape};
    ghost use Rattle.wsyntax.specs.Validation.Rules.{StartsPlainly};
    ghost use Rattle.wcontext.specs.Spaces.{AreSpacesOf};
    ghost use Rattle.wcontext.specs.Counted.{AreCountsOf, IsElementValid, IsSegmentValid, counted};

    /// How much the index spaces of that module hold.
    pub fn of(alloc: Global, module: &Module<'_>, spaces: &Spaces) -> Result<SpaceSizes, AllocError>
        requires { AreSpacesOf (module_shape «module».now) spaces.now }
        ensures { IfOk result (AreCountsOf (module_shape «module».now)) }
    {
        Ok(SpaceSizes {
            functions: spaces.functions.len(),
            tables: spaces.tables.len(),
            memories: spaces.memories.len(),
            globals: spaces.globals.len(),
            constant_globals: spaces.constant_globals().to_vec(alloc)?,
            starts_plainly: starts_plainly(module, spaces),
        })
    }

    /// The number of items in the space of that kind.
    pub fn count(&self, kind: ExportKind) -> usize
        ensures { result ≡ counted self.now kind }
    {
        match kind {
            ExportKind::Function => self.functions,
            ExportKind::Table => self.tables,
            ExportKind::Memory => self.memories,
            ExportKind::Global => self.globals,
        }
    }

    /// Whether what an export names exists (3.4.8), as rule 9 asks of each.
    pub(crate) fn has_exported(&self, export: &Export<'_>) -> bool
        ensures { IsTrue result ↔ (export.now.index < counted self.now export.now.kind) }
    {
        (export.index as usize) < self.count(export.kind)
    }

    /// Whether an element segment is valid (3.4.5), as rule 12 asks of each.
    pub(crate) fn takes_element(&self, segment: Element<'_>) -> bool
        ensures { IsTrue result ↔ IsElementValid self.now (element_shape (element_of segment.entry)) }
    {
        (segment.table as usize) < self.tables
            && is_offset(segment.offset, &self.constant_globals)
            && first_unknown(segment.functions, self.functions).is_none()
    }

    /// Whether a data segment is valid (3.4.6), as rule 13 asks of each.
    #[inline(always)]
    pub fn takes_segment(&self, segment: &Data<'_>) -> bool
        ensures { IsTrue result ↔ IsSegmentValid self.now (data_shape segment.now) }
    {
        (segment.memory as usize) < self.memories
            && is_offset(&segment.offset, &self.constant_globals)
    }
}
