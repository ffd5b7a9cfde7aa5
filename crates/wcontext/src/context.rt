use crate::lists::{ListPair, TypeList, no_types, one_type};
use crate::spaces::Spaces;
use crate::suffix_tree::SuffixTree;
use std::alloc::{AllocError, Global};
use std::marker::Model;
use wsyntax::{FuncType, FuncTypes, GlobalType, Module, ValType};

/// What the bodies of a module's functions are checked under (3.1.1): it owns all that it looks up, so it does not
/// borrow the module. Each look-up takes constant time. Indices of functions and globals count the imported ones
/// first.
#[derive(Drop)]
pub struct Context {
    types: FuncTypes,
    /// The prefixes of the long lists; `None` where they are compared instead.
    pub(crate) ends: Option<SuffixTree>,
    functions: Vec<u32>,
    imported: usize,
    globals: Vec<GlobalType>,
    has_table: bool,
    has_memory: bool,
}

impl Model for Context {
    ghost use Rattle.wsyntax.specs.Validation.ModuleContext.{IndexedContext};

    ghost Value = { IndexedContext };

    ghost use Rattle.wcontext.specs.Indexed.{indexed, IsHeld};

    ghost view = { indexed };

    ghost invariant = { IsHeld };
}

impl Context {
    ghost use Rattle.std.specs.Prelude.{◌≡◌, ◌≤◌, ◌<◌, ◌^◌, length, slice_get, option_map, IfSome, IfOk};
    ghost use Rattle.wsyntax.specs.FuncTypes.{func_type_of, IsShort};
    ghost use Rattle.wsyntax.specs.Modules.{module_shape};
    ghost use Rattle.wsyntax.specs.Validation.ModuleContext.{indexed_context};
    ghost use Rattle.wsyntax.specs.Validation.Rules.{ImportsTyped, FunctionsTyped};
    ghost use Rattle.wcontext.specs.Lists.{list_of, pair_type};
    ghost use Rattle.wcontext.specs.Spaces.{AreSpacesOf};

    /// The context of a module whose functions all have types.
    pub(crate) fn new(
        alloc: Global,
        module: &Module<'_>,
        spaces: Spaces,
    ) -> Result<Context, AllocError>
        requires spaces { AreSpacesOf (module_shape «module».now) spaces }
        requires imports { ImportsTyped (module_shape «module».now) }
        requires functions { FunctionsTyped (module_shape «module».now) }
        ensures { IfOk result (λ c. c ≡ indexed_context (module_shape «module».now)) }
    {
        let types = module.types.copy(alloc)?;
        let ends = SuffixTree::new(alloc, &types, &module.bodies)?;
        Ok(Context {
            types,
            ends,
            imported: spaces.imported_functions,
            has_table: !spaces.tables.is_empty(),
            has_memory: !spaces.memories.is_empty(),
            functions: spaces.functions,
            globals: spaces.globals,
        })
    }

    /// The function type of that index, whose lists have fewer than 2^32 types each; `None` where the module has none.
    #[inline]
    pub fn signature(&self, type_index: u32) -> Option<FuncType<'_>>
        ensures found { option_map func_type_of result ≡ slice_get self.now.context.types type_index }
        ensures short { IfSome result IsShort }
    {
        self.types.get(type_index as usize)
    }

    /// The type of the function of that index; `None` where the module has none.
    #[inline]
    pub fn function(&self, func: u32) -> Option<FuncType<'_>>
        ensures { option_map func_type_of result ≡ slice_get self.now.context.functions func }
    {
        let type_index = self.functions.get(func as usize)?;
        self.signature(*type_index)
    }

    /// The two lists of the function type of that index; `None` where the module has none.
    #[inline]
    pub fn lists(&self, type_index: u32) -> Option<ListPair>
        ensures { option_map (pair_type self.now.context.types) result ≡ slice_get self.now.context.types type_index }
    {
        if type_index as usize >= self.types.len() {
            return None;
        }
        Some(ListPair {
            params: TypeList::Params(type_index),
            results: TypeList::Results(type_index),
        })
    }

    /// The two lists of the type of the function of that index; `None` where the module has none.
    #[inline]
    pub fn function_lists(&self, func: u32) -> Option<ListPair>
        ensures { option_map (pair_type self.now.context.types) result ≡ slice_get self.now.context.functions func }
    {
        let type_index = self.functions.get(func as usize)?;
        self.lists(*type_index)
    }

    /// The types of a list, fewer than 2^32; none where the module has no such type.
    #[inline]
    pub fn list(&self, list: TypeList) -> &[ValType]
        ensures types { result.now ≡ list_of self.now.context.types list }
        ensures short { length result.now < 2 ^ 32 }
    {
        match list {
            TypeList::Nothing => no_types(),
            TypeList::One(t) => one_type(t),
            TypeList::Params(y) => match self.signature(y) {
                Some(signature) => signature.params,
                None => no_types(),
            },
            TypeList::Results(y) => match self.signature(y) {
                Some(signature) => signature.results,
                None => no_types(),
            },
        }
    }

    /// The index of the type of that function, by which equal types can be known equal without comparing them;
    /// `None` where the module has no such function.
    #[inline]
    pub fn type_of(&self, func: u32) -> Option<u32>
        ensures index { result ≡ slice_get self.now.function_types func }
        ensures same { IfSome result (λ y. slice_get self.now.context.types y ≡ slice_get self.now.context.functions func) }
    {
        self.functions.get(func as usize).copied()
    }

    /// The type of the global of that index; `None` where the module has none.
    #[inline]
    pub fn global(&self, index: u32) -> Option<GlobalType>
        ensures { result ≡ slice_get self.now.context.globals index }
    {
        self.globals.get(index as usize).copied()
    }

    /// Whether the module has a table, imported or defined.
    #[inline]
    pub fn has_table(&self) -> bool
        ensures { result ≡ self.now.context.has_table }
    {
        self.has_table
    }

    /// Whether the module has a memory, imported or defined.
    #[inline]
    pub fn has_memory(&self) -> bool
        ensures { result ≡ self.now.context.has_memory }
    {
        self.has_memory
    }

    /// How many functions there are, imported ones counted.
    #[inline]
    pub fn function_count(&self) -> usize
        ensures functions { result ≡ length self.now.context.functions }
        ensures indices { result ≡ length self.now.function_types }
    {
        self.functions.len()
    }

    /// How many functions are imported: their indices come first.
    #[inline]
    pub fn imported_functions(&self) -> usize
        ensures count { result ≡ self.now.imported }
        ensures within { result ≤ length self.now.context.functions }
    {
        self.imported
    }
}
