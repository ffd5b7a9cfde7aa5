use crate::imports::{
    imported_function_types, imported_globals, imported_memories, imported_tables,
};
use std::alloc::{AllocError, Global};
use wsyntax::{GlobalType, Limits, Module, Table};

/// The index spaces of a module (2.5.1): what is imported, and then what the module defines.
#[derive(Drop)]
pub struct Spaces {
    /// Of each function the index of its type.
    pub functions: Vec<u32>,
    pub imported_functions: usize,
    pub tables: Vec<Table>,
    pub memories: Vec<Limits>,
    pub globals: Vec<GlobalType>,
    pub imported_globals: usize,
}

impl Spaces {
    ghost use Rattle.std.specs.Prelude.{◌≡◌, ◌≤◌, IfOk, take, vec_len};
    ghost use Rattle.wsyntax.specs.Modules.{module_shape};
    ghost use Rattle.wsyntax.specs.Validation.ModuleContext.{functions_of, tables_of, memories_of, globals_of};
    ghost use Rattle.wcontext.specs.Spaces.{AreSpacesOf};

    /// The index spaces of that module.
    pub fn new(alloc: Global, module: &Module<'_>) -> Result<Spaces, AllocError>
        ensures { IfOk result (AreSpacesOf (module_shape «module».now)) }
    {
        let functions = Spaces::functions(alloc, module)?;
        let globals = Spaces::globals(alloc, module)?;
        Ok(Spaces {
            imported_functions: functions.len() - module.functions.len(),
            functions,
            tables: Spaces::tables(alloc, module)?,
            memories: Spaces::memories(alloc, module)?,
            imported_globals: globals.len() - module.globals.len(),
            globals,
        })
    }

    fn functions(alloc: Global, module: &Module<'_>) -> Result<Vec<u32>, AllocError>
        ensures { IfOk result (λ v. v.items ≡ functions_of (module_shape «module».now)) }
    {
        let mut functions = imported_function_types(alloc, &module.imports)?;
        functions.extend_from_slice(&module.functions)?;
        Ok(functions)
    }

    fn tables(alloc: Global, module: &Module<'_>) -> Result<Vec<Table>, AllocError>
        ensures { IfOk result (λ v. v.items ≡ tables_of (module_shape «module».now)) }
    {
        let mut tables = imported_tables(alloc, &module.imports)?;
        tables.extend_from_slice(&module.tables)?;
        Ok(tables)
    }

    fn memories(alloc: Global, module: &Module<'_>) -> Result<Vec<Limits>, AllocError>
        ensures { IfOk result (λ v. v.items ≡ memories_of (module_shape «module».now)) }
    {
        let mut memories = imported_memories(alloc, &module.imports)?;
        memories.extend_from_slice(&module.memories)?;
        Ok(memories)
    }

    fn globals(alloc: Global, module: &Module<'_>) -> Result<Vec<GlobalType>, AllocError>
        ensures { IfOk result (λ v. v.items ≡ globals_of (module_shape «module».now)) }
    {
        let mut globals = imported_globals(alloc, &module.imports)?;
        for global in &module.globals {
            globals.push(global.global_type)?;
        }
        Ok(globals)
    }

    /// The types of the imported globals, which alone a constant expression may read.
    pub fn constant_globals(&self) -> &[GlobalType]
        requires { self.now.imported_globals ≤ vec_len self.now.globals }
        ensures { result.now ≡ take self.now.imported_globals self.now.globals.items }
    {
        &self.globals[..self.imported_globals]
    }
}
