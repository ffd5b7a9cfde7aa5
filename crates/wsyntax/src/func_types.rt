//! Function types (2.3.3), whose value types share one list.
ghost use Rattle.std.specs.Prelude.{◌≡◌, IfOk};

use crate::positions::position_in_list;
use crate::types::ValType;
use std::alloc::{AllocError, Global as Alloc};
use std::marker::Model;

/// A function type (2.3.3) that is lent: the types of the parameters and of the results, each list as it is written.
#[derive(Clone, Copy)]
pub struct FuncType<'a> {
    pub params: &'a [ValType],
    pub results: &'a [ValType],
}

/// The positions of one function type's value types: the parameters end at `middle`, where the results begin.
#[derive(Clone, Copy)]
pub(crate) struct TypeRange {
    pub(crate) start: u32,
    pub(crate) middle: u32,
    pub(crate) end: u32,
}

/// Function types, by their indices: the value types of all of them in one list, and of each its part of the list.
#[derive(Drop)]
pub struct FuncTypes {
    values: Vec<ValType>,
    ranges: Vec<TypeRange>,
}

impl Model for FuncTypes {
    ghost use Rattle.std.specs.Prelude.{List};
    ghost use Rattle.wsyntax.specs.Types.{FuncType as FuncTypeShape};
    ghost use Rattle.wsyntax.specs.FuncTypes.{held_types, AreWithin};

    ghost Value = { List FuncTypeShape };

    ghost view = { held_types };

    ghost invariant = { AreWithin };
}

impl FuncTypes {
    ghost use Rattle.std.specs.Prelude.{[], ◌∷◌, ◌++◌, length, slice_get, option_map, IfSome};
    ghost use Rattle.wsyntax.specs.FuncTypes.{func_type_of, IsShort};

    /// No types, and no room.
    pub fn new(alloc: Alloc) -> FuncTypes
        ensures { result ≡ [] }
    {
        FuncTypes {
            values: Vec::new(alloc),
            ranges: Vec::new(alloc),
        }
    }

    /// No types, and room for `count`, their value types apart.
    pub fn with_capacity(alloc: Alloc, count: usize) -> Result<FuncTypes, AllocError>
        ensures { IfOk result (λ ts. ts ≡ []) }
    {
        Ok(FuncTypes {
            values: Vec::new(alloc),
            ranges: Vec::with_capacity(alloc, count)?,
        })
    }

    /// Puts the type of these parameters and results after the others.
    pub fn push(&mut self, params: &[ValType], results: &[ValType]) -> Result<(), AllocError>
        ensures { IfOk result (λ _. self.new ≡ self.old ++ (record { params = params.now; results = results.now }) ∷ []) }
    {
        let start = position_in_list(self.values.len())?;
        self.values.extend_from_slice(params)?;
        let middle = position_in_list(self.values.len())?;
        self.values.extend_from_slice(results)?;
        let end = position_in_list(self.values.len())?;
        self.ranges.push(TypeRange { start, middle, end })?;
        Ok(())
    }

    /// The same types, in a list of their own.
    pub fn copy(&self, alloc: Alloc) -> Result<FuncTypes, AllocError>
        ensures { IfOk result (λ ts. ts ≡ self.now) }
    {
        Ok(FuncTypes {
            values: self.values.to_vec(alloc)?,
            ranges: self.ranges.to_vec(alloc)?,
        })
    }

    /// How many there are.
    #[inline]
    pub fn len(&self) -> usize
        ensures { result ≡ length self.now }
    {
        self.ranges.len()
    }

    /// The type of that index, in constant time; `None` where there is none. Each of its lists has fewer than 2^32 types.
    #[inline]
    pub fn get(&self, index: usize) -> Option<FuncType<'_>>
        ensures found { option_map func_type_of result ≡ slice_get self.now index }
        ensures short { IfSome result IsShort }
    {
        let range = self.ranges.get(index)?;
        Some(FuncType {
            params: &self.values[range.start as usize..range.middle as usize],
            results: &self.values[range.middle as usize..range.end as usize],
        })
    }
}
