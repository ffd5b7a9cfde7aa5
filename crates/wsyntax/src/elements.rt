//! Element segments (2.5.7), whose functions share one list.
ghost use Rattle.std.specs.Prelude.{◌≡◌, ◌<◌, ◌≤◌, IfOk, length, slice_range};
ghost use Rattle.wsyntax.specs.Elements.{start_at};

use crate::module::ConstExpr;
use crate::positions::position_in_list;
use std::alloc::{AllocError, Global as Alloc};
use std::marker::Model;
use std::mem::size_of;

/// An element segment (2.5.7) that is lent: the index of its table, the expression of its offset, and the indices of its
/// functions.
#[derive(Clone, Copy)]
pub struct Element<'a> {
    pub table: u32,
    pub offset: &'a ConstExpr<'a>,
    pub functions: &'a [u32],
}

/// The table and the offset of one segment, and where its functions end in the list: they begin where those of the segment
/// before it end.
#[derive(Clone, Copy)]
pub(crate) struct Segment<'a> {
    pub(crate) table: u32,
    pub(crate) end: u32,
    pub(crate) offset: ConstExpr<'a>,
}

const _: () = prove!(size_of::<Segment<'static>>() == 32);

/// Where the functions of the segment of that index begin.
fn start_of(segments: &[Segment<'_>], index: usize) -> u32
    requires { index < length segments.now }
    ensures { result ≡ start_at 0 segments.now index }
{
    if index == 0 {
        0
    } else {
        segments[index - 1].end
    }
}

/// The functions from a position in the list to another.
#[inline]
fn part(functions: &[u32], start: u32, end: u32) -> &[u32]
    requires ordered { start ≤ end }
    requires within { end ≤ length functions.now }
    ensures { result.now ≡ slice_range functions.now start end }
{
    &functions[start as usize..end as usize]
}

/// Element segments, by their indices: the functions of all of them in one list, and of each its part of the list. A
/// list of its own would cost a short segment several times its bytes.
#[derive(Drop)]
pub struct Elements<'a> {
    functions: Vec<u32>,
    segments: Vec<Segment<'a>>,
}

impl<'a> Model for Elements<'a> {
    ghost use Rattle.std.specs.Prelude.{List};
    ghost use Rattle.wsyntax.specs.HeldElement.{HeldElement};
    ghost use Rattle.wsyntax.specs.Elements.{held_elements, AreAll};

    ghost Value = { List HeldElement };

    ghost view = { held_elements };

    ghost invariant = { AreAll };
}

impl<'a> Elements<'a> {
    ghost use Rattle.std.specs.Prelude.{[], ◌∷◌, ◌++◌, length, slice_get, option_map};
    ghost use Rattle.wsyntax.specs.Elements.{element_of, with_function};

    /// No segments, and no room.
    pub fn new(alloc: Alloc) -> Elements<'a>
        ensures { result ≡ [] }
    {
        Elements {
            functions: Vec::new(alloc),
            segments: Vec::new(alloc),
        }
    }

    /// No segments, and room for `count`, their functions apart.
    pub fn with_capacity(alloc: Alloc, count: usize) -> Result<Elements<'a>, AllocError>
        ensures { IfOk result (λ es. es ≡ []) }
    {
        Ok(Elements {
            functions: Vec::new(alloc),
            segments: Vec::with_capacity(alloc, count)?,
        })
    }

    /// Pushes a segment that has no functions yet.
    pub fn push(&mut self, table: u32, offset: ConstExpr<'a>) -> Result<(), AllocError>
        ensures { IfOk result (λ _. self.new ≡ self.old ++ (record { table = table; offset = offset.entry; functions = [] }) ∷ []) }
    {
        let end = position_in_list(self.functions.len())?;
        self.segments.push(Segment { table, end, offset })?;
        Ok(())
    }

    /// Pushes a function of the last segment; nothing changes where there is no segment. 2^32 functions are answered by out
    /// of memory.
    pub fn push_function(&mut self, function: u32) -> Result<(), AllocError>
        ensures { IfOk result (λ _. self.new ≡ with_function self.old function) }
    {
        if self.segments.is_empty() {
            return Ok(());
        }
        let last = self.segments.len() - 1;
        let end = position_in_list(self.functions.len() + 1)?;
        self.functions.push(function)?;
        self.segments[last].end = end;
        Ok(())
    }

    /// How many there are.
    #[inline]
    pub fn len(&self) -> usize
        ensures { result ≡ length self.now }
    {
        self.segments.len()
    }

    /// The segment of that index, in constant time; `None` where there is none.
    #[inline]
    pub fn get(&self, index: usize) -> Option<Element<'_>>
        ensures { option_map element_of result ≡ slice_get self.now index }
    {
        let segment = self.segments.get(index)?;
        let start = start_of(&self.segments, index);
        Some(Element {
            table: segment.table,
            offset: &segment.offset,
            functions: part(&self.functions, start, segment.end),
        })
    }
}
