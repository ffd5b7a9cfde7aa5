//! The prefixes of long lists of types, which are read into a trie.
ghost use Rattle.std.specs.Prelude.{◌≡◌, ◌+◌, ◌<◌, ◌≤◌, length, replicate, IfSome, IfOk};
ghost use Rattle.wcontext.specs.Trie.{BeginsBlock, BeginsBlocks, ReadsType, ReadsColumn, ReadsBlock, PutsPrefixes, PutsBlock};
ghost use Rattle.wcontext.specs.Trie.{IsNew, AreNodesOf};

use crate::fault::NoTree;
use crate::nodes::Nodes;
use crate::tuning::WIDTH;
use std::alloc::{AllocError, Global};
use wsyntax::ValType;

/// A list that is read type by type.
#[derive(Clone, Copy)]
pub(crate) struct Reading<'a> {
    types: &'a [ValType],
    /// The position of its first prefix.
    start: u32,
    /// The node of the prefix that was read last.
    node: u32,
    /// The types of the block that is read.
    block: [ValType; WIDTH],
    /// The nodes of the prefixes that end in the block; 0 where none was read.
    nodes: [u32; WIDTH],
}

impl<'a> Reading<'a> {
    /// That list, of which no type was read.
    pub(crate) fn new(types: &'a [ValType], start: u32) -> Reading<'a>
        ensures types { result.types.now ≡ types.now }
        ensures start { result.start ≡ start }
        ensures node { result.node ≡ 0 }
    {
        Reading {
            types,
            start,
            node: 0,
            block: [ValType::I32; WIDTH],
            nodes: [0; WIDTH],
        }
    }

    /// Begins the block of the types from `base` on.
    fn begin(&mut self, base: usize)
        ensures { BeginsBlock self.old self.new base }
    {
        self.nodes = [0; WIDTH];
        for i in 0..WIDTH {
            if let Some(t) = self.types.get(base.saturating_add(i)) {
                self.block[i] = *t;
            }
        }
    }
}

/// The prefixes of lists, and the nodes that stand for them.
#[derive(Drop)]
pub(crate) struct Trie {
    pub(crate) nodes: Nodes,
    /// The nodes of the prefixes, by the positions of the prefixes; 0 where none was read.
    pub(crate) prefixes: Vec<u32>,
}

/// Begins the block of each list that begins at `base`.
fn begin_block(lists: &mut [Reading<'_>], base: usize)
    ensures { BeginsBlocks lists.old lists.new base }
{
    for k in 0..lists.len() {
        lists[k].begin(base);
    }
}

/// `count` prefixes, of which none was read.
fn unread_prefixes(alloc: Global, count: u32) -> Result<Vec<u32>, AllocError>
    ensures { IfOk result (λ prefixes. prefixes.items ≡ replicate count 0) }
{
    let mut prefixes = Vec::with_capacity(alloc, count as usize)?;
    prefixes.resize(count as usize, 0)?;
    Ok(prefixes)
}

impl Trie {
    /// `count` prefixes of `lists` lists, of which none was read.
    fn new(alloc: Global, count: u32, lists: usize) -> Result<Trie, AllocError>
        ensures { IfOk result (λ t. IsNew t) }
    {
        Ok(Trie {
            prefixes: unread_prefixes(alloc, count)?,
            nodes: Nodes::new(alloc, count, lists)?,
        })
    }

    /// Reads the type at `i` of a list's block, which begins at `base`, if the list has one there.
    #[inline]
    fn read_type(&mut self, list: &mut Reading<'_>, base: usize, i: usize) -> Result<(), NoTree>
        requires { i < WIDTH }
        ensures read { IfOk result (λ _. ReadsType self.old.nodes self.new.nodes list.old list.new base i) }
        ensures prefixes { self.new.prefixes ≡ self.old.prefixes }
    {
        if base.saturating_add(i) >= list.types.len() {
            return Ok(());
        }
        let t = list.block[i];
        let node = self.nodes.after(list.node, t)?;
        list.node = node;
        list.nodes[i] = node;
        Ok(())
    }

    /// Reads the type at `i` of each list's block.
    fn read_column(
        &mut self,
        lists: &mut [Reading<'_>],
        base: usize,
        i: usize,
    ) -> Result<(), NoTree>
        requires { i < WIDTH }
        ensures read { IfOk result (λ _. ReadsColumn self.old.nodes self.new.nodes lists.old lists.new base i) }
        ensures prefixes { self.new.prefixes ≡ self.old.prefixes }
    {
        self.nodes.start_level().ok_or(NoTree::TooMany)?;
        for k in 0..lists.len() {
            self.read_type(&mut lists[k], base, i)?;
        }
        Ok(())
    }

    /// Reads the blocks of the lists, which begin at `base`.
    fn read_block(&mut self, lists: &mut [Reading<'_>], base: usize) -> Result<(), NoTree>
        ensures read { IfOk result (λ _. ReadsBlock self.old.nodes self.new.nodes lists.old lists.new base 16) }
        ensures prefixes { self.new.prefixes ≡ self.old.prefixes }
    {
        for i in 0..WIDTH {
            self.read_column(lists, base, i)?;
        }
        Ok(())
    }

    /// Puts the nodes of a list's block to the list's prefixes.
    fn put_prefixes(&mut self, list: &Reading<'_>, base: usize) -> Option<()>
        ensures prefixes { IfSome result (λ _. PutsPrefixes self.old.prefixes.items self.new.prefixes.items list.now base) }
        ensures nodes { self.new.nodes ≡ self.old.nodes }
    {
        let start = (list.start as usize).checked_add(base)?;
        for i in 0..list.types.len().saturating_sub(base).min(WIDTH) {
            let position = start.checked_add(i)?;
            if position < self.prefixes.len() {
                self.prefixes[position] = list.nodes[i];
            }
        }
        Some(())
    }

    /// Puts the nodes of all blocks to the prefixes.
    fn end_block(&mut self, lists: &[Reading<'_>], base: usize) -> Option<()>
        ensures prefixes { IfSome result (λ _. PutsBlock self.old.prefixes.items self.new.prefixes.items lists.now base) }
        ensures nodes { self.new.nodes ≡ self.old.nodes }
    {
        for k in 0..lists.len() {
            self.put_prefixes(&lists[k], base)?;
        }
        Some(())
    }

    /// Reads the lists, whose prefixes have that many positions.
    pub(crate) fn read(
        alloc: Global,
        mut lists: Vec<Reading<'_>>,
        prefixes: u32,
    ) -> Result<Trie, NoTree>
        ensures { IfOk result (λ trie. AreNodesOf lists.entry.items trie) }
    {
        let mut trie = Trie::new(alloc, prefixes, lists.len())?;
        for block in 0..usize::MAX / WIDTH {
            let base = block * WIDTH;
            lists.retain(|list| list.types.len() > base);
            if lists.is_empty() {
                return Ok(trie);
            }
            begin_block(&mut lists, base);
            trie.read_block(&mut lists, base)?;
            trie.end_block(&lists, base).ok_or(NoTree::TooMany)?;
        }
        Err(NoTree::TooMany)
    }
}
