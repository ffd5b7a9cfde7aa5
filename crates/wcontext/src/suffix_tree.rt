//! Which prefixes of long lists are suffixes of which: it is found out once, so that each question takes constant time.
ghost use Rattle.std.specs.Prelude.{◌≡◌, ◌↔◌, ◌+◌, ◌<◌, true, length, Err, IfSome, IfOk, IsErr};
ghost use Rattle.std.specs.Result.{result_ok};
ghost use Rattle.wcontext.specs.SuffixTree.{PutsList, IsGatheredFrom, IsSuffixTree, HoldsPrefix, IsStart, TellsSuffix};
ghost use Rattle.wcontext.specs.declared.fault.NoTree.TheVariants as no_tree;

use crate::fault::NoTree;
use crate::lists::TypeList;
use crate::nodes::Node;
use crate::trie::{Reading, Trie};
use crate::tuning::{COMPARED, LONG};
use crate::walk::assign_preorder;
use std::alloc::{AllocError, Global};
use wsyntax::{FuncTypes, ValType};

/// The start of a list that is not in the tree.
const NONE: u32 = u32::MAX;

/// The positions of the first prefixes of a function type's lists.
#[derive(Clone, Copy)]
pub(crate) struct Starts {
    params: u32,
    results: u32,
}

/// The numbers in the preorder of a prefix and of those that it is a suffix of: from its own on, up to `end`.
#[derive(Clone, Copy)]
struct Interval {
    start: u32,
    end: u32,
}

/// The prefixes of long lists, each with the interval of those that it is a suffix of.
#[derive(Drop)]
pub(crate) struct SuffixTree {
    /// Of each function type.
    starts: Vec<Starts>,
    /// The nodes of the prefixes, by their positions.
    prefixes: Vec<u32>,
    /// The nodes, in order.
    nodes: Vec<Node>,
}

/// The long lists of some function types that go into the tree.
#[derive(Drop)]
struct Gathered<'a> {
    /// How many types the shortest may have.
    least: usize,
    starts: Vec<Starts>,
    lists: Vec<Reading<'a>>,
    /// How many prefixes these lists have.
    prefixes: u32,
}

/// How many long lists some function types have, how many types these have together, and the length of the longest.
#[derive(Clone, Copy)]
struct LongLists {
    count: usize,
    types: usize,
    longest: usize,
}

impl LongLists {
    /// Counts a list of that length, if it is long.
    fn and(self, length: usize) -> LongLists {
        if length < LONG {
            return self;
        }
        LongLists {
            count: self.count.saturating_add(1),
            types: self.types.saturating_add(length),
            longest: self.longest.max(length),
        }
    }

    fn of(types: &FuncTypes) -> LongLists {
        let mut long = LongLists {
            count: 0,
            types: 0,
            longest: 0,
        };
        for y in 0..types.len() {
            if let Some(signature) = types.get(y) {
                long = long
                    .and(signature.params.len())
                    .and(signature.results.len());
            }
        }
        long
    }

    /// How many types a list of the tree has at least; `None` where no list has as many, or where the bodies have no byte.
    fn least_taken(self, bodies: &[&[u8]]) -> Option<usize> {
        let compared = self.types.saturating_mul(COMPARED);
        let least = compared.checked_div(size_of_all(bodies))?.max(LONG);
        if self.longest < least {
            return None;
        }
        Some(least)
    }
}

/// How many bytes the bodies have.
fn size_of_all(bodies: &[&[u8]]) -> usize {
    let mut size = 0usize;
    for body in bodies {
        size = size.saturating_add(body.len());
    }
    size
}

/// Where the prefixes of a list end that begin there.
fn end_of(start: u32, types: &[ValType]) -> Option<u32>
    ensures { IfSome result (λ end. end ≡ start + length types.now) }
{
    start.checked_add(u32::try_from(types.len()).ok()?)
}

impl<'a> Gathered<'a> {
    /// Puts a list after the others, if it is long enough, and says where its prefixes begin; `NONE` where it is not.
    fn add_list(&mut self, types: &'a [ValType]) -> Result<u32, NoTree>
        ensures add_list { IfOk result (λ start. PutsList self.old self.new types.now start) }
        ensures starts { self.new.starts ≡ self.old.starts }
    {
        if types.len() < self.least {
            return Ok(NONE);
        }
        let start = self.prefixes;
        let end = end_of(start, types).ok_or(NoTree::TooMany)?;
        self.lists.push(Reading::new(types, start))?;
        self.prefixes = end;
        Ok(start)
    }

    /// The lists of at least that many types, which are at most `count`.
    fn of(
        alloc: Global,
        types: &'a FuncTypes,
        least: usize,
        count: usize,
    ) -> Result<Gathered<'a>, NoTree>
        ensures { IfOk result (IsGatheredFrom types.now) }
    {
        let mut gathered = Gathered {
            least,
            starts: Vec::with_capacity(alloc, types.len())?,
            lists: Vec::with_capacity(alloc, count)?,
            prefixes: 0,
        };
        for y in 0..types.len() {
            let Some(signature) = types.get(y) else {
                return Err(NoTree::TooMany);
            };
            let params = gathered.add_list(signature.params)?;
            let results = gathered.add_list(signature.results)?;
            gathered.starts.push(Starts { params, results })?;
        }
        Ok(gathered)
    }
}

/// A tree that was made, if there is one: without memory there is an error instead.
fn tree_if_any(made: Result<SuffixTree, NoTree>) -> Result<Option<SuffixTree>, AllocError>
    ensures tree { IfOk result (λ tree. tree ≡ result_ok made) }
    ensures refused { IsErr result ↔ made ≡ Err no_tree.Memory }
{
    match made {
        Ok(tree) => Ok(Some(tree)),
        Err(NoTree::Memory) => Err(AllocError),
        Err(NoTree::TooMany) => Ok(None),
    }
}

impl SuffixTree {
    /// The tree of the lists of at least that many types, which are at most `count`.
    fn of(
        alloc: Global,
        types: &FuncTypes,
        least: usize,
        count: usize,
    ) -> Result<SuffixTree, NoTree>
        ensures { IfOk result (IsSuffixTree types.now) }
    {
        let gathered = Gathered::of(alloc, types, least, count)?;
        let count = gathered.prefixes;
        let Trie { nodes, prefixes } = Trie::read(alloc, gathered.lists, count)?;
        let mut nodes = nodes.linked();
        assign_preorder(&mut nodes).ok_or(NoTree::TooMany)?;
        Ok(SuffixTree {
            starts: gathered.starts,
            prefixes,
            nodes,
        })
    }

    /// The tree of the long lists. Lists that the bodies are too short to have compared often are left out (`COMPARED`). `None`
    /// where no list is left, or too many prefixes are; a refused growth is an error, since lists without a tree take long.
    pub(crate) fn new(
        alloc: Global,
        types: &FuncTypes,
        bodies: &[&[u8]],
    ) -> Result<Option<SuffixTree>, AllocError>
        ensures { IfOk result (λ tree. IfSome tree (IsSuffixTree types.now)) }
    {
        let long = LongLists::of(types);
        match long.least_taken(bodies) {
            Some(least) => tree_if_any(SuffixTree::of(alloc, types, least, long.count)),
            None => Ok(None),
        }
    }

    /// Where the prefixes of a list begin; `None` where it is not in the tree.
    #[inline]
    fn start_of(&self, list: TypeList) -> Option<u32>
        ensures { IfSome result (λ start. IsStart self.now.starts.items list start) }
    {
        let start = match list {
            TypeList::Params(y) => self.starts.get(y as usize)?.params,
            TypeList::Results(y) => self.starts.get(y as usize)?.results,
            TypeList::Nothing | TypeList::One(_) => return None,
        };
        if start < NONE { Some(start) } else { None }
    }

    /// The interval of the prefix of that list that has `count` types; `None` where the list is not in the tree.
    #[inline]
    fn interval(&self, list: TypeList, count: usize) -> Option<Interval>
        ensures { IfSome result (HoldsPrefix self.now list count) }
    {
        let start = self.start_of(list)?;
        let position = (start as usize).checked_add(count.checked_sub(1)?)?;
        let node = *self.prefixes.get(position)?;
        if node == 0 {
            return None;
        }
        let ordered = self.nodes.get(node as usize)?;
        Some(Interval {
            start: ordered.above,
            end: ordered.below,
        })
    }

    /// Whether the first `short_count` types of `short` are a suffix of the first `long_count` types of `long`, where
    /// both lists are long and have as many.
    #[inline]
    pub(crate) fn has_suffix(
        &self,
        short: TypeList,
        short_count: usize,
        long: TypeList,
        long_count: usize,
    ) -> Option<bool>
        ensures { IfSome result (λ answer. answer ≡ true → TellsSuffix self.now short short_count long long_count) }
    {
        let within = self.interval(long, long_count)?.start;
        let interval = self.interval(short, short_count)?;
        Some(interval.start <= within && within < interval.end)
    }
}
