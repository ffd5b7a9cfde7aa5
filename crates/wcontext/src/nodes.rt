//! The nodes of a trie of lists of types, with the links of Aho and Corasick.
ghost use Rattle.std.specs.Prelude.{◌≡◌, ◌+◌, ◌<◌, [], ◌∷◌, length, IfSome, IfOk};
ghost use Rattle.wcontext.specs.Nodes.{type_key, HasChild, AreChildren, PutsChild, FindsSuffix};
ghost use Rattle.wcontext.specs.Nodes.{AreNodes, KeepsTexts, IsNodeAfter, GivesLinks};

use crate::fault::NoTree;
use std::alloc::{AllocError, Global};
use wsyntax::ValType;

/// How many value types there are.
const TYPES: usize = 4;

/// From here on what a node has below it is the index of a fork.
const FORKS: u32 = 1 << 31;

/// What is kept of a node. Its interval replaces its link and its children, so that a trie and the intervals of its
/// nodes are never in memory at once.
#[derive(Clone, Copy)]
pub(crate) struct Node {
    /// Where a look-up that finds no child here goes on: at the node's link, or farther up the links, past nodes whose only child
    /// is by the same type as this node's. Once the nodes are in order, its number in the preorder.
    pub(crate) above: u32,
    /// One child: four times its index, plus the key of its type. Several: `FORKS`, plus the index of the fork. None: 0.
    /// Once the nodes are in order, where the numbers of the nodes below it end.
    pub(crate) below: u32,
}

/// The children of a node that has several, by the keys of their types; 0 for none.
#[derive(Clone, Copy)]
struct Fork {
    children: [u32; TYPES],
}

/// Nodes, each of which stands for a list of types, and node 0 for no type. Nearly all have one child or none.
#[derive(Drop)]
pub(crate) struct Nodes {
    nodes: Vec<Node>,
    /// Their links: the node of the longest shorter prefix that is a suffix of a node's types.
    // PERF: they lie apart, since a way up reads its first alone.
    links: Vec<u32>,
    /// At most one a list: where it parts from those before it.
    forks: Vec<Fork>,
    /// From here on nodes may get children.
    current_level: u32,
    /// From here on nodes may get children after the next call of `start_level`.
    next: u32,
}

#[inline]
fn type_key(t: ValType) -> u32
    ensures { result ≡ type_key t }
{
    match t {
        ValType::I32 => 0,
        ValType::I64 => 1,
        ValType::F32 => 2,
        ValType::F64 => 3,
    }
}

/// Whether two nodes have one child alone, both by the same type, by what lies below them.
#[inline]
fn by_same_type(below: u32, other: u32) -> bool {
    below >= TYPES as u32
        && other >= TYPES as u32
        && below < FORKS
        && other < FORKS
        && below % 4 == other % 4
}

impl Nodes {
    /// Node 0, and room for `more` nodes, made of `lists` lists.
    pub(crate) fn new(alloc: Global, more: u32, lists: usize) -> Result<Nodes, AllocError>
        ensures { IfOk result (AreNodes ([] ∷ [])) }
    {
        let room = more as usize + 1;
        let mut nodes = Vec::with_capacity(alloc, room)?;
        nodes.push(Node { above: 0, below: 0 })?;
        let mut links = Vec::with_capacity(alloc, room)?;
        links.push(0)?;
        let forks = Vec::with_capacity(alloc, lists)?;
        Ok(Nodes {
            nodes,
            links,
            forks,
            current_level: 0,
            next: 0,
        })
    }

    /// Lets the nodes that were made since the last call get children, and those before no more.
    pub(crate) fn start_level(&mut self) -> Option<()>
        ensures { IfSome result (λ _. KeepsTexts self.old self.new) }
    {
        let end = u32::try_from(self.nodes.len()).ok()?;
        self.current_level = self.next;
        self.next = end;
        Some(())
    }

    /// The child of a node by that type; 0 where it has none.
    #[inline]
    fn child(&self, node: u32, t: ValType) -> u32
        ensures { 0 < result → HasChild self.now node t result }
    {
        let Some(parent) = self.nodes.get(node as usize) else {
            return 0;
        };
        let below = parent.below;
        if below < FORKS {
            return if below % 4 == type_key(t) {
                below / 4
            } else {
                0
            };
        }
        match self.forks.get((below - FORKS) as usize) {
            Some(fork) => fork.children[type_key(t) as usize],
            None => 0,
        }
    }

    /// The children of a node by the keys of their types; 0 for none.
    fn children(&self, node: u32) -> [u32; TYPES]
        ensures { AreChildren self.now node result }
    {
        [
            self.child(node, ValType::I32),
            self.child(node, ValType::I64),
            self.child(node, ValType::F32),
            self.child(node, ValType::F64),
        ]
    }

    /// The node of the longest list that ends the types of `node` and then `t`, and has fewer. It goes up the links until a
    /// node has a child of that type: in all lists together that is at most two steps a type, and fewer where a node's only
    /// child has the same type as that of the node above.
    #[inline]
    fn longest_suffix(&self, node: u32, t: ValType) -> u32
        ensures { FindsSuffix self.now node t result }
    {
        let Some(link) = self.links.get(node as usize) else {
            return 0;
        };
        let mut from = node;
        let mut at = *link;
        while at < from {
            let child = self.child(at, t);
            if child > 0 {
                return child;
            }
            let Some(passed) = self.nodes.get(at as usize) else {
                return 0;
            };
            from = at;
            at = passed.above;
        }
        0
    }

    /// Lets a look-up pass the link of a node, where both have one child alone, by the same type: where the node has no child by
    /// a type, its link has none either.
    #[inline]
    fn pass_link(&mut self, node: u32) -> Option<()>
        ensures { IfSome result (λ _. KeepsTexts self.old self.new) }
    {
        let link = *self.links.get(node as usize)?;
        let of = self.nodes.get(node as usize)?.below;
        let Node { above, below } = *self.nodes.get(link as usize)?;
        if above < link && link < node && link < self.current_level && by_same_type(of, below) {
            self.nodes[node as usize].above = above;
        }
        Some(())
    }

    /// Makes a node the only child of another, which has none, by that type.
    fn put_only(&mut self, node: u32, t: ValType, child: u32) -> Option<()>
        ensures { IfSome result (λ _. PutsChild self.old self.new node t child) }
    {
        if child >= FORKS / 4 || node as usize >= self.nodes.len() {
            return None;
        }
        self.nodes[node as usize].below = 4 * child + type_key(t);
        Some(())
    }

    /// What lies below a node that gets the next fork.
    fn next_fork(&self) -> Option<u32>
        ensures { IfSome result (λ below. below ≡ FORKS + length self.now.forks.items) }
    {
        FORKS.checked_add(u32::try_from(self.forks.len()).ok()?)
    }

    /// Makes a node the child of another by that type, and puts all of that one's children into a new fork.
    fn put_fork(&mut self, node: u32, t: ValType, child: u32) -> Result<(), NoTree>
        ensures { IfOk result (λ _. PutsChild self.old self.new node t child) }
    {
        let mut children = self.children(node);
        children[type_key(t) as usize] = child;
        let position = self.next_fork().ok_or(NoTree::TooMany)?;
        if node as usize >= self.nodes.len() {
            return Err(NoTree::TooMany);
        }
        self.forks.push(Fork { children })?;
        self.nodes[node as usize].below = position;
        Ok(())
    }

    /// Makes a node the child of another by that type, by which it has none.
    fn put_child(&mut self, node: u32, t: ValType, child: u32) -> Result<(), NoTree>
        ensures { IfOk result (λ _. PutsChild self.old self.new node t child) }
    {
        let parent = self.nodes.get(node as usize).ok_or(NoTree::TooMany)?;
        if parent.below == 0 {
            self.put_only(node, t, child).ok_or(NoTree::TooMany)
        } else {
            self.put_fork(node, t, child)
        }
    }

    /// The node of the types of `node` and then `t`, which is made where there is none. Nodes are made in the order of their
    /// lengths, so that each shorter suffix has its node already, and a node that may get children lies on no way up that was
    /// passed. `TooMany` for a node that gets no more children too.
    #[inline]
    pub(crate) fn after(&mut self, node: u32, t: ValType) -> Result<u32, NoTree>
        ensures { IfOk result (λ d. IsNodeAfter self.old self.new node t d) }
    {
        let child = self.child(node, t);
        if child > 0 {
            return Ok(child);
        }
        if node < self.current_level {
            return Err(NoTree::TooMany);
        }
        let link = self.longest_suffix(node, t);
        let made = u32::try_from(self.nodes.len()).ok().ok_or(NoTree::TooMany)?;
        self.links.push(link)?;
        self.nodes.push(Node {
            above: link,
            below: 0,
        })?;
        self.put_child(node, t, made)?;
        self.pass_link(node).ok_or(NoTree::TooMany)?;
        Ok(made)
    }

    /// The nodes with their links above them.
    pub(crate) fn linked(self) -> Vec<Node>
        ensures { GivesLinks self result.items }
    {
        let mut nodes = self.nodes;
        for i in 0..nodes.len().min(self.links.len()) {
            nodes[i].above = self.links[i];
        }
        nodes
    }
}
