//! A walk over the tree of links, a preorder: each node and all below it get numbers side by side.
ghost use Rattle.std.specs.Prelude.{length, IfSome};
ghost use Rattle.wcontext.specs.Walk.{HaveLinksOf, IsCountedFrom, AreCounted, ArePreorderOf};

use crate::nodes::Node;

/// Puts into `below` of each node a one, for itself.
fn count_themselves(nodes: &mut [Node])
    ensures links { HaveLinksOf nodes.old nodes.new }
    ensures counted { IsCountedFrom nodes.new (length nodes.new) }
{
    for i in 0..nodes.len() {
        nodes[i].below = 1;
    }
}

/// Puts into `below` of each node how many it and all below it are.
fn count_below(nodes: &mut [Node]) -> Option<()>
    ensures links { HaveLinksOf nodes.old nodes.new }
    ensures counted { IfSome result (λ _. AreCounted nodes.new) }
{
    count_themselves(nodes);
    let mut i = nodes.len();
    while i > 1 {
        i -= 1;
        let Node { above, below } = nodes[i];
        let link = above as usize;
        if link >= i {
            return None;
        }
        nodes[link].below = nodes[link].below.checked_add(below)?;
    }
    Some(())
}

/// Gives nodes that are counted their numbers in the preorder. `below` of a node that has its number is the next that is left for
/// those below it.
fn assign_counted(nodes: &mut [Node]) -> Option<()>
    requires { AreCounted nodes.old }
    ensures { IfSome result (λ _. ArePreorderOf nodes.old nodes.new) }
{
    if nodes.is_empty() {
        return None;
    }
    nodes[0] = Node { above: 0, below: 1 };
    for i in 1..nodes.len() {
        let Node { above, below } = nodes[i];
        let link = above as usize;
        if link >= i {
            return None;
        }
        let start = nodes[link].below;
        nodes[link].below = start.checked_add(below)?;
        nodes[i] = Node {
            above: start,
            below: start.checked_add(1)?,
        };
    }
    Some(())
}

/// Gives the nodes their intervals in the preorder instead of their links: the interval of a node lies within that of the node that
/// its link leads to.
pub(crate) fn assign_preorder(nodes: &mut [Node]) -> Option<()>
    ensures { IfSome result (λ _. ArePreorderOf nodes.old nodes.new) }
{
    count_below(nodes)?;
    assign_counted(nodes)?;
    Some(())
}
