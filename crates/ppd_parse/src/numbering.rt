// The nodes of a tree that has grown, numbered with the root first.
ghost use Rattle.std.specs.Prelude.{◌≡◌, ◌<◌, ◌≤◌, ◌^◌, length, All, IfOk};
ghost use Rattle.ppd_parse.specs.Renumbered.{renumbered, turned};

use crate::growth::Grove;
use crate::node::{Node, Tree};
use ppd_ast::{Ids, Seq};
use std::alloc::{AllocError, Global};

// The numbers, counted from the last of these many nodes.
fn turn(alloc: Global, ids: &[usize], count: usize) -> Result<Ids, AllocError>
    requires few { count ≤ 2 ^ 32 }
    requires within { All (λ c. c < count) ids.now }
    ensures { IfOk result (λ turns. turns ≡ turned count ids.now) }
{
    let mut turns = Vec::new(alloc);
    for id in ids {
        turns.push((count - 1 - *id) as u32)?;
    }
    Ok(Seq::from_vec(turns))
}

// The tree of the nodes, the last of them first.
pub fn renumber(alloc: Global, grove: Grove) -> Result<Tree, AllocError>
    requires few { length grove.nodes.items ≤ 2 ^ 32 }
    ensures { IfOk result (λ tree. tree.nodes ≡ renumbered grove.nodes.items) }
{
    let count = grove.nodes.len();
    let mut growths = grove.nodes;
    let mut nodes = Vec::new(alloc);
    while let Some(growth) = growths.pop() {
        let children = turn(alloc, &growth.children, count)?;
        nodes.push(Node {
            rule: growth.rule,
            token: growth.token,
            children,
        })?;
    }
    Ok(Tree {
        nodes: Seq::from_vec(nodes),
    })
}
