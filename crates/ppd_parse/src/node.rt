// The nodes of a tree, and those that the parser makes.
use crate::Token;
use crate::symbol::Rule;
use ppd_ast::{Ids, Seq};

/// A node of the tree: a leaf with its token, or a rule with the numbers of its children, in source order.
#[derive(Drop)]
pub struct Node {
    pub rule: Rule,
    pub token: Option<Token>,
    pub children: Ids,
}

/// The tree of a source. Node 0 is its root; the children of a node have larger numbers than the node.
#[derive(Drop)]
pub struct Tree {
    pub nodes: Seq<Node>,
}

// A node while the tree grows: a token, or a rule and the numbers of its children, which are smaller than its own.
#[derive(Drop)]
pub struct Growth {
    pub rule: Rule,
    pub token: Option<Token>,
    pub children: Vec<usize>,
}
