// The trees of sources, as text.

use ppd_ast::Place;
use ppd_parse::{Node, Rule, SyntaxError, Tree, lex, parse};
use std::alloc::{AllocError, Global};

fn told_at(alloc: Global, word: &str, place: Place) -> Result<String, AllocError> {
    format!(in alloc; "{word} {}:{}", place.line, place.column)
}

fn told_error(alloc: Global, error: SyntaxError) -> Result<String, AllocError> {
    match error {
        SyntaxError::Unexpected(place) => told_at(alloc, "Unexpected", place),
        SyntaxError::Deep(place) => told_at(alloc, "Deep", place),
        SyntaxError::Wide(place) => told_at(alloc, "Wide", place),
        SyntaxError::Memory => format!(in alloc; "no memory"),
    }
}

fn rule_name(rule: Rule) -> &'static str {
    match rule {
        Rule::Leaf => "Leaf",
        Rule::Source => "Source",
        Rule::Shared => "Shared",
        Rule::Sitem => "Sitem",
        Rule::Sems => "Sems",
        Rule::Chans => "Chans",
        Rule::Function => "Function",
        Rule::Params => "Params",
        Rule::Process => "Process",
        Rule::Block => "Block",
        Rule::Local => "Local",
        Rule::Litem => "Litem",
        Rule::Value => "Value",
        Rule::Call => "Call",
        Rule::Place => "Place",
        Rule::Change => "Change",
        Rule::Stmt => "Stmt",
        Rule::Unary => "Unary",
        Rule::Binary => "Binary",
    }
}

/// A node: a token's text, or a rule and how many children it has.
fn drawn_node(alloc: Global, source: &str, node: &Node) -> Result<String, AllocError> {
    match &node.token {
        Some(token) => source
            .get(token.from as usize..token.to as usize)
            .unwrap_or("?")
            .to_string(alloc),
        None => {
            let rule = rule_name(node.rule);
            format!(in alloc; "{rule}{}", node.children.len())
        }
    }
}

/// A tree with each node after its children, and blanks between them.
fn drawn(alloc: Global, source: &str, tree: &Tree) -> Result<String, AllocError> {
    let mut text = String::new(alloc);
    for node in tree.nodes.as_slice().iter().rev() {
        if !text.is_empty() {
            text.push_str(" ")?;
        }
        let part = drawn_node(alloc, source, node)?;
        text.push_str(&part)?;
    }
    Ok(text)
}

/// The tree of a source, or why it has none; a source without tokens counts as want of memory.
#[tactic(auto, using(ppd_parse::proofs::Counted::short_tokens))]
fn tree_of(alloc: Global, source: &str) -> Result<Tree, SyntaxError> {
    match lex(alloc, source.as_bytes()) {
        Err(_) => Err(SyntaxError::Memory),
        Ok(tokens) => parse(alloc, &tokens),
    }
}

/// What comes of a source: its tree as drawn, or the refusal.
pub(crate) fn told_tree(alloc: Global, source: &str) -> Result<String, AllocError> {
    match tree_of(alloc, source) {
        Ok(tree) => drawn(alloc, source, &tree),
        Err(error) => told_error(alloc, error),
    }
}

/// What comes of a source: the number of the tree's nodes, or the refusal.
pub(crate) fn told_nodes(alloc: Global, source: &str) -> Result<String, AllocError> {
    match tree_of(alloc, source) {
        Ok(tree) => format!(in alloc; "{}", tree.nodes.len()),
        Err(error) => told_error(alloc, error),
    }
}
