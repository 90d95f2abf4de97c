// The trees that the parser has read, as nodes in the order in which they were complete.
ghost use Rattle.std.specs.Prelude.{◌≡◌, ◌≤◌, ◌++◌, ◌∷◌, [], length, take, drop, IfOk, OnOk};
ghost use Rattle.ppd_parse.specs.Grammar.{leaf, close};
ghost use Rattle.ppd_parse.specs.Grown.{IsLeafy};
ghost use Rattle.ppd_parse.specs.Table.{shapes_of};

use crate::growth::Grove;
use crate::node::Growth;
use crate::symbol::Rule;
use crate::{Token, TokenKind};
use std::alloc::{AllocError, Global};

// A copy of what a token is.
fn copy_kind(kind: &TokenKind) -> Result<TokenKind, AllocError>
    ensures { IfOk result (λ copy. copy ≡ kind.now) }
{
    match kind {
        TokenKind::Name(text) => Ok(TokenKind::Name(text.clone()?)),
        TokenKind::Number(value) => Ok(TokenKind::Number(*value)),
        TokenKind::Word(kind) => Ok(TokenKind::Word(*kind)),
        TokenKind::Mark(kind) => Ok(TokenKind::Mark(*kind)),
        TokenKind::End => Ok(TokenKind::End),
    }
}

// A copy of a token.
fn copy(token: &Token) -> Result<Token, AllocError>
    ensures { IfOk result (λ copy. copy ≡ token.now) }
{
    let kind = copy_kind(&token.kind)?;
    Ok(Token {
        kind,
        from: token.from,
        to: token.to,
        place: token.place,
    })
}

impl Grove {
    pub fn new(alloc: Global) -> Grove
        ensures { shapes_of result.nodes.items result.roots.items ≡ [] }
    {
        Grove {
            alloc,
            nodes: Vec::new(alloc),
            roots: Vec::new(alloc),
        }
    }

    // Adds a node, the parent of the roots from the base on. Where memory is wanting, no node is left.
    fn add(&mut self, growth: Growth, base: usize) -> Result<(), AllocError>
        requires base { base ≤ length self.old.roots.items }
        requires children { growth.children.items ≡ drop base self.old.roots.items }
        requires leafy { IsLeafy growth }
        ensures nodes { OnOk result (self.new.nodes.items ≡ self.old.nodes.items ++ growth ∷ []) }
        ensures roots { OnOk result
            (self.new.roots.items ≡ take base self.old.roots.items ++ length self.old.nodes.items ∷ []) }
    {
        let id = self.nodes.len();
        self.nodes.push(growth)?;
        self.roots.truncate(base);
        match self.roots.push(id) {
            Ok(()) => Ok(()),
            Err(_) => {
                self.nodes.clear();
                self.roots.clear();
                Err(AllocError)
            }
        }
    }

    // Adds a leaf.
    pub fn leaf(&mut self, token: &Token) -> Result<(), AllocError>
        ensures { OnOk result
            (shapes_of self.new.nodes.items self.new.roots.items
            ≡ shapes_of self.old.nodes.items self.old.roots.items ++ leaf token.now ∷ []) }
    {
        let base = self.roots.len();
        let children = Vec::new(self.alloc);
        let token = copy(token)?;
        let growth = Growth {
            rule: Rule::Leaf,
            token: Some(token),
            children,
        };
        self.add(growth, base)?;
        Ok(())
    }

    // Makes one node of the trees from the base on.
    pub fn close(&mut self, rule: Rule, base: usize) -> Result<(), AllocError>
        ensures { OnOk result
            (shapes_of self.new.nodes.items self.new.roots.items
            ≡ close rule base (shapes_of self.old.nodes.items self.old.roots.items)) }
    {
        let base = base.min(self.roots.len());
        let children = Vec::from_slice(self.alloc, &self.roots[base..])?;
        let growth = Growth {
            rule,
            token: None,
            children,
        };
        self.add(growth, base)?;
        Ok(())
    }
}
