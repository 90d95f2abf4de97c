// The parser's way through the tokens.
ghost use Rattle.std.specs.Prelude.{◌≡◌, ◌<◌, ◌≤◌, ◌+◌, ◌*◌, ◌^◌, [], ◌∷◌, length, IfOk, IfErr, OnOk, reverse};
ghost use Rattle.ppd_parse.specs.Formed.{EndOnce};
ghost use Rattle.ppd_parse.specs.Answer.{IsParseOf};
ghost use Rattle.ppd_parse.specs.Grammar.{outside};
ghost use Rattle.ppd_parse.specs.Limits.{count_with, is_sign, EndsAs, IsRefused, IsTree, Stepped};
ghost use Rattle.ppd_parse.specs.Machine.{state_of};
ghost use Rattle.ppd_parse.specs.Rank.{rank};
ghost use Rattle.ppd_parse.specs.Stack.{IsGood, HasEndsAlone};
ghost use Rattle.ppd_parse.specs.Table.{shapes_of};

use crate::error::SyntaxError;
use crate::growth::Grove;
use crate::kind::{is_operator, kind_of};
use crate::machine::{raise, take};
use crate::node::Tree;
use crate::numbering::renumber;
use crate::symbol::{At, Level, Symbol, Want};
use crate::{Kind, Token};
use ppd_ast::Steps;
use ppd_ast::limits::{MOST_OPEN, MOST_SOURCE_OPERATORS};
use std::alloc::{AllocError, Global};
use std::marker::Brand;
use std::sync::ledger::{Blank, Ledger};

// Whether the kind is an operator where it stands in an expression.
fn is_sign(kind: Kind) -> bool
    ensures { result ≡ is_sign kind }
{
    match kind {
        Kind::NotMark => true,
        _ => {
            is_operator(Level::Product, kind)
                || is_operator(Level::Sum, kind)
                || is_operator(Level::Compare, kind)
                || is_operator(Level::Equal, kind)
                || is_operator(Level::And, kind)
                || is_operator(Level::Or, kind)
        }
    }
}

// The operators of the expression so far, with a token that stands there.
fn count_with(count: u16, token: &Token, at: At) -> u16
    requires { count ≤ MOST_SOURCE_OPERATORS }
    ensures { result ≡ count_with count (record { token = token.now; at = at }) }
{
    if at.inside {
        if is_sign(kind_of(&token.kind)) {
            count + 1
        } else {
            count
        }
    } else {
        0
    }
}

// Reads a token after some operators of an expression, and answers how many there are then.
fn step<L: Ledger>(
    wants: &mut Vec<Want>,
    grove: &mut Grove,
    count: u16,
    token: &Token,
    steps: &mut Steps<L>,
    peak: &mut usize,
) -> Result<u16, SyntaxError>
    requires good { IsGood (reverse wants.old.items) }
    requires few { count ≤ MOST_SOURCE_OPERATORS }
    requires held { length wants.old.items ≤ peak.old }
    ensures stepped { Stepped count token.now result (state_of wants.old.items grove.old)
        (state_of wants.new.items grove.new) }
    ensures cost { steps.new ≤ steps.old + rank (reverse wants.old.items) }
    ensures paid { OnOk result
        (steps.new + rank (reverse wants.new.items) ≤ steps.old + rank (reverse wants.old.items) + 15) }
    ensures held { OnOk result (length wants.new.items ≤ peak.new) }
    ensures room { peak.new + 7 * steps.old ≤ peak.old + 7 * steps.new }
    ensures later { peak.old ≤ peak.new }
{
    match take(wants, grove, token, steps, peak) {
        Err(_) => Err(SyntaxError::Memory),
        Ok(None) => Err(SyntaxError::Unexpected(token.place)),
        Ok(Some(at)) => {
            let count = count_with(count, token, at);
            if at.depth > MOST_OPEN {
                Err(SyntaxError::Deep(token.place))
            } else if count > MOST_SOURCE_OPERATORS {
                Err(SyntaxError::Wide(token.place))
            } else {
                Ok(count)
            }
        }
    }
}

// Closes the nodes that are complete where the tokens end.
fn finish<L: Ledger>(
    wants: &mut Vec<Want>,
    grove: &mut Grove,
    steps: &mut Steps<L>,
) -> Result<(), AllocError>
    requires { HasEndsAlone (reverse wants.old.items) }
    ensures cost { steps.new ≤ steps.old + rank (reverse wants.old.items) }
    ensures ends { OnOk result
        (EndsAs (state_of wants.old.items grove.old) (shapes_of grove.new.nodes.items grove.new.roots.items)) }
{
    while let Some(want) = wants.pop() {
        steps.tick();
        match want {
            Want::Close(rule, base) => grove.close(rule, base)?,
            Want::Get(_, _, _) => {}
        }
    }
    Ok(())
}

// What is wanted before the first token: a source, outside every construct.
fn begin(alloc: Global) -> Result<Vec<Want>, AllocError>
    ensures { IfOk result (λ wants. wants.items ≡ Want.Get Symbol.Source outside 0 ∷ []) }
{
    let outside = At {
        depth: 0,
        inside: false,
    };
    let wants = Vec::from_slice(alloc, &[Want::Get(Symbol::Source, outside, 0)])?;
    Ok(wants)
}

// The nodes of the tokens of a source, up to its root.
fn grow<L: Ledger>(
    alloc: Global,
    tokens: &[Token],
    steps: &mut Steps<L>,
    peak: &mut usize,
) -> Result<Grove, SyntaxError>
    requires ends { EndOnce tokens.now }
    ensures cost { steps.new ≤ steps.old + 15 * (length tokens.now + 1) }
    ensures room { peak.new ≤ peak.old + 112 * (length tokens.now + 1) }
    ensures later { peak.old ≤ peak.new }
    ensures tree { IfOk result (λ grove. IsTree tokens.now (shapes_of grove.nodes.items grove.roots.items)) }
    ensures refused { IfErr result (λ error. IsRefused tokens.now error) }
{
    let mut grove = Grove::new(alloc);
    let mut wants = begin(alloc)?;
    raise(peak, 1);
    let mut count: u16 = 0;
    for token in tokens {
        count = step(&mut wants, &mut grove, count, token, steps, peak)?;
    }
    finish(&mut wants, &mut grove, steps)?;
    Ok(grove)
}

/// The tree of the tokens, as `parse` answers it, in at most 15 steps for each token and 15 more. A
/// step is dealing with one part of the grammar that is wanted: a token, a symbol or the end of a
/// node.
///
/// What is still wanted stands on a stack, and `peak` is raised to the most parts that stood there
/// at one time: by at most 112 for each token and 112 more. It never falls.
pub fn parse_in<L: Ledger>(
    alloc: Global,
    tokens: &[Token],
    steps: &mut Steps<L>,
    peak: &mut usize,
) -> Result<Tree, SyntaxError>
    requires ends { EndOnce tokens.now }
    requires short { length tokens.now ≤ 2 ^ 30 }
    ensures parse { IsParseOf tokens.now result }
    ensures cost { steps.new ≤ steps.old + 15 * (length tokens.now + 1) }
    ensures room { peak.new ≤ peak.old + 112 * (length tokens.now + 1) }
    ensures later { peak.old ≤ peak.new }
{
    let grove = grow(alloc, tokens, steps, peak)?;
    Ok(renumber(alloc, grove)?)
}

// The tree of the tokens, with steps and a peak that nobody reads.
fn parse_from<L: Ledger>(alloc: Global, tokens: &[Token], blank: Blank) -> Result<Tree, SyntaxError>
    requires name { blank.name ≡ L.name }
    requires parts { blank.parts ≡ L.parts }
    requires some { 0 < blank.parts }
    requires ends { EndOnce tokens.now }
    requires short { length tokens.now ≤ 2 ^ 30 }
    ensures { IsParseOf tokens.now result }
{
    let mut steps: Steps<L> = Steps::new(blank);
    let mut peak = 0;
    parse_in(alloc, tokens, &mut steps, &mut peak)
}

/// The tree of the tokens of a source, as a table of nodes with the root first.
///
/// The tokens end with `End`, which stands nowhere else, and are at most 2^30, so that the numbers
/// of nodes fit `u32`: there are fewer than three nodes for each token. The answer is a tree
/// exactly where the tokens are a program of the grammar with at most 64 constructs open at each
/// token and at most 256 operators in each expression that is no part of another. The first token
/// that breaks one of these is answered: `Unexpected` where some program begins with the tokens
/// before it and none with the tokens through it, else `Deep` where it makes 65 constructs open,
/// else `Wide` where it is the 257th operator. `Memory` is want of memory.
pub fn parse(alloc: Global, tokens: &[Token]) -> Result<Tree, SyntaxError>
    requires ends { EndOnce tokens.now }
    requires short { length tokens.now ≤ 2 ^ 30 }
    ensures { IsParseOf tokens.now result }
{
    parse_from::<Brand>(alloc, tokens, Blank::new(1))
}
