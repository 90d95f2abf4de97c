// What the parser does at a token.
ghost use Rattle.std.specs.Prelude.{◌∷◌, ◌≤◌, ◌+◌, ◌*◌, length, IfOk, reverse};
ghost use Rattle.ppd_parse.specs.Machine.{Advanced, Taken, state_of, wanting};
ghost use Rattle.ppd_parse.specs.Rank.{rank, Held, Paid};
ghost use Rattle.ppd_parse.specs.Stack.{IsGood};

use crate::Token;
use crate::grammar::production;
use crate::growth::{Grove, Step};
use crate::kind::{is_operator, kind_of};
use crate::symbol::{At, Symbol, Want};
use crate::want::{base_in, want};
use ppd_ast::Steps;
use std::alloc::AllocError;
use std::sync::ledger::Ledger;

// Deals with a symbol that is wanted next, where the token is next.
fn meet(
    wants: &mut Vec<Want>,
    grove: &mut Grove,
    token: &Token,
    symbol: Symbol,
    at: At,
    base: usize,
) -> Result<Step, AllocError>
    requires { IsGood (Want.Get symbol at base ∷ reverse wants.old.items) }
    ensures { IfOk result
        (λ step. Advanced token.now step (wanting (Want.Get symbol at base) (state_of wants.old.items grove.old))
        (state_of wants.new.items grove.new)) }
{
    let kind = kind_of(&token.kind);
    match symbol {
        Symbol::Exact(wanted) => {
            if wanted == kind {
                grove.leaf(token)?;
                Ok(Step::Read(at))
            } else {
                Ok(Step::Refused)
            }
        }
        Symbol::Operator(level) => {
            if is_operator(level, kind) {
                grove.leaf(token)?;
                Ok(Step::Read(at))
            } else {
                Ok(Step::Refused)
            }
        }
        _ => {
            let base = base_in(symbol, base, grove.roots.len());
            match production(symbol, kind) {
                Some(parts) => {
                    want(wants, at, base, parts)?;
                    Ok(Step::Moved)
                }
                None => Ok(Step::Refused),
            }
        }
    }
}

// Deals with a want that was on top, where the token is next.
fn advance(
    wants: &mut Vec<Want>,
    grove: &mut Grove,
    token: &Token,
    want: Want,
) -> Result<Step, AllocError>
    requires { IsGood (want ∷ reverse wants.old.items) }
    ensures { IfOk result
        (λ step. Advanced token.now step (wanting want (state_of wants.old.items grove.old))
        (state_of wants.new.items grove.new)) }
{
    match want {
        Want::Close(rule, base) => {
            grove.close(rule, base)?;
            Ok(Step::Moved)
        }
        Want::Get(symbol, at, base) => meet(wants, grove, token, symbol, at, base),
    }
}

// Raises the peak to a height of the stack that is at most seven above it.
pub fn raise(peak: &mut usize, height: usize)
    requires near { height ≤ peak.old + 7 }
    ensures held { height ≤ peak.new }
    ensures near { peak.new ≤ peak.old + 7 }
    ensures later { peak.old ≤ peak.new }
{
    if height > *peak {
        *peak = height;
    }
}

// Reads a token and answers where it stands, or none where no program goes on with it. A step is
// dealing with one want, and leaves at most seven more on the stack than before.
pub fn take<L: Ledger>(
    wants: &mut Vec<Want>,
    grove: &mut Grove,
    token: &Token,
    steps: &mut Steps<L>,
    peak: &mut usize,
) -> Result<Option<At>, AllocError>
    requires good { IsGood (reverse wants.old.items) }
    requires held { length wants.old.items ≤ peak.old }
    ensures taken { IfOk result
        (λ at. Taken token.now at (state_of wants.old.items grove.old) (state_of wants.new.items grove.new)) }
    ensures cost { steps.new ≤ steps.old + rank (reverse wants.old.items) }
    ensures paid { IfOk result (λ at. Paid at steps.old steps.new (reverse wants.old.items) (reverse wants.new.items)) }
    ensures held { IfOk result (λ at. Held at (length wants.new.items) peak.new) }
    ensures room { peak.new + 7 * steps.old ≤ peak.old + 7 * steps.new }
    ensures later { peak.old ≤ peak.new }
{
    while let Some(want) = wants.pop() {
        steps.tick();
        match advance(wants, grove, token, want)? {
            Step::Moved => raise(peak, wants.len()),
            Step::Read(at) => return Ok(Some(at)),
            Step::Refused => return Ok(None),
        }
    }
    Ok(None)
}
