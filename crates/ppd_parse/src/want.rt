// What is wanted for the parts of a production.
ghost use Rattle.std.specs.Prelude.{◌≡◌, OnOk};
ghost use Rattle.ppd_parse.specs.Choice.{pushed};
ghost use Rattle.ppd_parse.specs.Grammar.{base_in, deeper, inside, want_in};

use crate::symbol::{At, Part, Symbol, Want};
use ppd_ast::limits::MOST_OPEN;
use std::alloc::AllocError;

// Where one more construct is open.
fn deeper(at: At) -> At
    ensures { result ≡ deeper at }
{
    if at.depth <= MOST_OPEN {
        At {
            depth: at.depth + 1,
            inside: at.inside,
        }
    } else {
        at
    }
}

// In an expression.
fn inside(at: At) -> At
    ensures { result ≡ inside at }
{
    At {
        depth: at.depth,
        inside: true,
    }
}

fn want_in(at: At, base: usize, part: Part) -> Want
    ensures { result ≡ want_in at base part }
{
    match part {
        Part::Here(symbol) => Want::Get(symbol, at, base),
        Part::Deeper(symbol) => Want::Get(symbol, deeper(at), base),
        Part::Inside(symbol) => Want::Get(symbol, inside(at), base),
        Part::Wrap(rule) => Want::Close(rule, base),
        Part::WrapBack(rule) => Want::Close(rule, base.saturating_sub(2)),
    }
}

// Wants the parts, the first of them next.
pub fn want(wants: &mut Vec<Want>, at: At, base: usize, parts: &[Part]) -> Result<(), AllocError>
    ensures { OnOk result (wants.new.items ≡ pushed wants.old.items at base parts.now) }
{
    let mut left = parts.len();
    while left > 0 {
        left -= 1;
        wants.push(want_in(at, base, parts[left]))?;
    }
    Ok(())
}

// Where the trees of a symbol begin: a rest of a construct goes on with the construct's.
pub fn base_in(symbol: Symbol, base: usize, trees: usize) -> usize
    ensures { result ≡ base_in symbol base trees }
{
    match symbol {
        Symbol::Chain(_) => base,
        Symbol::ExprRest => base,
        Symbol::NamedRest => base,
        Symbol::StmtRest => base,
        Symbol::PlaceRest => base,
        Symbol::AssignedRest => base,
        _ => trees,
    }
}
