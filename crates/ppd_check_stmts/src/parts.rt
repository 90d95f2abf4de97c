// The parts of a `for`, between its semicolons.
ghost use Rattle.std.specs.Prelude.{◌≡◌, ◌<◌, ◌≤◌, ◌-◌, ◌+◌, length, take, drop, slice_index_or, pos};
ghost use Rattle.ppd_check_names.specs.Syntax.{number};
ghost use Rattle.ppd_parse.specs.declared.token.Kind.TheVariants as K;
ghost use Rattle.ppd_check_names.specs.Nodes.{operand_formula, IsOperand, below};
ghost use Rattle.ppd_check_names.specs.Cost.{plain_below, operand_nodes};
ghost use Rattle.ppd_check_names.specs.Reading.{before, beyond, phrase, kind, same_kind, formulas};

use crate::calls::is_formula;
use ppd_ast::Steps;
use ppd_check_names::{Operand, Source, child_at, children_of, kind_at};
use ppd_parse::Kind;
use std::sync::ledger::Ledger;

// Whether the child is a semicolon.
fn is_semicolon(source: Source<'_>, id: u32, k: usize) -> bool
    requires within { id < length source.nodes.now }
    ensures { result ≡ same_kind K.Semicolon (kind (phrase (below source.entry id) k)) }
{
    match kind_at(source, id, k) {
        Kind::Semicolon => true,
        _ => false,
    }
}

// The number of children.
#[tactic(auto, using(ppd_check_names::proofs::Table::Trees::count_below))]
fn count_of(source: Source<'_>, id: u32) -> usize
    requires within { id < length source.nodes.now }
    ensures { result ≡ length (below source.entry id) }
{
    children_of(source, id).len()
}

// The number of the first child from one on that is a semicolon; where none is, one that no child has.
pub fn semicolon_from<L: Ledger>(
    source: Source<'_>,
    id: u32,
    from: usize,
    steps: &mut Steps<L>,
) -> usize
    requires within { id < length source.nodes.now }
    ensures past { from ≤ result }
    ensures few { result ≤ from + length (below source.entry id) }
    ensures before { before (drop from (below source.entry id)) ≡ take (result - from) (drop from
        (below source.entry id)) }
    ensures beyond { beyond (drop from (below source.entry id)) ≡ drop (result + 1) (below source.entry id) }
    ensures cost { steps.new ≤ steps.old + length (below source.entry id) }
{
    let count = count_of(source, id);
    let mut at = from;
    while at < count {
        steps.tick();
        if is_semicolon(source, id, at) {
            return at;
        }
        at += 1;
    }
    at
}

// The number of the child after the first semicolon from one on; where none is, that of no child.
pub fn past_semicolon<L: Ledger>(
    source: Source<'_>,
    id: u32,
    from: usize,
    steps: &mut Steps<L>,
) -> usize
    requires within { id < length source.nodes.now }
    ensures value { drop result (below source.entry id) ≡ beyond (drop from (below source.entry id)) }
    ensures cost { steps.new ≤ steps.old + length (below source.entry id) }
{
    let count = count_of(source, id);
    let at = semicolon_from(source, id, from, steps);
    if at < count {
        return at + 1;
    }
    count
}

// The number of the child that has this number among those from one up to another; where none has it, that of no child.
#[tactic(auto, using(crate::proofs::Rows::Semicolons::part_there, crate::proofs::Rows::Semicolons::part_none))]
pub fn part_of(source: Source<'_>, id: u32, from: usize, end: usize, k: usize) -> usize
    requires within { id < length source.nodes.now }
    requires past { from ≤ end }
    ensures { phrase (below source.entry id) result ≡ phrase (take (end - from) (drop from
        (below source.entry id))) k }
{
    if k < end - from {
        from + k
    } else {
        count_of(source, id)
    }
}

// The first expression among the children from one number up to another; 1 where none is one.
#[tactic(auto, using(crate::proofs::Rows::Semicolons::sought_start, crate::proofs::Rows::Semicolons::sought_more, crate::proofs::Rows::Semicolons::sought_found, crate::proofs::Rows::Semicolons::sought_none))]
pub fn test_among<L: Ledger>(
    source: Source<'_>,
    id: u32,
    from: usize,
    end: usize,
    steps: &mut Steps<L>,
) -> Operand
    requires within { id < length source.nodes.now }
    requires past { from ≤ end }
    ensures formula { operand_formula source.entry.nodes.now result ≡ slice_index_or (formulas (take (end - from)
        (drop from (below source.entry id)))) 0 (number (pos 1)) }
    ensures within { IsOperand source.entry.nodes.now result }
    ensures nodes { operand_nodes source.entry.nodes.now result ≤ plain_below source.entry.nodes.now id }
    ensures cost { steps.new + from ≤ steps.old + end }
{
    let mut at = from;
    while at < end {
        steps.tick();
        if let Some(child) = child_at(source, id, at) {
            if is_formula(source, child) {
                return Operand::At(child);
            }
        }
        at += 1;
    }
    Operand::Constant(1)
}
