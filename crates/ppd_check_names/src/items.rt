// The items of a source, with the rules that they break.
ghost use Rattle.std.specs.Prelude.{◌≡◌, ◌<◌, OnOk, [], ◌∷◌, List, length, nat_le, ◌&&◌, pos, neg_ℤ, nat_abs, ◌≤◌, ◌+◌};
ghost use Rattle.ppd_parse.specs.declared.node.Node.{Node as NodeOf};
ghost use Rattle.ppd_check_names.specs.Reading.{shared_item};
ghost use Rattle.ppd_check_names.specs.Nodes.{label_name, below};
ghost use Rattle.ppd_check_names.specs.Syntax.{shared};
ghost use Rattle.ppd_check_names.specs.Holding.{Declares, start_said};
ghost use Rattle.ppd_check_names.specs.Cost.{starts_left, SameHeads};
ghost use Rattle.ppd_check_names.specs.Items.{numbered_item, least_number, most_number};

use crate::fault::{Cause, Fault, note_unless};
use crate::globals::{Globals, Sort, add_numbered, add_scalar};
use crate::level::Source;
use crate::nodes::{Label, Number, kind_at, label_at, size_at, value_at};
use ppd_ast::limits::{LEAST_CAPACITY, MOST_CAPACITY, MOST_SHARED_CELLS, MOST_START};
use ppd_ast::{Memory, Steps};
use ppd_parse::Kind;
use std::sync::ledger::Ledger;

/// Whether the number is from the least to the most.
pub fn is_within(least: u64, number: u64, most: u64) -> bool
    ensures { result ≡ nat_le least number && nat_le number most }
{
    least <= number && number <= most
}

// Declares a shared scalar.
fn declare_scalar<L: Ledger>(
    label: Label<'_>,
    start: i64,
    globals: &mut Globals,
    found: &mut Option<Fault>,
    steps: &mut Steps<L>,
) -> Result<(), Memory>
    ensures declares { OnOk result
        ((ns : List NodeOf)
        → Declares ns (shared (label_name label.entry) start ∷ []) globals.old globals.new found.old found.new) }
    ensures cost { steps.new ≤ steps.old + 6 }
    ensures cells { globals.old.cells ≤ globals.new.cells }
    ensures heads { SameHeads globals.old globals.new }
{
    add_scalar(globals, label, start, found, steps)?;
    Ok(())
}

// Whether a number fits what is declared with it.
fn is_fit(sort: Sort, number: u64) -> bool
    ensures { result ≡ nat_le (least_number sort) number && nat_le number (most_number sort) }
{
    match sort {
        Sort::Array => is_within(1, number, MOST_SHARED_CELLS as u64),
        Sort::Semaphore => is_within(0, number, MOST_START as u64),
        Sort::Channel => is_within(LEAST_CAPACITY as u64, number, MOST_CAPACITY as u64),
    }
}

// Declares what is declared with a number, which stands at a place.
pub fn declare_numbered<L: Ledger>(
    sort: Sort,
    label: Label<'_>,
    size: Number,
    globals: &mut Globals,
    found: &mut Option<Fault>,
    steps: &mut Steps<L>,
) -> Result<(), Memory>
    ensures declares { OnOk result
        ((ns : List NodeOf)
        → Declares ns
        (numbered_item sort (label_name label.entry) size
        ∷ []) globals.old globals.new found.old found.new) }
    ensures cost { steps.new + starts_left globals.new ≤ steps.old + starts_left globals.old + 5 }
    ensures heads { SameHeads globals.old globals.new }
{
    add_numbered(sort, label, size.value, globals, found, steps)?;
    let fits = is_fit(sort, size.value);
    note_unless(found, fits, size.place, Cause::BadSize);
    Ok(())
}

// The number that is not above 0 with the same size.
fn negative(number: i64) -> i64
    ensures { result ≡ neg_ℤ (pos (nat_abs number)) }
{
    if 0 < number { -number } else { number }
}

// The start value that a shared scalar's declaration says.
fn start_at(source: Source<'_>, id: u32) -> i64
    requires within { id < length source.nodes.now }
    ensures { result ≡ start_said (below source.entry id) }
{
    match kind_at(source, id, 2) {
        Kind::MinusMark => negative(value_at(source, id, 3)),
        _ => value_at(source, id, 2),
    }
}

// Declares the shared variable at a node.
pub fn declare_shared<L: Ledger>(
    source: Source<'_>,
    id: u32,
    globals: &mut Globals,
    found: &mut Option<Fault>,
    steps: &mut Steps<L>,
) -> Result<(), Memory>
    requires within { id < length source.nodes.now }
    ensures declares { OnOk result ((ns : List NodeOf) → Declares ns (shared_item
        (below source.entry id) ∷ []) globals.old globals.new found.old found.new) }
    ensures cost { steps.new + starts_left globals.new ≤ steps.old + starts_left globals.old + 6 }
    ensures heads { SameHeads globals.old globals.new }
{
    let label = label_at(source, id, 0);
    match kind_at(source, id, 1) {
        Kind::LeftBracket => {
            let length = size_at(source, id, 2);
            declare_numbered(Sort::Array, label, length, globals, found, steps)
        }
        _ => declare_scalar(label, start_at(source, id), globals, found, steps),
    }
}
