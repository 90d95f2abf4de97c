// Functions, by their names and parameters.
ghost use Rattle.std.specs.Prelude.{◌≡◌, if◌then◌else◌, ◌<◌, ◌+◌, OnOk, IfOk, length, ◌≤◌, ◌*◌, ◌++◌, ◌∷◌, []};
ghost use Rattle.ppd_parse.specs.declared.token.Kind.TheVariants as K;
ghost use Rattle.std.specs.List.{flat_map};
ghost use Rattle.ppd_parse.specs.declared.symbol.Rule.TheVariants.{Function};
ghost use Rattle.ppd_check_names.specs.Reading.{phrase, kind, same_kind, params, as_names};
ghost use Rattle.ppd_check_names.specs.Nodes.{children_of, phrase_of, phrases_below, SaysBy, below};
ghost use Rattle.ppd_check_names.specs.Holding.{DeclaresAt};
ghost use Rattle.ppd_check_names.specs.Cost.{plain_at, nested_below, plain_below};

use crate::fault::Fault;
use crate::globals::{Globals, Signature, add_function};
use crate::level::Source;
use crate::nodes::{children_of, kind_at, label_at, rule_of};
use crate::objects::is_name;
use ppd_ast::{Memory, Steps};
use ppd_parse::{Kind, Rule};
use std::sync::ledger::Ledger;

// Whether a function that begins with this token gives a value.
fn is_int(kind: Kind) -> bool
    ensures { result ≡ same_kind K.IntWord kind }
{
    matches!(kind, Kind::IntWord)
}

// The sum of two counts.
fn sum(a: usize, b: usize) -> Result<usize, Memory>
    ensures { IfOk result (λ n. n ≡ a + b) }
{
    match a.checked_add(b) {
        Some(n) => Ok(n),
        None => Err(Memory),
    }
}

// How many names the child is.
fn names_at(source: Source<'_>, id: u32, k: usize) -> usize
    requires within { id < length source.nodes.now }
    ensures { result ≡ (if same_kind K.Name (kind (phrase (below source.entry id) k)) then 1 else 0) }
{
    if is_name(kind_at(source, id, k)) {
        1
    } else {
        0
    }
}

// How many of the node's children are names.
fn count_names<L: Ledger>(
    source: Source<'_>,
    id: u32,
    steps: &mut Steps<L>,
) -> Result<usize, Memory>
    requires within { id < length source.nodes.now }
    ensures value { IfOk result (λ n. n ≡ length (params (below source.entry id))) }
    ensures cost { steps.new ≤ steps.old + length (children_of source.entry.nodes.now id) }
{
    let mut count = 0;
    for k in 0..children_of(source, id).len() {
        steps.tick();
        count = sum(count, names_at(source, id, k))?;
    }
    Ok(count)
}

// How many parameters a node says.
fn count_said<L: Ledger>(source: Source<'_>, id: u32, steps: &mut Steps<L>) -> Result<usize, Memory>
    requires within { id < length source.nodes.now }
    ensures value { IfOk result (λ n. n ≡ length (as_names (phrase_of source.entry.nodes.now id))) }
    ensures cost { steps.new ≤ steps.old + plain_at source.entry.nodes.now id }
{
    match rule_of(source, id) {
        Rule::Params => count_names(source, id, steps),
        _ => Ok(0),
    }
}

// How many parameters the children of a node say.
fn count_params<L: Ledger>(
    source: Source<'_>,
    id: u32,
    steps: &mut Steps<L>,
) -> Result<usize, Memory>
    requires within { id < length source.nodes.now }
    ensures value { IfOk result (λ n. n ≡ length (flat_map as_names (below source.entry id))) }
    ensures cost { steps.new ≤ steps.old + 2 * plain_below source.entry.nodes.now id + 2 * nested_below
        source.entry.nodes.now id }
{
    let mut count = 0;
    for child in children_of(source, id) {
        steps.tick();
        count = sum(count, count_said(source, *child, steps)?)?;
    }
    Ok(count)
}

// Declares the function at a node.
pub fn declare_function<L: Ledger>(
    source: Source<'_>,
    id: u32,
    globals: &mut Globals,
    found: &mut Option<Fault>,
    steps: &mut Steps<L>,
) -> Result<(), Memory>
    requires within { id < length source.nodes.now }
    requires says { SaysBy Function (phrases_below source.nodes.now id) (phrase_of source.nodes.now id) }
    ensures declares { OnOk result (DeclaresAt source.entry id globals.old globals.new found.old found.new) }
    ensures cost { steps.new ≤ steps.old + 2 * plain_below source.entry.nodes.now id + 2 * nested_below
        source.entry.nodes.now id + 4 }
    ensures cells { globals.new.cells ≡ globals.old.cells }
    ensures heads { OnOk result
        ((globals.new.functions ≡ globals.old.functions ++ id ∷ [])
        × (globals.new.processes ≡ globals.old.processes)) }
{
    let gives = is_int(kind_at(source, id, 0));
    let params = count_params(source, id, steps)?;
    let label = label_at(source, id, 1);
    add_function(
        globals,
        id,
        label,
        Signature { params, gives },
        found,
        steps,
    )
}
