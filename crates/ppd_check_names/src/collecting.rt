// What a source declares, with the rules that its declarations break.
ghost use Rattle.std.specs.Prelude.{◌≡◌, ◌<◌, ◌++◌, OnOk, IfOk, length, slice_index_or, option_copied, nat_lt, ◌≤◌, ◌+◌, ◌*◌, not};
ghost use Rattle.std.specs.List.{flat_map};
ghost use Rattle.ppd_parse.specs.Tree.{tree_of};
ghost use Rattle.ppd_check_names.specs.Faults.{first, first_of_both, if_so};
ghost use Rattle.ppd_check_names.specs.declared.fault.Cause.TheVariants.{NoProcess};
ghost use Rattle.ppd_check_names.specs.Reading.{as_items, source_of};
ghost use Rattle.ppd_check_names.specs.Nodes.{phrase_of, no_node, below};
ghost use Rattle.ppd_check_names.specs.Holding.{Holds, Declares, DeclaresAt};
ghost use Rattle.ppd_check_names.specs.Globals.{Globals as Held, globals, no_globals, items_faults, count_faults};
ghost use Rattle.ppd_check_names.specs.Holding.{with_items};
ghost use Rattle.ppd_check_names.specs.Cost.{nodes_at, nested_below, plain_below, heads_nodes, starts_left};

use crate::fault::{Cause, Fault, note_unless};
use crate::globals::{Globals, Sort, add_process, no_globals};
use crate::items::declare_shared;
use crate::level::Source;
use crate::nodes::{children_of, label_at, place_at, rule_of};
use crate::objects::declare_objects;
use crate::signatures::declare_function;
use ppd_ast::{Memory, Place, Steps};
use ppd_parse::{Rule, Token};
use std::alloc::Global;
use std::sync::ledger::Ledger;

// Declares what a node declares. It calls itself as deep as declarations stand in one another.
#[cycle(declarations)]
fn declare_node<L: Ledger>(
    source: Source<'_>,
    id: u32,
    globals: &mut Globals,
    found: &mut Option<Fault>,
    steps: &mut Steps<L>,
) -> Result<(), Memory>
    requires within { id < length source.nodes.now }
    ensures declares { OnOk result (DeclaresAt source.entry id globals.old globals.new found.old found.new) }
    ensures cost { steps.new + starts_left globals.new + 1
        ≤ steps.old + starts_left globals.old + 8 * nodes_at source.entry.nodes.now id }
    ensures heads { OnOk result (heads_nodes source.entry.nodes.now globals.new ≤ heads_nodes source.entry.nodes.now
        globals.old + nodes_at source.entry.nodes.now id) }
{
    steps.tick();
    match rule_of(source, id) {
        Rule::Source => declare_below(source, id, globals, found, steps),
        Rule::Shared => declare_below(source, id, globals, found, steps),
        Rule::Sitem => declare_shared(source, id, globals, found, steps),
        Rule::Sems => declare_objects(source, id, Sort::Semaphore, globals, found, steps),
        Rule::Chans => declare_objects(source, id, Sort::Channel, globals, found, steps),
        Rule::Function => declare_function(source, id, globals, found, steps),
        Rule::Process => add_process(globals, id, label_at(source, id, 1), found, steps),
        _ => Ok(()),
    }
}

// Declares what the children of a node declare.
#[cycle(declarations)]
fn declare_below<L: Ledger>(
    source: Source<'_>,
    id: u32,
    globals: &mut Globals,
    found: &mut Option<Fault>,
    steps: &mut Steps<L>,
) -> Result<(), Memory>
    requires within { id < length source.nodes.now }
    ensures declares { OnOk result (Declares source.entry.nodes.now (flat_map as_items
        (below source.entry id)) globals.old globals.new found.old found.new) }
    ensures cost { steps.new + starts_left globals.new ≤ steps.old + starts_left globals.old + 8 * plain_below
        source.entry.nodes.now id + 8 * nested_below source.entry.nodes.now id + 1 }
    ensures heads { OnOk result (heads_nodes source.entry.nodes.now globals.new ≤ heads_nodes source.entry.nodes.now
        globals.old + plain_below source.entry.nodes.now id + nested_below source.entry.nodes.now id) }
{
    steps.tick();
    for child in children_of(source, id) {
        steps.tick();
        declare_node(source, *child, globals, found, steps)?;
    }
    Ok(())
}

// What the root declares; the first fault of its declarations and of those found so far is kept.
fn declare_source<L: Ledger>(
    alloc: Global,
    source: Source<'_>,
    found: &mut Option<Fault>,
    steps: &mut Steps<L>,
) -> Result<Globals, Memory>
    ensures holds { IfOk result (λ globals. Holds source.entry.nodes.now globals (with_items (as_items (phrase_of
        source.entry.nodes.now 0)) no_globals)) }
    ensures faults { OnOk result
        (found.new ≡ first_of_both found.old
        (first (items_faults (as_items (phrase_of source.entry.nodes.now 0)) no_globals
        ++ count_faults (with_items (as_items (phrase_of source.entry.nodes.now 0)) no_globals)))) }
    ensures cost { steps.new ≤ steps.old + 8 * nodes_at source.entry.nodes.now 0 + 2048 + 1 }
    ensures heads { IfOk result (λ globals. heads_nodes source.entry.nodes.now globals ≤ nodes_at
        source.entry.nodes.now 0) }
{
    let mut globals = no_globals(alloc, steps)?;
    declare_node(source, 0, &mut globals, found, steps)?;
    Ok(globals)
}

// The token of the root, where it is one.
fn root_token(source: Source<'_>) -> Option<&Token>
    ensures { option_copied result ≡ (slice_index_or source.entry.nodes.now 0 no_node).token }
{
    source.nodes[0].token.as_ref()
}

// The place of a source's end: that of the last token below its root.
pub fn end_at(source: Source<'_>) -> Place
    ensures { result ≡ (source_of (tree_of source.entry.nodes.now)).end }
{
    match root_token(source) {
        Some(token) => token.place,
        None => place_at(source, 0, children_of(source, 0).len().saturating_sub(1)),
    }
}

/// What the source of a table declares; the first fault of its declarations and of those found so far is kept.
/// `Memory` is want of memory.
pub fn globals_of<L: Ledger>(
    alloc: Global,
    source: Source<'_>,
    found: &mut Option<Fault>,
    steps: &mut Steps<L>,
) -> Result<Globals, Memory>
    ensures holds { IfOk result (λ held. Holds source.entry.nodes.now held (globals (source_of (tree_of
        source.entry.nodes.now)))) }
    ensures faults { OnOk result
        (found.new ≡ first_of_both found.old
        (first (items_faults (source_of (tree_of source.entry.nodes.now)).items no_globals
        ++ count_faults (globals (source_of (tree_of source.entry.nodes.now)))))) }
    ensures cost { steps.new ≤ steps.old + 8 * nodes_at source.entry.nodes.now 0 + 2048 + 1 }
    ensures heads { IfOk result (λ globals. heads_nodes source.entry.nodes.now globals ≤ nodes_at
        source.entry.nodes.now 0) }
{
    declare_source(alloc, source, found, steps)
}

// Whether a process was declared.
fn has_process(globals: &Globals) -> bool
    ensures { result ≡ nat_lt 0 (length globals.now.processes) }
{
    0 < globals.processes.len()
}

/// Notes a source that declares no process, at its end.
pub fn note_no_process(source: Source<'_>, globals: &Globals, found: &mut Option<Fault>)
    ensures { (held : Held) → Holds source.entry.nodes.now globals.now held
        → found.new ≡ first_of_both found.old
        (first (if_so (not (nat_lt 0 (length held.processes))) (source_of (tree_of source.entry.nodes.now)).end
        NoProcess)) }
{
    let end = end_at(source);
    note_unless(found, has_process(globals), end, Cause::NoProcess);
}
