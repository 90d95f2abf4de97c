// The semaphores and channels of a declaration.
ghost use Rattle.std.specs.Prelude.{◌≡◌, ◌<◌, ◌||◌, OnOk, IfOk, List, length, ◌≤◌, ◌+◌, ◌*◌};
ghost use Rattle.ppd_parse.specs.declared.token.Kind.TheVariants as K;
ghost use Rattle.ppd_parse.specs.declared.node.Node.{Node as NodeOf};
ghost use Rattle.ppd_check_names.specs.Reading.{same_kind, numbered};
ghost use Rattle.ppd_check_names.specs.declared.nodes.Number.{Number};
ghost use Rattle.ppd_check_names.specs.Syntax.{Name, Item};
ghost use Rattle.ppd_check_names.specs.Items.{number_after, numbered_at, numbered_item, said_item};
ghost use Rattle.ppd_check_names.specs.Holding.{Declares};
ghost use Rattle.ppd_check_names.specs.Cost.{SameHeads, starts_left};
ghost use Rattle.ppd_check_names.specs.Nodes.{below};

use crate::fault::Fault;
use crate::globals::{Globals, Sort};
use crate::items::declare_numbered;
use crate::level::Source;
use crate::nodes::{Label, Number, children_of, kind_at, label_at, size_at};
use ppd_ast::{Memory, Place, Steps};
use ppd_parse::Kind;
use std::sync::ledger::Ledger;

/// A name with the number behind it.
#[derive(Clone, Copy)]
pub struct Numbered<'a> {
    pub label: Label<'a>,
    pub size: Number,
}

/// Whether a token is a name.
pub fn is_name(kind: Kind) -> bool
    ensures { result ≡ same_kind K.Name kind }
{
    matches!(kind, Kind::Name)
}

// Whether a number follows a token.
fn is_before_size(kind: Kind) -> bool
    ensures { result ≡ same_kind K.AssignMark kind || same_kind K.LeftBracket kind }
{
    matches!(kind, Kind::AssignMark | Kind::LeftBracket)
}

// The number behind the name at child `k`, and 0 at the name's place where there is none.
fn size_after(source: Source<'_>, id: u32, k: u32, name: Place) -> Number
    requires within { id < length source.nodes.now }
    ensures { result ≡ number_after name (below source.entry id) k }
{
    if is_before_size(kind_at(source, id, k as usize + 1)) {
        return size_at(source, id, k as usize + 2);
    }
    Number {
        value: 0,
        place: name,
    }
}

// The name at child `k` with the number behind it, where it is a name.
fn numbered_at(source: Source<'_>, id: u32, k: u32) -> Option<Numbered<'_>>
    requires within { id < length source.nodes.now }
    ensures { (make : Name → Number → Item) → said_item make result ≡ numbered_at make (below source.entry id) k }
{
    if !is_name(kind_at(source, id, k as usize)) {
        return None;
    }
    let label = label_at(source, id, k as usize);
    let size = size_after(source, id, k, label.place);
    Some(Numbered { label, size })
}

// Declares a name with its number, where there is one.
fn declare_named<L: Ledger>(
    sort: Sort,
    named: Option<Numbered<'_>>,
    globals: &mut Globals,
    found: &mut Option<Fault>,
    steps: &mut Steps<L>,
) -> Result<(), Memory>
    ensures declares { OnOk result ((ns : List NodeOf) → Declares ns (said_item (numbered_item sort) named.entry)
        globals.old globals.new found.old found.new) }
    ensures cost { steps.new + starts_left globals.new ≤ steps.old + starts_left globals.old + 5 }
    ensures heads { SameHeads globals.old globals.new }
{
    match named {
        Some(named) => declare_numbered(sort, named.label, named.size, globals, found, steps),
        None => Ok(()),
    }
}

// The count of a node's children.
fn count_children(source: Source<'_>, id: u32) -> Result<u32, Memory>
    requires within { id < length source.nodes.now }
    ensures { IfOk result (λ count. count ≡ length (below source.entry id)) }
{
    match u32::try_from(children_of(source, id).len()) {
        Ok(count) => Ok(count),
        Err(_) => Err(Memory),
    }
}

// Declares the semaphores or channels of a node.
pub fn declare_objects<L: Ledger>(
    source: Source<'_>,
    id: u32,
    sort: Sort,
    globals: &mut Globals,
    found: &mut Option<Fault>,
    steps: &mut Steps<L>,
) -> Result<(), Memory>
    requires within { id < length source.nodes.now }
    ensures declares { OnOk result ((ns : List NodeOf) → Declares ns (numbered (numbered_item sort)
        (below source.entry id)) globals.old globals.new found.old found.new) }
    ensures cost { steps.new + starts_left globals.new ≤ steps.old + starts_left globals.old + 6 * length
        (below source.entry id) }
    ensures heads { SameHeads globals.old globals.new }
{
    let count = count_children(source, id)?;
    for k in 0..count {
        steps.tick();
        declare_named(sort, numbered_at(source, id, k), globals, found, steps)?;
    }
    Ok(())
}
