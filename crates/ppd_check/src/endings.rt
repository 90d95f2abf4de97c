// How the statements of a block end.
ghost use Rattle.std.specs.Prelude.{◌≡◌, ◌<◌, [], ◌∷◌, length, is_some, ◌≤◌, ◌+◌, ◌*◌};
ghost use Rattle.ppd_check.specs.Endings.{with_rest, ending};
ghost use Rattle.ppd_check_names.specs.Nodes.{children_of, phrase_of, below};
ghost use Rattle.ppd_check_names.specs.Reading.{phrase, as_row, locals, returned, rows, statement, worded};
ghost use Rattle.ppd_check_names.specs.Cost.{nested_at, nested_below, plain_below};

use ppd_ast::{Place, Steps};
use ppd_check_names::{Source, child_at, children_of, kind_at, place_at, rule_of};
use ppd_parse::{Kind, Rule};
use std::sync::ledger::Ledger;

// The last statement of a row.
#[derive(Clone, Copy)]
pub enum Ending {
    Empty,
    // Its place, and whether it gives a value.
    Return(Place, bool),
    Other,
}

// How a body ends: its last statement, and the place of its closing brace.
#[derive(Clone, Copy)]
pub struct Closing {
    pub ending: Ending,
    pub close: Place,
}

// The ending of one row, then another.
fn with_rest(ending: Ending, rest: Ending) -> Ending
    ensures { result ≡ with_rest ending rest }
{
    match rest {
        Ending::Empty => ending,
        Ending::Return(place, value) => Ending::Return(place, value),
        Ending::Other => Ending::Other,
    }
}

// Whether the `return` at a node gives a value.
fn gives_value(source: Source<'_>, id: u32) -> bool
    requires within { id < length source.nodes.now }
    ensures { result ≡ is_some (returned (phrase (below source.entry id) 1)) }
{
    match kind_at(source, id, 1) {
        Kind::Semicolon => false,
        _ => true,
    }
}

// That of a statement that begins with a word, or the empty one.
fn ending_of_word(source: Source<'_>, id: u32) -> Ending
    requires within { id < length source.nodes.now }
    ensures { result ≡ ending (worded (below source.entry id)) }
{
    match kind_at(source, id, 0) {
        Kind::ReturnWord => Ending::Return(place_at(source, id, 0), gives_value(source, id)),
        _ => Ending::Other,
    }
}

// That of a statement.
fn ending_of_statement(source: Source<'_>, id: u32) -> Ending
    requires within { id < length source.nodes.now }
    ensures { result ≡ ending (statement (phrase (below source.entry id) 0) (below source.entry id)) }
{
    match child_at(source, id, 0) {
        None => ending_of_word(source, id),
        Some(child) => match rule_of(source, child) {
            Rule::Leaf => ending_of_word(source, id),
            Rule::Block => Ending::Other,
            Rule::Place => Ending::Other,
            Rule::Call => Ending::Other,
            Rule::Change => Ending::Other,
            Rule::Litem => Ending::Other,
            _ => Ending::Empty,
        },
    }
}

// That of what a child of a declaration declares.
fn ending_of_local(source: Source<'_>, id: u32) -> Ending
    requires within { id < length source.nodes.now }
    ensures { result ≡ ending (locals (phrase_of source.entry.nodes.now id ∷ [])) }
{
    match rule_of(source, id) {
        Rule::Litem => Ending::Other,
        Rule::Change => Ending::Other,
        _ => Ending::Empty,
    }
}

// That of a declaration.
fn ending_of_locals<L: Ledger>(source: Source<'_>, id: u32, steps: &mut Steps<L>) -> Ending
    requires within { id < length source.nodes.now }
    ensures ending { result ≡ ending (locals (below source.entry id)) }
    ensures cost { steps.new ≤ steps.old + length (children_of source.entry.nodes.now id) }
{
    let mut last = Ending::Empty;
    for child in children_of(source, id) {
        steps.tick();
        last = with_rest(last, ending_of_local(source, *child));
    }
    last
}

// That of what a node says.
fn ending_of_node<L: Ledger>(source: Source<'_>, id: u32, steps: &mut Steps<L>) -> Ending
    requires within { id < length source.nodes.now }
    ensures ending { result ≡ ending (as_row (phrase_of source.entry.nodes.now id)) }
    ensures cost { steps.new ≤ steps.old + nested_at source.entry.nodes.now id }
{
    match rule_of(source, id) {
        Rule::Local => ending_of_locals(source, id, steps),
        Rule::Stmt => ending_of_statement(source, id),
        _ => Ending::Empty,
    }
}

// That of what the children of a node say.
pub fn ending_of_rows<L: Ledger>(source: Source<'_>, id: u32, steps: &mut Steps<L>) -> Ending
    requires within { id < length source.nodes.now }
    ensures ending { result ≡ ending (rows (below source.entry id)) }
    ensures cost { steps.new ≤ steps.old + plain_below source.entry.nodes.now id + 2 * nested_below
        source.entry.nodes.now id }
{
    let mut last = Ending::Empty;
    for child in children_of(source, id) {
        steps.tick();
        last = with_rest(last, ending_of_node(source, *child, steps));
    }
    last
}
