// Names of objects, and calls with their arguments.
ghost use Rattle.std.specs.Prelude.{◌≡◌, ◌<◌, ◌++◌, [], ◌∷◌, OnOk, length, nat_eq, ◌&&◌, not, ◌≤◌, ◌+◌, ◌*◌};
ghost use Rattle.ppd_check_names.specs.Nodes.{children_of, phrase_of, label_name};
ghost use Rattle.ppd_check_names.specs.Reading.{is_formula};
ghost use Rattle.ppd_check_names.specs.Faults.{first, first_of_both, if_so};
ghost use Rattle.ppd_check_names.specs.Names.{meaning, number_as};
ghost use Rattle.ppd_check_names.specs.declared.meaning.Use.TheVariants.{Semaphore, Channel, Function};
ghost use Rattle.ppd_check_names.specs.declared.fault.Cause.TheVariants.{Arity, VoidValue};
ghost use Rattle.ppd_check_stmts.specs.Expressions.{name_faults, wrong_call};
ghost use Rattle.ppd_check_stmts.specs.Writing.{Argued};
ghost use Rattle.ppd_check_names.specs.Cost.{plain_at, nested_below, plain_below};

use crate::formulas::write_term;
use ppd_ast::{Ids, Memory, Place, Steps};
use ppd_check_names::{
    Cause, Fault, Frame, Label, Meaning, Operand, Scopes, Source, Use, Writer, children_of, note,
    note_if, note_unless, rule_of,
};
use ppd_parse::Rule;
use std::sync::ledger::Ledger;

// What a name means, with the fault of one that is not used as what it is.
#[tactic(auto, using(ppd_check_names::proofs::Found::First::first_of_both_none))]
pub fn used<L: Ledger>(
    scopes: &Scopes,
    label: Label<'_>,
    wanted: Use,
    found: &mut Option<Fault>,
    steps: &mut Steps<L>,
) -> Option<Meaning>
    ensures means { result ≡ meaning scopes.now label.entry.text.now }
    ensures faults { found.new
        ≡ first_of_both found.old
        (first (name_faults wanted scopes.now (label_name label.entry))) }
    ensures cost { steps.new ≤ steps.old + 1 }
{
    let meaning = scopes.find(label.text, steps);
    match meaning {
        None => note(found, label.place, Cause::Unknown),
        Some(meaning) => {
            if !meaning.is_use(wanted) {
                note(found, label.place, Cause::WrongKind);
            }
        }
    }
    meaning
}

// The number of a semaphore, 0 where there is none.
pub fn semaphore_number(meaning: Option<Meaning>) -> u8
    ensures { result ≡ number_as Semaphore meaning }
{
    match meaning {
        Some(Meaning::Semaphore(number)) => number,
        _ => 0,
    }
}

// The number of a channel, 0 where there is none.
pub fn channel_number(meaning: Option<Meaning>) -> u8
    ensures { result ≡ number_as Channel meaning }
{
    match meaning {
        Some(Meaning::Channel(number)) => number,
        _ => 0,
    }
}

// Whether a value is used that is not given.
fn lacks(used: bool, gives: bool) -> bool
    ensures { result ≡ used && not gives }
{
    used && !gives
}

// Notes a call with another count of arguments, and one whose value is used and that gives none.
#[tactic(auto, using(ppd_check_names::proofs::Found::First::found_in_both))]
fn fit_call(
    params: usize,
    gives: bool,
    place: Place,
    count: usize,
    used: bool,
    found: &mut Option<Fault>,
)
    ensures { found.new
        ≡ first_of_both found.old
        (first (if_so (not (nat_eq count params)) place Arity ++ if_so (used && not gives) place VoidValue)) }
{
    note_unless(found, count == params, place, Cause::Arity);
    note_if(found, lacks(used, gives), place, Cause::VoidValue);
}

// The number of a function that is called with so many arguments, and whose value is used or not.
#[tactic(auto, using(ppd_check_names::proofs::Found::First::first_of_both_none))]
pub fn function<L: Ledger>(
    scopes: &Scopes,
    label: Label<'_>,
    count: usize,
    used: bool,
    found: &mut Option<Fault>,
    steps: &mut Steps<L>,
) -> u16
    ensures number { result ≡ number_as Function (meaning scopes.now label.entry.text.now) }
    ensures faults { found.new ≡ first_of_both found.old (first (wrong_call (meaning scopes.now
        label.entry.text.now) label.entry.place count used)) }
    ensures cost { steps.new ≤ steps.old + 1 }
{
    match crate::calls::used(scopes, label, Use::Function, found, steps) {
        Some(Meaning::Function(number, params, gives)) => {
            fit_call(params, gives, label.place, count, used, found);
            number
        }
        _ => 0,
    }
}

// Whether the node is an expression.
pub fn is_formula(source: Source<'_>, id: u32) -> bool
    requires within { id < length source.nodes.now }
    ensures { result ≡ is_formula (phrase_of source.entry.nodes.now id) }
{
    match rule_of(source, id) {
        Rule::Unary => true,
        Rule::Binary => true,
        _ => false,
    }
}

// Adds the expressions of a child of a call, where it is an argument.
fn argument<L: Ledger>(
    source: Source<'_>,
    frame: &Frame,
    id: u32,
    table: &mut Writer,
    args: &mut Ids,
    steps: &mut Steps<L>,
) -> Result<(), Memory>
    requires within { id < length source.nodes.now }
    ensures argued { OnOk result
        (Argued source.entry.nodes.now frame.now.scopes (id ∷ []) table.old.exprs table.new.exprs
        args.old args.new table.old.found table.new.found) }
    ensures stmts { table.new.stmts ≡ table.old.stmts }
    ensures cost { steps.new ≤ steps.old + 6 * plain_at source.entry.nodes.now id + 4 }
{
    if !is_formula(source, id) {
        return Ok(());
    }
    let number = write_term(source, frame, Operand::At(id), table, steps)?;
    steps.tick();
    args.push(number)
}

// Adds the expressions of a call's arguments; their numbers are added to a list.
pub fn arguments<L: Ledger>(
    source: Source<'_>,
    frame: &Frame,
    id: u32,
    table: &mut Writer,
    args: &mut Ids,
    steps: &mut Steps<L>,
) -> Result<(), Memory>
    requires within { id < length source.nodes.now }
    ensures argued { OnOk result (Argued source.entry.nodes.now frame.now.scopes (children_of source.entry.nodes.now id)
        table.old.exprs table.new.exprs args.old args.new table.old.found table.new.found) }
    ensures stmts { table.new.stmts ≡ table.old.stmts }
    ensures cost { steps.new ≤ steps.old + 11 * plain_below source.entry.nodes.now id + 11 * nested_below
        source.entry.nodes.now id }
{
    for child in children_of(source, id) {
        steps.tick();
        argument(source, frame, *child, table, args, steps)?;
    }
    Ok(())
}
