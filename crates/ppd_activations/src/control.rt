// The tests behind an event.
ghost use Rattle.std.specs.Prelude.{◌≡◌, ◌+◌, ◌≤◌, slice_get, OnOk, option_and_then};
ghost use Rattle.std.specs.FinMap as map;
ghost use Rattle.ppd_ast.specs.Lookups.{kind_of};
ghost use Rattle.ppd_model.specs.FullTrace.{is_passed as is_passed_of, of_run as of_run_tests};
ghost use Rattle.std.specs.Option.{option_or};
ghost use Rattle.ppd_activations.specs.Runs.{of_outer as of_outer_tests, parent_in as parent_in_run, parent_of as parent_of_runs, passed_event as passed_event_of, tests_after, with_test};

use crate::by_number::ByNumber;
use crate::runs::Run;
use ppd_ast::{Kind, Memory, Program, Steps};
use ppd_model::{EventId, Test};
use ppd_sem::{Event, Stack};
use std::sync::ledger::Ledger;

/// The latest test of a statement, in one look-up.
fn latest_test<L: Ledger>(tests: &ByNumber<Test>, stmt: u32, steps: &mut Steps<L>) -> Option<Test>
    ensures value { result ≡ map.get tests.now stmt }
    ensures cost { steps.new ≡ steps.old + 1 }
{
    steps.tick();
    tests.get(u64::from(stmt))
}

/// The test is its statement's latest, in one look-up.
fn keep_test<L: Ledger>(
    tests: &mut ByNumber<Test>,
    test: Test,
    steps: &mut Steps<L>,
) -> Result<(), Memory>
    ensures value { OnOk result (tests.new ≡ map.insert tests.old test.stmt test) }
    ensures cost { steps.new ≡ steps.old + 1 }
{
    steps.tick();
    tests.set(u64::from(test.stmt), test)
}

/// The event of a test whose value was true.
fn passed_event(test: Option<Test>) -> Option<EventId>
    ensures { result ≡ passed_event_of test }
{
    match test {
        Some(test) => { if test.passed { Some(test.event) } else { None } }
        None => None,
    }
}

/// The previous test of a `While`, where it was true.
fn of_run(program: &Program, stmt: u32, test: Option<Test>) -> Option<EventId>
    ensures { result ≡ of_run_tests (kind_of program.now stmt) test }
{
    match program.stmts.get(stmt as usize) {
        Some(stmt) => match stmt.kind {
            Kind::While(..) => passed_event(test),
            _ => None,
        },
        None => None,
    }
}

/// The `If` or `While` in which a statement directly stands.
fn outer_of(program: &Program, stmt: u32) -> Option<u32>
    ensures { result ≡ option_and_then (λ x. x.parent) (slice_get program.now.stmts stmt) }
{
    match program.stmts.get(stmt as usize) {
        Some(stmt) => stmt.parent,
        None => None,
    }
}

/// The latest test of this statement, if there is a statement.
fn of_outer<L: Ledger>(
    stmt: Option<u32>,
    tests: &ByNumber<Test>,
    steps: &mut Steps<L>,
) -> Option<EventId>
    ensures value { result ≡ of_outer_tests stmt tests.now }
    ensures cost { steps.new ≤ steps.old + 1 }
{
    match stmt {
        Some(stmt) => match latest_test(tests, stmt, steps) {
            Some(test) => Some(test.event),
            None => None,
        },
        None => None,
    }
}

/// The first that is there.
fn or_else(first: Option<EventId>, second: Option<EventId>) -> Option<EventId>
    ensures { result ≡ option_or first second }
{
    match first {
        Some(event) => Some(event),
        None => second,
    }
}

/// The control parent of a statement in its run.
fn parent_in<L: Ledger>(
    program: &Program,
    stmt: u32,
    own: &Run,
    steps: &mut Steps<L>,
) -> Option<EventId>
    ensures value { result ≡ parent_in_run program.now stmt own.now }
    ensures cost { steps.new ≤ steps.old + 2 }
{
    let run = of_run(program, stmt, latest_test(&own.latest, stmt, steps));
    let outer = of_outer(outer_of(program, stmt), &own.latest, steps);
    or_else(run, or_else(outer, own.call))
}

/// The control parent of the next event, one of this statement: the previous test of its loop, where it was true, or
/// the latest test of the statement round it, or the call that began its run, and None in a process by itself. It takes
/// two look-ups.
pub fn parent_of<L: Ledger>(
    program: &Program,
    runs: &Stack<Run>,
    stmt: u32,
    steps: &mut Steps<L>,
) -> Option<EventId>
    ensures value { result ≡ parent_of_runs program.now runs.now stmt }
    ensures cost { steps.new ≤ steps.old + 2 }
{
    match runs.top() {
        Some(own) => parent_in(program, stmt, own, steps),
        None => None,
    }
}

/// Whether there is a value other than 0.
fn is_passed(value: Option<i64>) -> bool
    ensures { result ≡ is_passed_of value }
{
    match value {
        Some(value) => value != 0,
        None => false,
    }
}

/// The event is its statement's latest test, where that is an `If` or a `While`.
fn set_test<L: Ledger>(
    program: &Program,
    me: EventId,
    event: &Event,
    tests: &mut ByNumber<Test>,
    steps: &mut Steps<L>,
) -> Result<(), Memory>
    ensures value { OnOk result
        (tests.new ≡ tests_after (kind_of program.now event.now.stmt) event.now.stmt me event.now.value tests.old) }
    ensures cost { steps.new ≤ steps.old + 1 }
{
    let test = Test {
        stmt: event.stmt,
        event: me,
        passed: is_passed(event.value),
    };
    match program.stmts.get(event.stmt as usize) {
        Some(stmt) => match stmt.kind {
            Kind::If(..) => keep_test(tests, test, steps),
            Kind::While(..) => keep_test(tests, test, steps),
            _ => Ok(()),
        },
        None => Ok(()),
    }
}

/// The event is the latest test of its statement in the top run, where it is of a test, in two steps. `Memory` is want
/// of memory.
pub fn add_test<L: Ledger>(
    program: &Program,
    me: EventId,
    event: &Event,
    runs: &mut Stack<Run>,
    steps: &mut Steps<L>,
) -> Result<(), Memory>
    ensures value { OnOk result (runs.new ≡ with_test program.now me event.now runs.old) }
    ensures cost { steps.new ≤ steps.old + 2 }
{
    match runs.pop() {
        Some(mut own) => {
            set_test(program, me, event, &mut own.latest, steps)?;
            steps.tick();
            runs.push(own)
        }
        None => Ok(()),
    }
}
