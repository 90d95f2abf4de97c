ghost use Rattle.std.specs.Prelude.{◌≡◌, ◌+◌, ◌<◌, ◌++◌, ◌^◌, length, slice_get, IfOk, OnOk, OnErr};
ghost use Rattle.std.specs.List.{All};
ghost use Rattle.ppd_model.specs.Logs.{log_step, rest_after};
ghost use Rattle.ppd_model.specs.World.{change};
ghost use Rattle.ppd_sem.specs.Process.{act, need_of};
ghost use Rattle.ppd_sem.specs.Runs.{IsNumbered, IsRunnable, IsRunning};
ghost use Rattle.ppd_world.specs.Parts.{IsSmallLogging, logged, need_of_logging};
ghost use Rattle.ppd_world_steps.specs.Entries.{moment_with};
ghost use Rattle.ppd_world.specs.Plain.{gone_on, gone_on_printing};

use ppd_ast::{Memory, Seq};
use ppd_model::{Entry, Logging, Taken};
use ppd_sem::{Need, Proc, look, meet};
use ppd_world_steps::{Code, Note, apply, entries_of, note_of};

/// The steps since the last one that wrote an entry, after a step that wrote these.
fn rest_of(rest: u32, new: &[Entry]) -> u32
    requires { rest + 1 < 2 ^ 32 }
    ensures { result ≡ rest_after rest new.now }
{
    match new {
        [] => rest + 1,
        _ => 0,
    }
}

/// Appends the entries and takes the process's step, and answers what it needs next. `Memory` is want of
/// memory: nothing changes.
fn append_and_feed(
    code: &Code,
    proc: &mut Proc,
    entries: &mut Seq<Entry>,
    new: Vec<Entry>,
    taken: Taken,
) -> Result<Need, Memory>
    requires program { IsRunnable code.now.program.now }
    requires plan { IsNumbered code.now.plan.now }
    requires proc { IsRunning code.now.program.now proc.old }
    requires need { taken.need ≡ need_of code.now.program.now code.now.plan.now proc.old }
    ensures proc { OnOk result
        (proc.new ≡ act code.now.program.now code.now.plan.now proc.old taken.answer) }
    ensures need { IfOk result (λ need. need ≡ need_of code.now.program.now code.now.plan.now proc.new) }
    ensures entries { OnOk result (entries.new ≡ entries.old ++ new.items) }
    ensures same_proc { OnErr result (proc.new ≡ proc.old) }
    ensures same_entries { OnErr result (entries.new ≡ entries.old) }
{
    let count = entries.len();
    entries.append(new)?;
    if meet(code.program, code.plan, proc, taken.need, &taken.answer).is_err() {
        entries.truncate(count);
        return Err(Memory);
    }
    Ok(look(code.program, code.plan, proc))
}

/// Takes a process's step, which wrote these entries, and answers what it needs next. `Memory` is want of
/// memory: nothing changes.
fn put(
    code: &Code,
    logging: &mut Logging,
    taken: Taken,
    note: Note,
    new: Vec<Entry>,
) -> Result<Need, Memory>
    requires program { IsRunnable code.now.program.now }
    requires plan { IsNumbered code.now.plan.now }
    requires logging { IsSmallLogging code.now.program.now logging.old }
    requires need { taken.need ≡ need_of code.now.program.now code.now.plan.now logging.old.proc }
    ensures ok { OnOk result
        (logging.new ≡ logged code.now.program.now code.now.plan.now logging.old taken.answer note new.items) }
    ensures need { IfOk result
        (λ need. need ≡ need_of code.now.program.now code.now.plan.now logging.new.proc) }
    ensures err { OnErr result (logging.new ≡ logging.old) }
{
    let rest = rest_of(logging.rest, new.as_slice());
    let need = append_and_feed(code, &mut logging.proc, &mut logging.entries, new, taken)?;
    apply(note, logging);
    logging.rest = rest;
    Ok(need)
}

/// Takes the next step of a process and writes its entries, and answers what it needs next. `Memory` is want
/// of memory: nothing changes.
fn step_one(
    code: &Code,
    shared: &[i64],
    logging: &mut Logging,
    taken: Taken,
) -> Result<Need, Memory>
    requires program { IsRunnable code.now.program.now }
    requires plan { IsNumbered code.now.plan.now }
    requires logging { IsSmallLogging code.now.program.now logging.old }
    requires need { taken.need ≡ need_of code.now.program.now code.now.plan.now logging.old.proc }
    ensures ok { OnOk result
        (logging.new
        ≡ log_step code.now.program.now code.now.plan.now logging.old
        (moment_with code.now.plan.now shared.now taken)) }
    ensures need { IfOk result
        (λ need. need ≡ need_of code.now.program.now code.now.plan.now logging.new.proc) }
    ensures err { OnErr result (logging.new ≡ logging.old) }
{
    let new = entries_of(code, logging, shared, taken)?;
    let note = note_of(code.alloc, logging, taken.need)?;
    put(code, logging, taken, note, new)
}

/// Takes the next step of the process at this place and writes its entries, and answers what it needs next.
/// `Memory` is want of memory: nothing changes.
pub(crate) fn step_at(
    code: &Code,
    shared: &[i64],
    loggings: &mut Vec<Logging>,
    place: usize,
    taken: Taken,
) -> Result<Need, Memory>
    requires program { IsRunnable code.now.program.now }
    requires plan { IsNumbered code.now.plan.now }
    requires loggings { All (IsSmallLogging code.now.program.now) loggings.old.items }
    requires need { taken.need
        ≡ need_of_logging code.now.program.now code.now.plan.now (slice_get loggings.old.items place) }
    ensures ok { OnOk result
        (loggings.new.items
        ≡ change (λ l. log_step code.now.program.now code.now.plan.now l
        (moment_with code.now.plan.now shared.now taken)) place loggings.old.items) }
    ensures need { IfOk result
        (λ need. need
        ≡ need_of_logging code.now.program.now code.now.plan.now (slice_get loggings.new.items place)) }
    ensures err { OnErr result (loggings.new.items ≡ loggings.old.items) }
{
    if place >= loggings.len() {
        return Ok(Need::Stopped);
    }
    step_one(code, shared, &mut loggings[place], taken)
}

/// Puts this state, to which so many steps without an entry led, in the place of a process's own.
fn go_on_with(logging: &mut Logging, proc: Proc, steps: u32)
    requires { logging.old.rest + steps < 2 ^ 32 }
    ensures { logging.new ≡ gone_on proc steps logging.old }
{
    logging.proc = proc;
    logging.rest += steps;
}

/// The same of the process at this place.
pub(crate) fn go_on(loggings: &mut Vec<Logging>, place: usize, proc: Proc, steps: u32)
    requires there { place < length loggings.old.items }
    requires rest { All (λ l. l.rest + steps < 2 ^ 32) loggings.old.items }
    ensures { loggings.new.items ≡ change (gone_on proc steps) place loggings.old.items }
{
    go_on_with(&mut loggings[place], proc, steps);
}

/// Goes on to this state, to which so many steps without an entry led, with what was printed before these steps
/// before its prints. `Memory` is want of memory: nothing changes.
fn go_on_printing_with(logging: &mut Logging, after: Proc, steps: u32) -> Result<(), Memory>
    requires { logging.old.rest + steps < 2 ^ 32 }
    ensures ok { OnOk result (logging.new ≡ gone_on_printing after steps logging.old) }
    ensures err { OnErr result (logging.new ≡ logging.old) }
{
    let rest = logging.rest + steps;
    logging.proc.go_to(after)?;
    logging.rest = rest;
    Ok(())
}

/// The same of the process at this place.
pub(crate) fn go_on_printing(
    loggings: &mut Vec<Logging>,
    place: usize,
    after: Proc,
    steps: u32,
) -> Result<(), Memory>
    requires there { place < length loggings.old.items }
    requires rest { All (λ l. l.rest + steps < 2 ^ 32) loggings.old.items }
    ensures ok { OnOk result
        (loggings.new.items ≡ change (gone_on_printing after steps) place loggings.old.items) }
    ensures err { OnErr result (loggings.new.items ≡ loggings.old.items) }
{
    go_on_printing_with(&mut loggings[place], after, steps)
}
