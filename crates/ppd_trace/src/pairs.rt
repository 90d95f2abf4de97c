ghost use Rattle.std.specs.Prelude.{◌≡◌, ℕ, ◌+◌, ◌*◌, ◌<◌, ◌≤◌, ◌^◌, length, None, Some, IfOk, OnOk, if◌then◌else◌};
ghost use Rattle.std.specs.List.{All};
ghost use Rattle.std.specs.Option.{option_map_or, option_or};
ghost use Rattle.ppd_model.specs.Numbers.{sync};
ghost use Rattle.ppd_model.specs.Synchronizations.{kind_of_sync as kind_of, leading_in, led_to as number_led_to, sync_of, leading_from};
ghost use Rattle.ppd_sem.specs.Described.{is_event};
ghost use Rattle.ppd_trace.specs.Leading.{HavePairs, KeepsFirst, LeadTo, found_in, looked_up, target};
ghost use Rattle.ppd_trace.specs.Spending.{steps_in};

use ppd_ast::{Memory, Program, Steps, SyncKind};
use ppd_model::{EventId, Story, Taken};
use ppd_sem::{Need, capacity_of};
use std::alloc::Global;
use std::collections::HashMap;
use std::sync::ledger::Ledger;

/// The first event that leads to a synchronization of one kind, by its object and its number.
type Leads = HashMap<(u8, u64), EventId>;

/// A story with the first events that lead to each `P`, each receive, each send and each completion.
#[derive(Drop)]
pub(crate) struct PairedStory {
    pub(crate) story: Story,
    takes: Leads,
    receives: Leads,
    sends: Leads,
    completes: Leads,
}

/// The kind and the object of a synchronization.
fn kind_of_sync(need: Need) -> Option<(SyncKind, u8)>
    ensures { result ≡ kind_of need }
{
    match need {
        Need::P { sem, .. } => Some((SyncKind::P, sem)),
        Need::V { sem, .. } => Some((SyncKind::V, sem)),
        Need::Send { chan, .. } | Need::Offer { chan, .. } => Some((SyncKind::Send, chan)),
        Need::Done { chan, .. } => Some((SyncKind::Done, chan)),
        Need::Recv { chan, .. } => Some((SyncKind::Recv, chan)),
        _ => None,
    }
}

/// The number of the second kind to which this number of the first kind leads.
fn led_to(capacity: u8, first: SyncKind, second: SyncKind, number: u32) -> Option<u64>
    ensures { result ≡ number_led_to capacity first second number }
{
    match (first, second) {
        (SyncKind::V, SyncKind::P) => Some(u64::from(number)),
        (SyncKind::Send, SyncKind::Recv) => Some(u64::from(number)),
        (SyncKind::Recv, SyncKind::Done) if capacity == 0 => Some(u64::from(number)),
        (SyncKind::Done, SyncKind::Send) if capacity == 0 => Some(u64::from(number) + 1),
        (SyncKind::Recv, SyncKind::Send) if capacity != 0 => {
            Some(u64::from(number) + u64::from(capacity))
        }
        _ => None,
    }
}

/// The object and the number of the synchronization of this kind to which a step leads.
fn target_of(program: &Program, kind: SyncKind, step: &Taken) -> Option<(u8, u64)>
    ensures { result ≡ target program.now kind (sync_of step.now) }
{
    let Some((first, object)) = kind_of_sync(step.need) else {
        return None;
    };
    let Some(number) = step.number else {
        return None;
    };
    match led_to(capacity_of(program, object), first, kind, number) {
        Some(led) => Some((object, led)),
        None => None,
    }
}

fn found<L: Ledger>(leads: &Leads, object: u8, number: u64, steps: &mut Steps<L>) -> Option<EventId>
    ensures value { result ≡ found_in leads.now object number }
    ensures cost { steps.new ≡ steps.old + 1 }
{
    steps.tick();
    leads.get(&(object, number)).copied()
}

/// Keeps the event for its target, where there is no earlier one.
fn keep_first<L: Ledger>(
    leads: &mut Leads,
    target: Option<(u8, u64)>,
    event: EventId,
    steps: &mut Steps<L>,
) -> Result<(), Memory>
    ensures kept { OnOk result (KeepsFirst leads.old leads.new target event) }
    ensures cost { steps.new ≤ steps.old + 2 }
{
    let Some((object, number)) = target else {
        return Ok(());
    };
    if found(leads, object, number, steps).is_some() {
        return Ok(());
    }
    steps.tick();
    leads.insert((object, number), event)?;
    Ok(())
}

/// The next event's number after a step.
fn number_after(number: u32, taken: &Taken) -> u32
    requires { number + 1 < 2 ^ 32 }
    ensures { result ≡ if is_event taken.now.need then number + 1 else number }
{
    if taken.need.is_event() {
        number + 1
    } else {
        number
    }
}

/// Keeps the first events among these steps of a process that lead to synchronizations of a kind.
fn add_process<L: Ledger>(
    program: &Program,
    kind: SyncKind,
    process: u8,
    own: &[Taken],
    leads: &mut Leads,
    steps: &mut Steps<L>,
) -> Result<(), Memory>
    requires { length own.now < 2 ^ 32 }
    ensures kept { OnOk result
        ((object number : ℕ)
        → found_in leads.new object number
        ≡ option_or (found_in leads.old object number)
        (option_map_or
        (λ n. Some (record { process = process; number = n }))
        (leading_in program.now (Some (sync kind object number)) 0 own.now)
        None)) }
    ensures cost { steps.new ≤ steps.old + 3 * length own.now }
{
    let mut number = 0;
    for taken in own {
        steps.tick();
        let target = target_of(program, kind, taken);
        keep_first(leads, target, EventId { process, number }, steps)?;
        number = number_after(number, taken);
    }
    Ok(())
}

/// Puts the first events, process after process, that lead to the synchronizations of a kind into an empty map.
fn add_leads<L: Ledger>(
    program: &Program,
    kind: SyncKind,
    story: &Story,
    leads: &mut Leads,
    steps: &mut Steps<L>,
) -> Result<(), Memory>
    requires few { All (λ own. length own < 2 ^ 32) story.now.steps }
    requires processes { length story.now.steps ≤ 2 ^ 8 }
    requires empty { (object number : ℕ) → found_in leads.old object number ≡ None }
    ensures leads { OnOk result (LeadTo program.now kind story.now leads.new) }
    ensures cost { steps.new ≤ steps.old + length story.now.steps + 3 * steps_in story.now }
{
    let lists = story.steps.as_slice();
    for (process, own) in lists.iter().enumerate() {
        steps.tick();
        let own = own.as_slice();
        add_process(program, kind, process as u8, own, leads, steps)?;
    }
    Ok(())
}

impl PairedStory {
    /// Finds the pairs of the story, where none is found yet.
    fn find<L: Ledger>(&mut self, program: &Program, steps: &mut Steps<L>) -> Result<(), Memory>
        requires few { All (λ own. length own < 2 ^ 32) self.old.story.steps }
        requires processes { length self.old.story.steps ≤ 2 ^ 8 }
        requires takes { (object number : ℕ) → found_in self.old.takes object number ≡ None }
        requires receives { (object number : ℕ) → found_in self.old.receives object number ≡ None }
        requires sends { (object number : ℕ) → found_in self.old.sends object number ≡ None }
        requires completes { (object number : ℕ) → found_in self.old.completes object number ≡ None }
        ensures cost { steps.new
            ≤ steps.old + 4 * length self.old.story.steps + 12 * steps_in self.old.story }
        ensures story { self.new.story ≡ self.old.story }
        ensures pairs { OnOk result
            (HavePairs program.now self.old.story self.new.takes self.new.receives self.new.sends self.new.completes) }
    {
        add_leads(program, SyncKind::P, &self.story, &mut self.takes, steps)?;
        add_leads(
            program,
            SyncKind::Recv,
            &self.story,
            &mut self.receives,
            steps,
        )?;
        add_leads(program, SyncKind::Send, &self.story, &mut self.sends, steps)?;
        add_leads(
            program,
            SyncKind::Done,
            &self.story,
            &mut self.completes,
            steps,
        )
    }
}

/// Finds the pairs of a story, in four passes over its steps. `Memory` is want of memory.
pub(crate) fn find_pairs<L: Ledger>(
    alloc: Global,
    program: &Program,
    story: Story,
    steps: &mut Steps<L>,
) -> Result<PairedStory, Memory>
    requires few { All (λ own. length own < 2 ^ 32) story.steps }
    requires processes { length story.steps ≤ 2 ^ 8 }
    ensures cost { steps.new ≤ steps.old + 4 * length story.steps + 12 * steps_in story }
    ensures story { IfOk result (λ told. told.story ≡ story) }
    ensures pairs { IfOk result
        (λ told. HavePairs program.now told.story told.takes told.receives told.sends told.completes) }
{
    let mut told = PairedStory {
        story,
        takes: HashMap::new(alloc),
        receives: HashMap::new(alloc),
        sends: HashMap::new(alloc),
        completes: HashMap::new(alloc),
    };
    told.find(program, steps)?;
    Ok(told)
}

/// The event that leads to a synchronization of this number.
fn look_up<L: Ledger>(
    told: &PairedStory,
    need: Need,
    number: u64,
    steps: &mut Steps<L>,
) -> Option<EventId>
    ensures cost { steps.new ≤ steps.old + 1 }
    ensures value { result ≡ looked_up told.now.takes told.now.receives told.now.sends told.now.completes need number }
{
    match need {
        Need::P { sem, .. } => found(&told.takes, sem, number, steps),
        Need::Recv { chan, .. } => found(&told.receives, chan, number, steps),
        Need::Send { chan, .. } | Need::Offer { chan, .. } => {
            found(&told.sends, chan, number, steps)
        }
        Need::Done { chan, .. } => found(&told.completes, chan, number, steps),
        _ => None,
    }
}

/// The event whose synchronization leads to that of the step, if the step is one and another leads
/// to it: the `V` of a `P`'s number, the send of a receive's number, the receive or the completion
/// that finds a send's place free, and the receive of a completion's number.
#[tactic(auto, using(crate::proofs::Leading::unpaired, crate::proofs::Leading::paired_as))]
pub(crate) fn paired<L: Ledger>(
    program: &Program,
    told: &PairedStory,
    step: &Taken,
    steps: &mut Steps<L>,
) -> Option<EventId>
    requires { HavePairs program.now told.now.story told.now.takes told.now.receives told.now.sends told.now.completes }
    ensures cost { steps.new ≤ steps.old + 1 }
    ensures value { result ≡ leading_from program.now (sync_of step.now) 0 told.now.story.steps }
{
    match step.number {
        Some(number) => look_up(told, step.need, u64::from(number), steps),
        None => None,
    }
}
