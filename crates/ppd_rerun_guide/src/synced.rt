// Synchronizations as a log and a step have them.
ghost use Rattle.std.specs.Prelude.{◌≡◌, ◌==◌, ◌++◌, drop, filter_map, length, map, option_to_list, slice_get, IfOk, OnOk};
ghost use Rattle.ppd_rerun_guide.specs.Guided.{is_let as is_let_of};
ghost use Rattle.ppd_model.specs.SameSyncs.{same_sync as same_sync_of};
ghost use Rattle.ppd_model.specs.RecordedSets.{sync_in as sync_in_entry};
ghost use Rattle.ppd_model.specs.Synchronizations.{kind_of_sync, sync_of as sync_of_step};
ghost use Rattle.ppd_rerun_guide.specs.Guides.{left_of, plain, plain_if};

use ppd_ast::{Memory, Seq, SyncKind};
use ppd_model::{Entry, Taken, same_kind};
use ppd_sem::Need;
use std::alloc::Global;

/// A synchronization: its number is that among those of its kind and object.
#[derive(Clone, Copy)]
pub struct Synced {
    pub kind: SyncKind,
    pub object: u8,
    pub number: u32,
}

/// The record of a process, and how many of its synchronizations were taken.
#[derive(Drop)]
pub struct Due {
    pub syncs: Seq<Synced>,
    pub taken: usize,
}

/// The synchronization that an entry is, if it is one.
fn sync_in(entry: &Entry) -> Option<Synced>
    ensures { plain_if result ≡ sync_in_entry entry.now }
{
    match entry {
        Entry::Sync {
            kind,
            object,
            number,
            ..
        } => Some(Synced {
            kind: *kind,
            object: *object,
            number: *number,
        }),
        _ => None,
    }
}

/// The kind and the object of a synchronization.
fn kind_of(need: Need) -> Option<(SyncKind, u8)>
    ensures { result ≡ kind_of_sync need }
{
    match need {
        Need::P { sem, .. } => Some((SyncKind::P, sem)),
        Need::V { sem, .. } => Some((SyncKind::V, sem)),
        Need::Send { chan, .. } | Need::Offer { chan, .. } => Some((SyncKind::Send, chan)),
        Need::Done { chan, .. } => Some((SyncKind::Done, chan)),
        Need::Recv { chan, .. } => Some((SyncKind::Recv, chan)),
        _ => None,
    }
}

/// The synchronization that a step is, if it is one.
pub(crate) fn sync_of(taken: &Taken) -> Option<Synced>
    ensures { plain_if result ≡ sync_of_step taken.now }
{
    match (kind_of(taken.need), taken.number) {
        (Some((kind, object)), Some(number)) => Some(Synced {
            kind,
            object,
            number,
        }),
        _ => None,
    }
}

/// Whether they have one kind, object and number.
fn same_sync(a: Synced, b: Synced) -> bool
    ensures { result ≡ same_sync_of (plain a) (plain b) }
{
    same_kind(a.kind, b.kind) && a.object == b.object && a.number == b.number
}

/// Whether a step is no synchronization, or just the one that is next.
pub(crate) fn is_let(now: Option<Synced>, next: Option<Synced>) -> bool
    ensures { result ≡ is_let_of (plain_if now) (plain_if next) }
{
    match (now, next) {
        (None, _) => true,
        (Some(_), None) => false,
        (Some(now), Some(next)) => same_sync(now, next),
    }
}

/// Appends the synchronization that an entry is, if it is one.
fn take_entry(syncs: &mut Seq<Synced>, entry: &Entry) -> Result<(), Memory>
    ensures { OnOk result (map plain syncs.new ≡ map plain syncs.old ++ option_to_list (sync_in_entry entry.now)) }
{
    match sync_in(entry) {
        Some(sync) => syncs.push(sync),
        None => Ok(()),
    }
}

/// The synchronizations among these entries, in order.
fn syncs_in(alloc: Global, entries: &[Entry]) -> Result<Seq<Synced>, Memory>
    ensures { IfOk result (λ syncs. map plain syncs ≡ filter_map sync_in_entry entries.now) }
{
    let mut syncs = Seq::new(alloc);
    for entry in entries {
        take_entry(&mut syncs, entry)?;
    }
    Ok(syncs)
}

impl Due {
    /// All of the record that these entries tell is left.
    pub(crate) fn new(alloc: Global, entries: &[Entry]) -> Result<Due, Memory>
        ensures { IfOk result (λ due. left_of due ≡ filter_map sync_in_entry entries.now) }
    {
        Ok(Due {
            syncs: syncs_in(alloc, entries)?,
            taken: 0,
        })
    }

    /// The next synchronization that is left.
    #[tactic(auto, using(crate::proofs::Guides::next_is))]
    pub(crate) fn next(&self) -> Option<Synced>
        ensures { plain_if result ≡ slice_get (left_of self.now) 0 }
    {
        self.syncs.get(self.taken).copied()
    }

    /// Whether none is left.
    pub(crate) fn is_over(&self) -> bool
        ensures { result ≡ (length (left_of self.now) == 0) }
    {
        self.taken >= self.syncs.len()
    }

    /// The next one is taken off; where none is left, nothing changes.
    #[tactic(auto, using(crate::proofs::Guides::one_passed, crate::proofs::Guides::none_passed))]
    pub(crate) fn pass(&mut self)
        ensures { left_of self.new ≡ drop 1 (left_of self.old) }
    {
        if self.taken < self.syncs.len() {
            self.taken += 1;
        }
    }
}
