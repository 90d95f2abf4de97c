ghost use Rattle.std.specs.Prelude.{◌≡◌, ◌+◌, ◌*◌, ◌≤◌, ◌++◌, length, IfOk, OnOk};
ghost use Rattle.ppd_model.specs.FullTrace.{tag_past as tag_past_spot, tags_of as tags_of_reads};

use ppd_activations::tag_in;
use ppd_ast::{Memory, Seq, Steps};
use ppd_model::EventId;
use ppd_sem::{Access, Spot};
use std::alloc::Global;
use std::sync::ledger::Ledger;

/// The tag of a place that is read, and the answers that are left: a shared one takes the next answer.
fn tag_past<'a>(
    locals: &[Option<EventId>],
    answers: &'a [Option<EventId>],
    spot: Spot,
) -> (Option<EventId>, &'a [Option<EventId>])
    ensures tag { result.0 ≡ (tag_past_spot locals.now answers.now spot).0 }
    ensures left { result.1.now ≡ (tag_past_spot locals.now answers.now spot).1 }
{
    match spot {
        Spot::Local { cell, .. } => (tag_in(locals, cell as usize), answers),
        Spot::Shared(_) => match answers {
            [] => (None, answers),
            [first, rest @ ..] => (*first, rest),
        },
    }
}

/// Appends the tags of reads in their order.
fn push_tags<L: Ledger>(
    tags: &mut Seq<Option<EventId>>,
    locals: &[Option<EventId>],
    answers: &[Option<EventId>],
    reads: &[Access],
    steps: &mut Steps<L>,
) -> Result<(), Memory>
    ensures value { OnOk result (tags.new ≡ tags.old ++ tags_of_reads locals.now answers.now reads.now) }
    ensures cost { steps.new ≤ steps.old + 2 * length reads.now }
{
    match reads {
        [] => Ok(()),
        [first, rest @ ..] => {
            steps.tick();
            steps.tick();
            let (tag, left) = tag_past(locals, answers, first.spot);
            tags.push(tag)?;
            push_tags(tags, locals, left, rest, steps)
        }
    }
}

/// The tags of reads in their order: a local one has its cell's, a shared one the next answer's.
pub(crate) fn tags_of<L: Ledger>(
    alloc: Global,
    locals: &[Option<EventId>],
    answers: &[Option<EventId>],
    reads: &[Access],
    steps: &mut Steps<L>,
) -> Result<Seq<Option<EventId>>, Memory>
    ensures cost { steps.new ≤ steps.old + 2 * length reads.now }
    ensures value { IfOk result (λ tags. tags ≡ tags_of_reads locals.now answers.now reads.now) }
{
    let mut tags = Seq::new(alloc);
    push_tags(&mut tags, locals, answers, reads, steps)?;
    Ok(tags)
}
