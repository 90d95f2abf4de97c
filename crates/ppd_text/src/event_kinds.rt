// What an event is, in a word and the name of what it is about.
ghost use Rattle.std.specs.Prelude.{◌≡◌, ◌++◌, ◌&&◌, OnOk, if◌then◌else◌, is_none, is_some};
ghost use Rattle.ppd_text.specs.Kinds.{kind_text};
ghost use Rattle.ppd_ast.specs.declared.status.SyncKind.TheVariants as sync;
ghost use Rattle.ppd_text.specs.Names.{object_text};
ghost use Rattle.ppd_text.specs.Items.{event_kind};

use crate::kinds::{put_kind, put_named};
use crate::names::chan_name;
use ppd_ast::{Kind, Memory, Program};
use ppd_sem::Event;

/// Whether an event of a send is the completion of an offer.
fn is_completion(event: &Event) -> bool
    ensures { result ≡ is_some event.now.number && is_none event.now.value }
{
    event.number.is_some() && event.value.is_none()
}

/// Appends what an event of a send on this channel is.
fn put_send(
    text: &mut Vec<u8>,
    program: &Program,
    event: &Event,
    chan: u8,
    kind: &Kind,
) -> Result<(), Memory>
    ensures { OnOk result
        (text.new.items
        ≡ text.old.items
        ++ (if is_some event.now.number && is_none event.now.value
        then object_text program.now sync.Done chan
        else kind_text program.now kind.now)) }
{
    if is_completion(event) {
        return put_named(text, b"done ", chan_name(program, chan));
    }
    put_kind(text, program, kind)
}

/// Appends what an event of a statement of this kind is.
pub fn put_event_kind(
    text: &mut Vec<u8>,
    program: &Program,
    event: &Event,
    kind: &Kind,
) -> Result<(), Memory>
    ensures { OnOk result (text.new.items ≡ text.old.items ++ event_kind program.now event.now kind.now) }
{
    match kind {
        Kind::Send(chan, _) => put_send(text, program, event, *chan, kind),
        _ => put_kind(text, program, kind),
    }
}
