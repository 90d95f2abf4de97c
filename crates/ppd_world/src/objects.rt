ghost use Rattle.std.specs.Prelude.{◌≡◌, OnOk, OnErr};
ghost use Rattle.std.specs.List.{All};
ghost use Rattle.ppd_model.specs.World.{change};
ghost use Rattle.ppd_world.specs.Parts.{one_completed, one_received, with_value, one_given, one_taken, IsReceivable, without_last};
ghost use Rattle.ppd_world_steps.specs.Objects.{IsSmallSem};

use ppd_ast::Memory;
use ppd_model::{Channel, Counts};

fn take_one(counts: &mut Counts)
    requires { IsSmallSem counts.old }
    ensures { counts.new ≡ one_taken counts.old }
{
    counts.taken += 1;
}

fn give_one(counts: &mut Counts)
    requires { IsSmallSem counts.old }
    ensures { counts.new ≡ one_given counts.old }
{
    counts.given += 1;
}

/// Counts one more taking of a semaphore that is there.
pub(crate) fn take(sems: &mut Vec<Counts>, sem: u8)
    requires { All IsSmallSem sems.old.items }
    ensures { sems.new.items ≡ change one_taken sem sems.old.items }
{
    if let Some(counts) = sems.get_mut(sem as usize) {
        take_one(counts);
    }
}

/// Counts one more giving of a semaphore that is there.
pub(crate) fn give(sems: &mut Vec<Counts>, sem: u8)
    requires { All IsSmallSem sems.old.items }
    ensures { sems.new.items ≡ change one_given sem sems.old.items }
{
    if let Some(counts) = sems.get_mut(sem as usize) {
        give_one(counts);
    }
}

fn push_one(channel: &mut Channel, value: i64) -> Result<(), Memory>
    ensures ok { OnOk result (channel.new ≡ with_value value channel.old) }
    ensures err { OnErr result (channel.new ≡ channel.old) }
{
    channel.sent.push(value)
}

fn drop_one(channel: &mut Channel)
    ensures { channel.new ≡ without_last channel.old }
{
    let count = channel.sent.len();
    channel.sent.truncate(count.saturating_sub(1));
}

fn receive_one(channel: &mut Channel)
    requires { IsReceivable channel.old }
    ensures { channel.new ≡ one_received channel.old }
{
    channel.received += 1;
}

/// Appends a value to a channel that is there. `Memory` is want of memory: nothing changes.
pub(crate) fn push_value(chans: &mut Vec<Channel>, chan: u8, value: i64) -> Result<(), Memory>
    ensures ok { OnOk result (chans.new.items ≡ change (with_value value) chan chans.old.items) }
    ensures err { OnErr result (chans.new.items ≡ chans.old.items) }
{
    match chans.get_mut(chan as usize) {
        Some(channel) => push_one(channel, value),
        None => Ok(()),
    }
}

/// Takes the last value off a channel that is there.
pub(crate) fn drop_last(chans: &mut Vec<Channel>, chan: u8)
    ensures { chans.new.items ≡ change without_last chan chans.old.items }
{
    if let Some(channel) = chans.get_mut(chan as usize) {
        drop_one(channel);
    }
}

/// Counts one more receive from a channel that is there.
pub(crate) fn receive(chans: &mut Vec<Channel>, chan: u8)
    requires { All IsReceivable chans.old.items }
    ensures { chans.new.items ≡ change one_received chan chans.old.items }
{
    if let Some(channel) = chans.get_mut(chan as usize) {
        receive_one(channel);
    }
}

fn complete_one(channel: &mut Channel)
    requires { IsReceivable channel.old }
    ensures { channel.new ≡ one_completed channel.old }
{
    channel.completed += 1;
}

/// Counts one more completed send on a channel that is there.
pub(crate) fn complete(chans: &mut Vec<Channel>, chan: u8)
    requires { All IsReceivable chans.old.items }
    ensures { chans.new.items ≡ change one_completed chan chans.old.items }
{
    if let Some(channel) = chans.get_mut(chan as usize) {
        complete_one(channel);
    }
}
