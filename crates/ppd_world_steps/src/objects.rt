ghost use Rattle.ppd_model.specs.World.{room_of};
ghost use Rattle.std.specs.Prelude.{◌≡◌, [], false, get_or, length, nat_lt, pos, slice_get};
ghost use Rattle.std.specs.Option.{option_map_or};
ghost use Rattle.std.specs.List.{All};
ghost use Rattle.ppd_model.specs.Story.{number_of as number_of_need};
ghost use Rattle.ppd_world_steps.specs.Objects.{IsSmallChan, IsSmallSem, store};

use ppd_model::{Channel, Counts, value_at};
use ppd_sem::Need;

/// Whether the semaphore is there and was given more often than taken.
pub fn can_take(sems: &[Counts], sem: u8) -> bool
    ensures { result ≡ option_map_or (λ (x : Counts). nat_lt x.taken x.given) (slice_get sems.now sem) false }
{
    match sems.get(sem as usize) {
        Some(counts) => counts.taken < counts.given,
        None => false,
    }
}

/// How many may have been sent.
fn room(channel: &Channel) -> u64
    ensures { result ≡ room_of channel.now.capacity channel.now }
{
    if channel.capacity == 0 {
        u64::from(channel.completed) + 1
    } else {
        u64::from(channel.received) + u64::from(channel.capacity)
    }
}

/// Whether the channel is there and has room for one more.
pub fn can_send(chans: &[Channel], chan: u8) -> bool
    ensures { result
        ≡ option_map_or (λ (x : Channel). nat_lt (length x.sent) (room_of x.capacity x)) (slice_get chans.now chan)
        false }
{
    match chans.get(chan as usize) {
        Some(channel) => (channel.sent.len() as u64) < room(channel),
        None => false,
    }
}

/// Whether the channel is there and fewer were completed on it than received.
pub fn can_complete(chans: &[Channel], chan: u8) -> bool
    ensures { result ≡ option_map_or (λ (x : Channel). nat_lt x.completed x.received) (slice_get chans.now chan) false }
{
    match chans.get(chan as usize) {
        Some(channel) => channel.completed < channel.received,
        None => false,
    }
}

/// Whether the channel is there and fewer were received from it than sent.
pub fn can_receive(chans: &[Channel], chan: u8) -> bool
    ensures { result ≡ option_map_or (λ (x : Channel). nat_lt x.received (length x.sent))
        (slice_get chans.now chan) false }
{
    match chans.get(chan as usize) {
        Some(channel) => (channel.received as usize) < channel.sent.len(),
        None => false,
    }
}

/// The value that is received next from this channel, and 0 where there is none.
pub fn next_value(chans: &[Channel], chan: u8) -> i64
    ensures { result ≡ option_map_or (λ (x : Channel). get_or x.sent x.received (pos 0))
        (slice_get chans.now chan) (pos 0) }
{
    match chans.get(chan as usize) {
        Some(channel) => value_at(channel.sent.as_slice(), channel.received as usize),
        None => 0,
    }
}

/// The number that a synchronization of this need takes.
pub fn number_of(sems: &[Counts], chans: &[Channel], need: Need) -> Option<u32>
    requires sems { All IsSmallSem sems.now }
    requires chans { All IsSmallChan chans.now }
    ensures { result ≡ number_of_need (store [] sems.now chans.now) need }
{
    match need {
        Need::P { sem, .. } => Some(sems.get(sem as usize)?.taken + 1),
        Need::V { sem, .. } => Some(sems.get(sem as usize)?.given + 1),
        Need::Send { chan, .. } | Need::Offer { chan, .. } => {
            Some(chans.get(chan as usize)?.sent.len() as u32 + 1)
        }
        Need::Done { chan, .. } => Some(chans.get(chan as usize)?.completed + 1),
        Need::Recv { chan, .. } => Some(chans.get(chan as usize)?.received + 1),
        _ => None,
    }
}
