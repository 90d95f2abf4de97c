//! What a process needs, the replay of an interval, the intervals near to an item, and what the synchronizations of
//! logs lack, rule by rule, and the bytes of a recording, field after field: that the definitions which compute them
//! follow these rules, and no others.
#![tactic(auto)]

mod laws;

pub use laws::{
    missing_follows_the_rules, near_intervals_follow_the_rules, needs_follow_the_rules,
    recordings_are_spelled_so, replays_follow_the_rules,
};
