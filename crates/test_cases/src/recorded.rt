// What a schedule of a recorded program logs.

ghost use Rattle.ppd_codec.specs.Recordings.{AreLawful};

use crate::logs::told_logs;
use crate::worlds::drive;
use ppd_codec::{Recording, decode, encode};
use ppd_model::{Closed, Logs};
use std::alloc::Global;

/// The recorded program, driven by the schedule and closed where nobody is enabled then.
fn driven(alloc: Global, recording: &Recording, schedule: &[u8]) -> Option<Closed> {
    let budget = recording.header.budget;
    drive(alloc, &recording.program, &recording.plan, budget, schedule)
}

/// Whether two logs have the same entries.
fn are_alike(alloc: Global, first: &Logs, second: &Logs) -> bool {
    let Ok(first) = told_logs(alloc, first) else {
        return false;
    };
    let Ok(second) = told_logs(alloc, second) else {
        return false;
    };
    first.as_str() == second.as_str()
}

/// Whether the schedule logs what is recorded.
fn has_logs(alloc: Global, recording: &Recording, schedule: &[u8]) -> bool {
    match driven(alloc, recording, schedule) {
        Some(closed) => are_alike(alloc, &closed.logs, &recording.logs),
        None => false,
    }
}

/// Whether what is recorded is encoded as these bytes.
fn is_encoded(alloc: Global, recording: &Recording, bytes: &[u8]) -> bool
    requires { AreLawful recording.now.source recording.now.header recording.now.logs }
{
    let source = recording.source.as_slice();
    match encode(alloc, source, &recording.header, &recording.logs) {
        Ok(again) => again.as_slice() == bytes,
        Err(_) => false,
    }
}

/// Whether the bytes record what the schedule logs, and are what is encoded of it again.
pub(crate) fn records(alloc: Global, bytes: &[u8], schedule: &[u8]) -> bool {
    match decode(alloc, bytes) {
        Ok(recording) => {
            has_logs(alloc, &recording, schedule) && is_encoded(alloc, &recording, bytes)
        }
        Err(_) => false,
    }
}
