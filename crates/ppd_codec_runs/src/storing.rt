ghost use Rattle.std.specs.Prelude.{IfOk};
ghost use Rattle.ppd_codec.specs.Recordings.{IsRecordingOf};
ghost use Rattle.ppd_codec_runs.specs.Recordings.{AreOfSomeRun};

use ppd_ast::{Bytes, Memory};
use ppd_codec::{Header, encode};
use ppd_model::Logs;
use std::alloc::Global;

/// The recording of a whole run: of its source, of the policy and the budget that it ran with, and of its logs.
/// `Memory` is want of memory.
pub fn record(alloc: Global, source: &[u8], header: &Header, logs: &Logs) -> Result<Bytes, Memory>
    requires run { AreOfSomeRun source.now header.now logs.now }
    ensures { IfOk result (IsRecordingOf source.now header.now logs.now) }
{
    encode(alloc, source, header, logs)
}
