ghost use Rattle.std.specs.Prelude.{◌≡◌, IfErr, IfOk};
ghost use Rattle.ppd_codec.specs.Laws.{NoRecordingIsBad, OneReading, OneSpelling};
ghost use Rattle.ppd_codec.specs.Recordings.{AreLawful};

use crate::bad::BadBytes;
use crate::decoding::decode;
use crate::encoding::encode;
use crate::recording::{Header, Recording};
use ppd_model::Logs;
use std::alloc::Global;

/// Law: a lawful source, header and logs have one recording; bytes are the recording of one such three at most;
/// and no test of `decode` fails on a recording.
pub fn one_recording()
    ensures spelling { OneSpelling }
    ensures reading { OneReading }
    ensures good { NoRecordingIsBad }
{}

/// Law: decoding what `encode` answers gives back the three. `Memory` is want of memory, and nothing else comes.
pub fn decode_encoded(
    alloc: Global,
    source: &[u8],
    header: &Header,
    logs: &Logs,
) -> Result<Recording, BadBytes>
    requires lawful { AreLawful source.now header.now logs.now }
    ensures source { IfOk result (λ r. r.source ≡ source.now) }
    ensures header { IfOk result (λ r. r.header ≡ header.now) }
    ensures logs { IfOk result (λ r. r.logs ≡ logs.now) }
    ensures err { IfErr result (λ e. e ≡ BadBytes.Memory) }
{
    let bytes = encode(alloc, source, header, logs)?;
    decode(alloc, bytes.as_slice())
}
