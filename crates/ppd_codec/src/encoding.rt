ghost use Rattle.std.specs.Prelude.{◌≡◌, ◌+◌, ◌<◌, ◌≤◌, ◌++◌, length, IfOk, OnOk};
ghost use Rattle.ppd_ast.specs.declared.limits.TheConstants.{MOST_SOURCE_BYTES};
ghost use Rattle.ppd_ast.specs.declared.program.Program.{Program};
ghost use Rattle.ppd_check.specs.Read.{IsRead};
ghost use Rattle.ppd_codec.specs.declared.facts.Facts.{Facts};
ghost use Rattle.ppd_codec.specs.Format.{front as front_form, logs as logs_form, source as source_form};
ghost use Rattle.ppd_codec.specs.Recordings.{AreLawful, IsRecordingOf, front_of, facts_of};

use crate::facts::facts_of;
use crate::recording::Header;
use crate::writer::Writer;
use ppd_ast::{Bytes, Memory, Steps};
use ppd_check::read_source;
use ppd_model::Logs;
use std::alloc::Global;
use std::marker::Brand;
use std::sync::ledger::{Blank, Ledger};

impl Writer {
    // The source's bytes, after their count.
    fn source<L: Ledger>(&mut self, source: &[u8], steps: &mut Steps<L>) -> Result<(), Memory>
        requires { length source.now ≤ MOST_SOURCE_BYTES }
        ensures ok { OnOk result (self.new.out.items ≡ self.old.out.items ++ source_form.bytes source.now) }
        ensures cost { steps.new + length self.old.out.items ≤ steps.old + length self.new.out.items }
    {
        self.number_4(source.len() as u32, steps)?;
        self.out.extend_from_slice(source)?;
        Ok(())
    }

    /// All that stands before the logs.
    pub fn front<L: Ledger>(
        &mut self,
        version: u8,
        header: &Header,
        source: &[u8],
        steps: &mut Steps<L>,
    ) -> Result<(), Memory>
        requires { length source.now ≤ MOST_SOURCE_BYTES }
        ensures ok { OnOk result
            (self.new.out.items ≡ self.old.out.items ++ front_form.bytes (front_of version header.now source.now)) }
        ensures cost { steps.new + length self.old.out.items ≤ steps.old + length self.new.out.items }
    {
        self.number_4(0x5050_4452, steps)?;
        self.byte(version, steps)?;
        self.number_4(header.budget, steps)?;
        self.number_2(header.policy.leaf, steps)?;
        self.number_2(header.policy.loops, steps)?;
        self.source(source, steps)
    }

    // All of the recording of these three.
    fn recording<L: Ledger>(
        &mut self,
        version: u8,
        header: &Header,
        source: &[u8],
        logs: &Logs,
        steps: &mut Steps<L>,
    ) -> Result<(), Memory>
        requires lawful { AreLawful source.now header.now logs.now }
        ensures ok { OnOk result
            ((f : Facts) → self.new.out.items
            ≡ (self.old.out.items ++ front_form.bytes (front_of version header.now source.now))
            ++ (logs_form f).bytes logs.now.lists) }
        ensures cost { steps.new + length self.old.out.items ≤ steps.old + length self.new.out.items }
    {
        self.front(version, header, source, steps)?;
        self.logs(logs.lists.as_slice(), steps)
    }
}

// The version of the recordings of a source. An accepted source has one but for want of memory.
fn version_for(alloc: Global, source: &[u8]) -> Result<u8, Memory>
    ensures { IfOk result (λ version. (p : Program) × IsRead source.now p × (version ≡ (facts_of p).version)) }
{
    match read_source(alloc, source) {
        Ok(program) => Ok(facts_of(&program).version),
        Err(_) => Err(Memory),
    }
}

/// The recording of these three, as `encode` answers it, in at most one step for each byte of it. A step is
/// writing a field of the header or of the logs; reading the source is not counted.
pub fn encode_in<L: Ledger>(
    alloc: Global,
    source: &[u8],
    header: &Header,
    logs: &Logs,
    steps: &mut Steps<L>,
) -> Result<Bytes, Memory>
    requires lawful { AreLawful source.now header.now logs.now }
    ensures rec { IfOk result (IsRecordingOf source.now header.now logs.now) }
    ensures cost { IfOk result (λ bytes. steps.new ≤ steps.old + length bytes) }
{
    let version = version_for(alloc, source)?;
    let mut writer = Writer::new(alloc);
    let done = writer.recording(version, header, source, logs, steps);
    done.and(Ok(Bytes::from_vec(writer.out)))
}

// The same, with steps that nobody reads.
fn encode_from<L: Ledger>(
    alloc: Global,
    source: &[u8],
    header: &Header,
    logs: &Logs,
    blank: Blank,
) -> Result<Bytes, Memory>
    requires name { blank.name ≡ L.name }
    requires parts { blank.parts ≡ L.parts }
    requires some { 0 < blank.parts }
    requires lawful { AreLawful source.now header.now logs.now }
    ensures rec { IfOk result (IsRecordingOf source.now header.now logs.now) }
{
    let mut steps: Steps<L> = Steps::new(blank);
    encode_in(alloc, source, header, logs, &mut steps)
}

/// The recording of a run: the source, the header and the logs, which are lawful. The source is accepted; each
/// field is lawful by the table of the form; there are as many logs as the source has processes; and the
/// recording has at most 268,435,456 bytes. `Memory` is want of memory.
pub fn encode(alloc: Global, source: &[u8], header: &Header, logs: &Logs) -> Result<Bytes, Memory>
    requires lawful { AreLawful source.now header.now logs.now }
    ensures rec { IfOk result (IsRecordingOf source.now header.now logs.now) }
{
    encode_from::<Brand>(alloc, source, header, logs, Blank::new(1))
}
