ghost use Rattle.std.specs.Prelude.{◌≡◌, ◌≢◌, ◌+◌, ◌<◌, ◌≤◌, length, nat_eq, true, Ok, Err, IfErr, IfOk, if◌then◌else◌};
ghost use Rattle.ppd_ast.specs.Valid.{IsValid};
ghost use Rattle.ppd_ast.specs.ValidPlan.{IsValidPlan, IsValidPolicy};
ghost use Rattle.ppd_codec.specs.Answer.{IsDecodingOf};
ghost use Rattle.ppd_codec.specs.Format.{logs as logs_form};
ghost use Rattle.ppd_blocks.specs.Blocks.{plan_of};
ghost use Rattle.ppd_codec.specs.Recordings.{IsMade, facts_of as facts_in, nothing_left, refusal as refusal_of};

use crate::bad::{BadBytes, Field};
use crate::cursor::Cursor;
use crate::facts::{Facts, facts_of};
use crate::front::Front;
use crate::recording::Recording;
use ppd_ast::limits::MOST_RECORDING_BYTES;
use ppd_ast::{Bytes, Plan, Program, Seq, Steps};
use ppd_blocks::partition;
use ppd_check::{SourceError, read_source};
use ppd_model::{Entry, Logs};
use std::alloc::Global;
use std::marker::Brand;
use std::sync::ledger::{Blank, Ledger};

fn refusal(error: SourceError) -> BadBytes
    ensures { result ≡ refusal_of error }
{
    match error {
        SourceError::Memory => BadBytes::Memory,
        fault => BadBytes::Source(fault),
    }
}

impl<'a> Cursor<'a> {
    // The logs, after which nothing is left.
    fn last<L: Ledger>(
        &mut self,
        alloc: Global,
        facts: Facts,
        steps: &mut Steps<L>,
    ) -> Result<Seq<Seq<Entry>>, BadBytes>
        ensures ok { IfOk result
            (λ lists. nothing_left ((logs_form facts).read self.old.at self.old.rest.now) ≡ Ok lists) }
        ensures err { IfErr result
            (λ e. e ≢ BadBytes.Memory
            → nothing_left ((logs_form facts).read self.old.at self.old.rest.now) ≡ Err e) }
        ensures cost { steps.new ≤ steps.old + length self.old.rest.now }
    {
        let lists = self.logs(alloc, facts, steps)?;
        if self.is_empty() {
            return Ok(lists);
        }
        Err(BadBytes::Trailing(self.offset()))
    }

    // The logs of a recording of this program, which has to ask for this version.
    fn last_of<L: Ledger>(
        &mut self,
        alloc: Global,
        program: &Program,
        version: u8,
        steps: &mut Steps<L>,
    ) -> Result<Seq<Seq<Entry>>, BadBytes>
        requires { IsValid program.now }
        ensures ok { IfOk result
            (λ lists. (nat_eq version (facts_in program.now).version ≡ true)
            × (nothing_left ((logs_form (facts_in program.now)).read self.old.at self.old.rest.now) ≡ Ok lists)) }
        ensures err { IfErr result
            (λ e. e ≢ BadBytes.Memory
            → (if nat_eq version (facts_in program.now).version
            then nothing_left ((logs_form (facts_in program.now)).read self.old.at self.old.rest.now)
            else Err (BadBytes.Range 4 Field.Version)) ≡ Err e) }
        ensures cost { steps.new ≤ steps.old + length self.old.rest.now }
    {
        let facts = facts_of(program);
        if version != facts.version {
            return Err(BadBytes::Range(4, Field::Version));
        }
        self.last(alloc, facts, steps)
    }
}

// What a recording keeps beside what was read: the plan of the program, and the source's bytes.
fn plan_and_source(
    alloc: Global,
    front: &Front,
    program: &Program,
) -> Result<(Plan, Bytes), BadBytes>
    requires program { IsValid program.now }
    requires policy { IsValidPolicy front.now.header.policy }
    ensures plan { IfOk result (λ kept. kept.0 ≡ plan_of program.now front.now.header.policy) }
    ensures valid { IfOk result (λ kept. IsValidPlan program.now kept.0) }
    ensures source { IfOk result (λ kept. kept.1 ≡ front.now.source.now) }
    ensures err { IfErr result (λ e. e ≡ BadBytes.Memory) }
{
    let plan = partition(alloc, program, &front.header.policy)?;
    let Ok(source) = Vec::from_slice(alloc, front.source) else {
        return Err(BadBytes::Memory);
    };
    Ok((plan, Bytes::from_vec(source)))
}

// The recording of parts that were read.
fn made(
    alloc: Global,
    front: &Front,
    program: Program,
    lists: Seq<Seq<Entry>>,
) -> Result<Recording, BadBytes>
    requires program { IsValid program }
    requires policy { IsValidPolicy front.now.header.policy }
    ensures ok { IfOk result (IsMade front.now.header front.now.source.now program lists) }
    ensures valid { IfOk result (λ r. IsValidPlan r.program r.plan) }
    ensures err { IfErr result (λ e. e ≡ BadBytes.Memory) }
{
    let Ok((plan, source)) = plan_and_source(alloc, front, &program) else {
        drop(program);
        drop(lists);
        return Err(BadBytes::Memory);
    };
    Ok(Recording {
        source,
        program,
        plan,
        header: front.header,
        logs: Logs { lists },
    })
}

/// What the bytes record, as `decode` answers it, in at most one step for each byte. A step is taking a field
/// of the header or of the logs; reading the source, and the plan, are not counted.
pub fn decode_in<L: Ledger>(
    alloc: Global,
    bytes: &[u8],
    steps: &mut Steps<L>,
) -> Result<Recording, BadBytes>
    ensures decoding { IsDecodingOf bytes.now result }
    ensures cost { steps.new ≤ steps.old + length bytes.now }
{
    if bytes.len() > MOST_RECORDING_BYTES {
        return Err(BadBytes::TooLong);
    }
    let mut cursor = Cursor::new(bytes);
    let front = cursor.front(steps)?;
    let program = match read_source(alloc, front.source) {
        Ok(program) => program,
        Err(error) => return Err(refusal(error)),
    };
    let lists = match cursor.last_of(alloc, &program, front.version, steps) {
        Ok(lists) => lists,
        Err(error) => {
            drop(program);
            return Err(error);
        }
    };
    made(alloc, &front, program, lists)
}

// The same, with steps that nobody reads.
fn decode_from<L: Ledger>(alloc: Global, bytes: &[u8], blank: Blank) -> Result<Recording, BadBytes>
    requires name { blank.name ≡ L.name }
    requires parts { blank.parts ≡ L.parts }
    requires some { 0 < blank.parts }
    ensures { IsDecodingOf bytes.now result }
{
    let mut steps: Steps<L> = Steps::new(blank);
    decode_in(alloc, bytes, &mut steps)
}

/// The source, the header and the logs of which the bytes are the recording, with the source's program and the
/// plan of the policy. It is answered for exactly the bytes that `encode` answers for lawful ones.
///
/// Otherwise the first test that fails: `TooLong` first; then field by field in order `Short` where the bytes
/// end before the field does, else its own refusal; right after the source's bytes `Source` where it is not
/// accepted, then `Range` with `Version`, at 4, where the version is not the one that it asks for; `Trailing`
/// last. `Memory` is want of memory, which nothing before the source takes: it comes only where no test up to the
/// source's bytes fails.
pub fn decode(alloc: Global, bytes: &[u8]) -> Result<Recording, BadBytes>
    ensures { IsDecodingOf bytes.now result }
{
    decode_from::<Brand>(alloc, bytes, Blank::new(1))
}
