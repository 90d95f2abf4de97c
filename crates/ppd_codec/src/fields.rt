ghost use Rattle.std.specs.Prelude.{◌≡◌, ◌≢◌, ◌≤◌, Some, None, IfErr, IfOk, if◌then◌else◌};
ghost use Rattle.ppd_codec.specs.Came.{AnswersAs};
ghost use Rattle.ppd_codec.specs.Format.{budget as budget_form, magic as magic_form, policy_number as policy_number_form, version as version_form, source_length as source_length_form, process_count as process_count_form, tag as tag_form, sync_kind as sync_kind_form, sync_number as sync_number_form, sync_value as sync_value_form, end_status, cell as cell_form};

use crate::bad::{BadBytes, Field};
use crate::cursor::Cursor;
use crate::facts::Facts;
use ppd_ast::limits::{MOST_BUDGET, MOST_POLICY, MOST_SOURCE_BYTES};
use ppd_ast::{Status, Steps, SyncKind};
use ppd_codec_fields::{Tag, fits_kind, is_next, kind_at, status_at, tag_at};
use std::sync::ledger::Ledger;

// The value of a field that passes its test.
fn kept<T: Copy>(value: T, is_lawful: bool) -> Option<T>
    ensures { result ≡ if is_lawful then Some value else None }
{
    if is_lawful { Some(value) } else { None }
}

// The fields that not every value is lawful in. Each is refused at its own offset.
impl<'a> Cursor<'a> {
    /// The first four bytes of every recording, `PPDR`.
    pub fn magic<L: Ledger>(&mut self, steps: &mut Steps<L>) -> Result<(), BadBytes>
        ensures read { AnswersAs magic_form.read self.old self.new steps.old steps.new result }
        ensures early { IfErr result (λ e. e ≢ BadBytes.Memory) }
    {
        let at = self.offset();
        let found = self.number_4(steps)?;
        kept((), found == 0x5050_4452).ok_or(BadBytes::Magic(at))
    }

    /// The version, 1 or 2.
    pub fn version<L: Ledger>(&mut self, steps: &mut Steps<L>) -> Result<u8, BadBytes>
        ensures read { AnswersAs version_form.read self.old self.new steps.old steps.new result }
        ensures early { IfErr result (λ e. e ≢ BadBytes.Memory) }
    {
        let at = self.offset();
        let found = self.byte(steps)?;
        kept(found, 1 <= found && found <= 2).ok_or(BadBytes::Version(at))
    }

    /// The budget, 1 to 500,000.
    pub fn budget<L: Ledger>(&mut self, steps: &mut Steps<L>) -> Result<u32, BadBytes>
        ensures read { AnswersAs budget_form.read self.old self.new steps.old steps.new result }
        ensures most { IfOk result (λ n. n ≤ MOST_BUDGET) }
        ensures early { IfErr result (λ e. e ≢ BadBytes.Memory) }
    {
        let at = self.offset();
        let found = self.number_4(steps)?;
        kept(found, 1 <= found && found <= MOST_BUDGET).ok_or(BadBytes::Range(at, Field::Budget))
    }

    /// A number of the policy, at most 4,096.
    pub fn policy_number<L: Ledger>(
        &mut self,
        field: Field,
        steps: &mut Steps<L>,
    ) -> Result<u16, BadBytes>
        ensures read { AnswersAs (policy_number_form field).read self.old self.new steps.old steps.new result }
        ensures most { IfOk result (λ n. n ≤ MOST_POLICY) }
        ensures early { IfErr result (λ e. e ≢ BadBytes.Memory) }
    {
        let at = self.offset();
        let found = self.number_2(steps)?;
        kept(found, found <= MOST_POLICY).ok_or(BadBytes::Range(at, field))
    }

    /// The length of the source, at most 262,144.
    pub fn source_length<L: Ledger>(&mut self, steps: &mut Steps<L>) -> Result<u32, BadBytes>
        ensures read { AnswersAs source_length_form.read self.old self.new steps.old steps.new result }
        ensures most { IfOk result (λ n. n ≤ MOST_SOURCE_BYTES) }
        ensures early { IfErr result (λ e. e ≢ BadBytes.Memory) }
    {
        let at = self.offset();
        let found = self.number_4(steps)?;
        kept(found, found as usize <= MOST_SOURCE_BYTES).ok_or(BadBytes::Range(at, Field::Source))
    }

    /// The count of processes, which is the source's.
    pub fn process_count<L: Ledger>(
        &mut self,
        facts: Facts,
        steps: &mut Steps<L>,
    ) -> Result<u8, BadBytes>
        ensures read { AnswersAs (process_count_form facts).read self.old self.new steps.old steps.new result }
    {
        let at = self.offset();
        let found = self.byte(steps)?;
        kept(found, found == facts.processes).ok_or(BadBytes::Range(at, Field::Processes))
    }

    /// What the next entry is.
    pub fn tag<L: Ledger>(&mut self, steps: &mut Steps<L>) -> Result<Tag, BadBytes>
        ensures { AnswersAs tag_form.read self.old self.new steps.old steps.new result }
    {
        let at = self.offset();
        tag_at(self.byte(steps)?).ok_or(BadBytes::Range(at, Field::Tag))
    }

    /// How a process ended.
    pub fn status<L: Ledger>(&mut self, steps: &mut Steps<L>) -> Result<Status, BadBytes>
        ensures { AnswersAs end_status.read self.old self.new steps.old steps.new result }
    {
        let at = self.offset();
        status_at(self.byte(steps)?).ok_or(BadBytes::Range(at, Field::Status))
    }

    /// A kind of synchronization that this version has.
    pub fn sync_kind<L: Ledger>(
        &mut self,
        version: u8,
        steps: &mut Steps<L>,
    ) -> Result<SyncKind, BadBytes>
        ensures { AnswersAs (sync_kind_form version).read self.old self.new steps.old steps.new result }
    {
        let at = self.offset();
        kind_at(version, self.byte(steps)?).ok_or(BadBytes::Range(at, Field::Kind))
    }

    /// A synchronization's number, at least 1.
    pub fn sync_number<L: Ledger>(&mut self, steps: &mut Steps<L>) -> Result<u32, BadBytes>
        ensures { AnswersAs sync_number_form.read self.old self.new steps.old steps.new result }
    {
        let at = self.offset();
        let found = self.number_4(steps)?;
        kept(found, found >= 1).ok_or(BadBytes::Range(at, Field::Number))
    }

    /// The value of a synchronization of this kind: 0 but for what is sent and received.
    pub fn sync_value<L: Ledger>(
        &mut self,
        kind: SyncKind,
        steps: &mut Steps<L>,
    ) -> Result<i64, BadBytes>
        ensures { AnswersAs (sync_value_form kind).read self.old self.new steps.old steps.new result }
    {
        let at = self.offset();
        let found = self.value(steps)?;
        kept(found, fits_kind(kind, found)).ok_or(BadBytes::Range(at, Field::Value))
    }

    /// A shared cell, at least `low`.
    pub fn cell<L: Ledger>(
        &mut self,
        shared: u32,
        low: u32,
        steps: &mut Steps<L>,
    ) -> Result<u16, BadBytes>
        ensures { AnswersAs (cell_form shared low).read self.old self.new steps.old steps.new result }
    {
        let at = self.offset();
        let found = self.number_2(steps)?;
        kept(found, is_next(shared, low, found)).ok_or(BadBytes::Range(at, Field::Cells))
    }
}
