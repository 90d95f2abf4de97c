ghost use Rattle.std.specs.Int.{w16, w32};
ghost use Rattle.std.specs.Prelude.{◌≡◌, ℕ, ◌+◌, ◌<◌, ◌≤◌, ◌^◌, ◌++◌, length, OnOk};
ghost use Rattle.std.specs.List.{All};
ghost use Rattle.ppd_codec.specs.Counted.{IsCounted, IsCountedLog};
ghost use Rattle.ppd_codec.specs.declared.facts.Facts.{Facts};
ghost use Rattle.ppd_codec.specs.Form.{byte as byte_form, number as number_form, value as value_form};
ghost use Rattle.ppd_codec.specs.Format.{values as values_form, cells as cells_form, an_entry, log as log_form, logs as logs_form};
ghost use Rattle.ppd_codec_fields.specs.Fields.{kind_code as kind_code_of, status_code as status_code_of};

use crate::writer::Writer;
use ppd_ast::{Memory, Seq, Status, Steps, SyncKind, Trap};
use ppd_model::Entry;
use std::sync::ledger::Ledger;

fn kind_code(kind: SyncKind) -> u8
    ensures { result ≡ kind_code_of kind }
{
    match kind {
        SyncKind::P => 1,
        SyncKind::V => 2,
        SyncKind::Send => 3,
        SyncKind::Recv => 4,
        SyncKind::Done => 5,
    }
}

fn status_code(status: Status) -> u8
    ensures { result ≡ status_code_of status }
{
    match status {
        Status::Ended => 0,
        Status::Trap(Trap::Overflow) => 1,
        Status::Trap(Trap::Zero) => 2,
        Status::Trap(Trap::Index) => 3,
        Status::Trap(Trap::Assert) => 4,
        Status::Trap(Trap::Depth) => 5,
        Status::Budget => 6,
        Status::Blocked => 7,
    }
}

impl Writer {
    /// Values, with their count before them.
    pub fn values<L: Ledger>(&mut self, values: &[i64], steps: &mut Steps<L>) -> Result<(), Memory>
        requires { length values.now < 2 ^ 16 }
        ensures ok { OnOk result (self.new.out.items ≡ self.old.out.items ++ values_form.bytes values.now) }
        ensures cost { steps.new + length self.old.out.items ≤ steps.old + length self.new.out.items }
    {
        self.number_2(values.len() as u16, steps)?;
        for value in values {
            self.value(*value, steps)?;
        }
        Ok(())
    }

    /// Cells, with their count before them.
    pub fn cells<L: Ledger>(&mut self, cells: &[u16], steps: &mut Steps<L>) -> Result<(), Memory>
        requires { length cells.now < 2 ^ 16 }
        ensures ok { OnOk result
            ((shared : ℕ) → self.new.out.items ≡ self.old.out.items ++ (cells_form shared).bytes cells.now) }
        ensures cost { steps.new + length self.old.out.items ≤ steps.old + length self.new.out.items }
    {
        self.number_2(cells.len() as u16, steps)?;
        for cell in cells {
            self.number_2(*cell, steps)?;
        }
        Ok(())
    }

    /// A byte, and another behind it.
    fn two_bytes<L: Ledger>(
        &mut self,
        first: u8,
        second: u8,
        steps: &mut Steps<L>,
    ) -> Result<(), Memory>
        ensures ok { OnOk result
            (self.new.out.items ≡ self.old.out.items ++ (byte_form.bytes first ++ byte_form.bytes second)) }
        ensures cost { steps.new + length self.old.out.items ≤ steps.old + length self.new.out.items }
    {
        self.byte(first, steps)?;
        self.byte(second, steps)
    }

    /// The number of a block or a unit, and its values, after a tag.
    fn numbered<L: Ledger>(
        &mut self,
        tag: u8,
        number: u16,
        values: &[i64],
        steps: &mut Steps<L>,
    ) -> Result<(), Memory>
        requires { length values.now < 2 ^ 16 }
        ensures ok { OnOk result
            (self.new.out.items ≡ self.old.out.items
            ++ (byte_form.bytes tag ++ ((number_form w16).bytes number ++ values_form.bytes values.now))) }
        ensures cost { steps.new + length self.old.out.items ≤ steps.old + length self.new.out.items }
    {
        self.byte(tag, steps)?;
        self.number_2(number, steps)?;
        self.values(values, steps)
    }

    /// What stands in a synchronization before its reads and writes.
    fn event<L: Ledger>(
        &mut self,
        kind: SyncKind,
        object: u8,
        number: u32,
        value: i64,
        steps: &mut Steps<L>,
    ) -> Result<(), Memory>
        ensures ok { OnOk result
            (self.new.out.items ≡ self.old.out.items
            ++ (byte_form.bytes 3 ++ (byte_form.bytes (kind_code_of kind) ++ (byte_form.bytes object
            ++ ((number_form w32).bytes number ++ value_form.bytes value))))) }
        ensures cost { steps.new + length self.old.out.items ≤ steps.old + length self.new.out.items }
    {
        self.two_bytes(3, kind_code(kind), steps)?;
        self.byte(object, steps)?;
        self.number_4(number, steps)?;
        self.value(value, steps)
    }

    /// What stands in an end before its reads and writes.
    fn ending<L: Ledger>(
        &mut self,
        status: Status,
        rest: u32,
        steps: &mut Steps<L>,
    ) -> Result<(), Memory>
        ensures ok { OnOk result
            (self.new.out.items ≡ self.old.out.items
            ++ (byte_form.bytes 5 ++ (byte_form.bytes (status_code_of status) ++ (number_form w32).bytes rest))) }
        ensures cost { steps.new + length self.old.out.items ≤ steps.old + length self.new.out.items }
    {
        self.two_bytes(5, status_code(status), steps)?;
        self.number_4(rest, steps)
    }

    /// The reads and the writes.
    fn accesses<L: Ledger>(
        &mut self,
        reads: &[u16],
        writes: &[u16],
        steps: &mut Steps<L>,
    ) -> Result<(), Memory>
        requires reads { length reads.now < 2 ^ 16 }
        requires writes { length writes.now < 2 ^ 16 }
        ensures ok { OnOk result
            ((shared : ℕ) → self.new.out.items ≡ self.old.out.items
            ++ ((cells_form shared).bytes reads.now ++ (cells_form shared).bytes writes.now)) }
        ensures cost { steps.new + length self.old.out.items ≤ steps.old + length self.new.out.items }
    {
        self.cells(reads, steps)?;
        self.cells(writes, steps)
    }

    /// An entry; its bytes are the same whatever the source is.
    pub fn entry<L: Ledger>(&mut self, entry: &Entry, steps: &mut Steps<L>) -> Result<(), Memory>
        requires { IsCounted entry.now }
        ensures ok { OnOk result
            ((f : Facts) → self.new.out.items ≡ self.old.out.items ++ (an_entry f).bytes entry.now) }
        ensures cost { steps.new + length self.old.out.items ≤ steps.old + length self.new.out.items }
    {
        match entry {
            Entry::Prelog { block, values } => self.numbered(1, *block, values.as_slice(), steps),
            Entry::Unit { unit, values } => self.numbered(2, *unit, values.as_slice(), steps),
            Entry::Sync {
                kind,
                object,
                number,
                value,
                reads,
                writes,
            } => {
                self.event(*kind, *object, *number, *value, steps)?;
                self.accesses(reads.as_slice(), writes.as_slice(), steps)
            }
            Entry::Postlog { block, values } => self.numbered(4, *block, values.as_slice(), steps),
            Entry::End {
                status,
                rest,
                reads,
                writes,
            } => {
                self.ending(*status, *rest, steps)?;
                self.accesses(reads.as_slice(), writes.as_slice(), steps)
            }
        }
    }

    /// The log of a process, with the count of its entries before them.
    pub fn log<L: Ledger>(&mut self, entries: &[Entry], steps: &mut Steps<L>) -> Result<(), Memory>
        requires { IsCountedLog entries.now }
        ensures ok { OnOk result
            ((f : Facts) → self.new.out.items ≡ self.old.out.items ++ (log_form f).bytes entries.now) }
        ensures cost { steps.new + length self.old.out.items ≤ steps.old + length self.new.out.items }
    {
        self.number_4(entries.len() as u32, steps)?;
        for entry in entries {
            self.entry(entry, steps)?;
        }
        Ok(())
    }

    /// The logs of all processes, with their count before them.
    pub fn logs<L: Ledger>(
        &mut self,
        logs: &[Seq<Entry>],
        steps: &mut Steps<L>,
    ) -> Result<(), Memory>
        requires few { length logs.now < 2 ^ 8 }
        requires each { All IsCountedLog logs.now }
        ensures ok { OnOk result
            ((f : Facts) → self.new.out.items ≡ self.old.out.items ++ (logs_form f).bytes logs.now) }
        ensures cost { steps.new + length self.old.out.items ≤ steps.old + length self.new.out.items }
    {
        self.byte(logs.len() as u8, steps)?;
        for log in logs {
            self.log(log.as_slice(), steps)?;
        }
        Ok(())
    }
}
