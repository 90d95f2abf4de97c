ghost use Rattle.ppd_codec.specs.Came.{AnswersAs};
ghost use Rattle.ppd_codec.specs.Format.{numbered as numbered_form, an_entry, log as log_form, logs as logs_form, row};

use crate::bad::BadBytes;
use crate::cursor::Cursor;
use crate::facts::Facts;
use crate::lists::push;
use ppd_ast::{Seq, Steps};
use ppd_codec_fields::Tag;
use ppd_model::{BoxedNums, Entry};
use std::alloc::Global;
use std::sync::ledger::Ledger;

impl<'a> Cursor<'a> {
    /// The number of a block or a unit, and its values.
    pub fn numbered<L: Ledger>(
        &mut self,
        alloc: Global,
        steps: &mut Steps<L>,
    ) -> Result<(u16, BoxedNums), BadBytes>
        ensures { AnswersAs numbered_form.read self.old self.new steps.old steps.new result }
    {
        let number = self.number_2(steps)?;
        let values = self.boxed_values(alloc, steps)?;
        Ok((number, values))
    }

    /// A synchronization, after its tag.
    pub fn sync<L: Ledger>(
        &mut self,
        alloc: Global,
        facts: Facts,
        steps: &mut Steps<L>,
    ) -> Result<Entry, BadBytes>
        ensures { AnswersAs (row facts Tag.Sync).read self.old self.new steps.old steps.new result }
    {
        let kind = self.sync_kind(facts.version, steps)?;
        let object = self.byte(steps)?;
        let number = self.sync_number(steps)?;
        let value = self.sync_value(kind, steps)?;
        let reads = self.boxed_cells(alloc, facts.shared, steps)?;
        let writes = self.boxed_cells(alloc, facts.shared, steps)?;
        Ok(Entry::Sync {
            kind,
            object,
            number,
            value,
            reads,
            writes,
        })
    }

    /// The end of a process, after its tag.
    pub fn end<L: Ledger>(
        &mut self,
        alloc: Global,
        facts: Facts,
        steps: &mut Steps<L>,
    ) -> Result<Entry, BadBytes>
        ensures { AnswersAs (row facts Tag.End).read self.old self.new steps.old steps.new result }
    {
        let status = self.status(steps)?;
        let rest = self.number_4(steps)?;
        let reads = self.boxed_cells(alloc, facts.shared, steps)?;
        let writes = self.boxed_cells(alloc, facts.shared, steps)?;
        Ok(Entry::End {
            status,
            rest,
            reads,
            writes,
        })
    }

    /// What stands after this tag.
    pub fn row<L: Ledger>(
        &mut self,
        alloc: Global,
        facts: Facts,
        tag: Tag,
        steps: &mut Steps<L>,
    ) -> Result<Entry, BadBytes>
        ensures { AnswersAs (row facts tag).read self.old self.new steps.old steps.new result }
    {
        match tag {
            Tag::Prelog => {
                let (block, values) = self.numbered(alloc, steps)?;
                Ok(Entry::Prelog { block, values })
            }
            Tag::Unit => {
                let (unit, values) = self.numbered(alloc, steps)?;
                Ok(Entry::Unit { unit, values })
            }
            Tag::Sync => self.sync(alloc, facts, steps),
            Tag::Postlog => {
                let (block, values) = self.numbered(alloc, steps)?;
                Ok(Entry::Postlog { block, values })
            }
            Tag::End => self.end(alloc, facts, steps),
        }
    }

    /// An entry.
    pub fn entry<L: Ledger>(
        &mut self,
        alloc: Global,
        facts: Facts,
        steps: &mut Steps<L>,
    ) -> Result<Entry, BadBytes>
        ensures { AnswersAs (an_entry facts).read self.old self.new steps.old steps.new result }
    {
        let tag = self.tag(steps)?;
        self.row(alloc, facts, tag, steps)
    }

    /// The log of a process, with the count of its entries before them. No memory is taken by the count.
    pub fn log<L: Ledger>(
        &mut self,
        alloc: Global,
        facts: Facts,
        steps: &mut Steps<L>,
    ) -> Result<Seq<Entry>, BadBytes>
        ensures { AnswersAs (log_form facts).read self.old self.new steps.old steps.new result }
    {
        let mut left = self.number_4(steps)?;
        let mut found = Seq::new(alloc);
        while left > 0 {
            let item = self.entry(alloc, facts, steps)?;
            push(&mut found, item)?;
            left -= 1;
        }
        Ok(found)
    }

    /// The logs of all processes, with their count before them.
    pub fn logs<L: Ledger>(
        &mut self,
        alloc: Global,
        facts: Facts,
        steps: &mut Steps<L>,
    ) -> Result<Seq<Seq<Entry>>, BadBytes>
        ensures { AnswersAs (logs_form facts).read self.old self.new steps.old steps.new result }
    {
        let mut left = self.process_count(facts, steps)?;
        let mut found = Seq::new(alloc);
        while left > 0 {
            let item = self.log(alloc, facts, steps)?;
            push(&mut found, item)?;
            left -= 1;
        }
        Ok(found)
    }
}
