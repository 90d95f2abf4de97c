ghost use Rattle.std.specs.Prelude.{◌≢◌, ◌+◌, ◌≤◌, length, IfErr, IfOk};
ghost use Rattle.ppd_ast.specs.declared.limits.TheConstants.{MOST_BUDGET};
ghost use Rattle.ppd_ast.specs.ValidPlan.{IsValidPolicy};
ghost use Rattle.ppd_codec.specs.Came.{Came, Refuses};
ghost use Rattle.ppd_codec.specs.Format.{front as front_form, source as source_form};
ghost use Rattle.ppd_codec.specs.Recordings.{front_of};

use crate::bad::{BadBytes, Field};
use crate::cursor::Cursor;
use crate::recording::Header;
use ppd_ast::{Policy, Steps};
use std::sync::ledger::Ledger;

/// What stands before the logs: the version, the header and the source's bytes.
#[derive(Clone, Copy)]
pub(crate) struct Front<'a> {
    pub version: u8,
    pub header: Header,
    pub source: &'a [u8],
}

impl<'a> Cursor<'a> {
    // The source's bytes, one field after their count.
    fn source<L: Ledger>(&mut self, steps: &mut Steps<L>) -> Result<&'a [u8], BadBytes>
        ensures ok { IfOk result
            (λ s. Came source_form.read self.old.at self.old.rest.now self.new.at self.new.rest.now s.now) }
        ensures err { IfErr result (Refuses source_form.read self.old.at self.old.rest.now) }
        ensures early { IfErr result (λ e. e ≢ BadBytes.Memory) }
        ensures within { self.new.at + length self.new.rest.now ≤ self.old.at + length self.old.rest.now }
        ensures cost { steps.new + length self.new.rest.now ≤ steps.old + length self.old.rest.now }
    {
        let count = self.source_length(steps)?;
        self.block(count)
    }

    /// All that stands before the logs.
    pub fn front<L: Ledger>(&mut self, steps: &mut Steps<L>) -> Result<Front<'a>, BadBytes>
        ensures ok { IfOk result
            (λ f. Came front_form.read self.old.at self.old.rest.now self.new.at self.new.rest.now
            (front_of f.version f.header f.source.now)) }
        ensures policy { IfOk result (λ f. IsValidPolicy f.header.policy) }
        ensures budget { IfOk result (λ f. f.header.budget ≤ MOST_BUDGET) }
        ensures err { IfErr result (Refuses front_form.read self.old.at self.old.rest.now) }
        ensures early { IfErr result (λ e. e ≢ BadBytes.Memory) }
        ensures within { self.new.at + length self.new.rest.now ≤ self.old.at + length self.old.rest.now }
        ensures cost { steps.new + length self.new.rest.now ≤ steps.old + length self.old.rest.now }
    {
        self.magic(steps)?;
        let version = self.version(steps)?;
        let budget = self.budget(steps)?;
        let leaf = self.policy_number(Field::Leaf, steps)?;
        let loops = self.policy_number(Field::Loops, steps)?;
        let source = self.source(steps)?;
        let policy = Policy { leaf, loops };
        Ok(Front {
            version,
            header: Header { policy, budget },
            source,
        })
    }
}
