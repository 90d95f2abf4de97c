ghost use Rattle.std.specs.Int.{w16, w32};
ghost use Rattle.std.specs.Prelude.{◌≡◌, ◌+◌, ◌<◌, ◌≤◌, ◌++◌, [], length, OnOk};
ghost use Rattle.ppd_codec.specs.Form.{byte as byte_form, value as value_form, number as number_form};

use ppd_ast::{Memory, Steps};
use std::alloc::Global;
use std::sync::ledger::Ledger;

/// The bytes of a recording so far.
#[derive(Drop)]
pub struct Writer {
    pub out: Vec<u8>,
}

impl Writer {
    /// No byte.
    pub fn new(alloc: Global) -> Writer
        ensures { result.out.items ≡ [] }
    {
        Writer {
            out: Vec::new(alloc),
        }
    }

    // These bytes, in one step where they are some.
    fn put<L: Ledger>(&mut self, bytes: &[u8], steps: &mut Steps<L>) -> Result<(), Memory>
        requires { 1 ≤ length bytes.now }
        ensures ok { OnOk result (self.new.out.items ≡ self.old.out.items ++ bytes.now) }
        ensures cost { steps.new + length self.old.out.items ≤ steps.old + length self.new.out.items }
    {
        self.out.extend_from_slice(bytes)?;
        steps.tick();
        Ok(())
    }

    pub fn byte<L: Ledger>(&mut self, byte: u8, steps: &mut Steps<L>) -> Result<(), Memory>
        ensures ok { OnOk result (self.new.out.items ≡ self.old.out.items ++ byte_form.bytes byte) }
        ensures cost { steps.new + length self.old.out.items ≤ steps.old + length self.new.out.items }
    {
        self.put(&[byte], steps)
    }

    pub fn number_2<L: Ledger>(&mut self, number: u16, steps: &mut Steps<L>) -> Result<(), Memory>
        ensures ok { OnOk result (self.new.out.items ≡ self.old.out.items ++ (number_form w16).bytes number) }
        ensures cost { steps.new + length self.old.out.items ≤ steps.old + length self.new.out.items }
    {
        self.put(&number.to_be_bytes(), steps)
    }

    pub fn number_4<L: Ledger>(&mut self, number: u32, steps: &mut Steps<L>) -> Result<(), Memory>
        ensures ok { OnOk result (self.new.out.items ≡ self.old.out.items ++ (number_form w32).bytes number) }
        ensures cost { steps.new + length self.old.out.items ≤ steps.old + length self.new.out.items }
    {
        self.put(&number.to_be_bytes(), steps)
    }

    pub fn value<L: Ledger>(&mut self, value: i64, steps: &mut Steps<L>) -> Result<(), Memory>
        ensures ok { OnOk result (self.new.out.items ≡ self.old.out.items ++ value_form.bytes value) }
        ensures cost { steps.new + length self.old.out.items ≤ steps.old + length self.new.out.items }
    {
        self.put(&value.to_be_bytes(), steps)
    }
}
