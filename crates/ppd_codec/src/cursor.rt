ghost use Rattle.std.specs.Prelude.{◌≡◌, ◌≢◌, ◌+◌, ◌<◌, ◌≤◌, ◌^◌, length, nat_eq, IfErr, IfOk, FitsSigned};
ghost use Rattle.std.specs.Int.{w64, w16, w32};
ghost use Rattle.ppd_codec.specs.Form.{byte as byte_form, value as value_form, number as number_form};
ghost use Rattle.ppd_codec.specs.Reader.{field};

use crate::bad::BadBytes;
use ppd_ast::Steps;
use std::sync::ledger::Ledger;

/// Where reading stands: the offset and the bytes from there on.
#[derive(Drop)]
pub(crate) struct Cursor<'a> {
    rest: &'a [u8],
    at: u32,
    // The offset after the last byte fits too, so that no advance overflows.
    ghost fits: { at + length rest.now < 2 ^ 32 },
}

impl<'a> Cursor<'a> {
    ghost use Rattle.ppd_codec.specs.Came.{AnswersAs, Came, Refuses};

    /// At the first of these bytes.
    pub fn new(bytes: &'a [u8]) -> Self
        requires { length bytes.now < 2 ^ 32 }
        ensures at { result.at ≡ 0 }
        ensures rest { result.rest.now ≡ bytes.now }
    {
        Cursor { rest: bytes, at: 0 }
    }

    /// The offset of the next field.
    pub fn offset(&self) -> u32
        ensures { result ≡ self.now.at }
    {
        self.at
    }

    /// Whether no byte is left.
    pub fn is_empty(&self) -> bool
        ensures { result ≡ nat_eq (length self.now.rest.now) 0 }
    {
        self.rest.is_empty()
    }

    // The next `N` bytes, in one step where they are there.
    fn take<const N: usize, L: Ledger>(&mut self, steps: &mut Steps<L>) -> Result<[u8; N], BadBytes>
        requires { 1 ≤ N }
        ensures ok { IfOk result
            (λ bytes. Came (field N (λ bs. bs)) self.old.at self.old.rest.now self.new.at self.new.rest.now bytes) }
        ensures err { IfErr result (Refuses (field N (λ bs. bs)) self.old.at self.old.rest.now) }
        ensures early { IfErr result (λ e. e ≢ BadBytes.Memory) }
        ensures within { self.new.at + length self.new.rest.now ≤ self.old.at + length self.old.rest.now }
        ensures cost { steps.new + length self.new.rest.now ≤ steps.old + length self.old.rest.now }
    {
        match self.rest.split_first_chunk::<N>() {
            Some((bytes, rest)) => {
                steps.tick();
                self.rest = rest;
                self.at += N as u32;
                Ok(*bytes)
            }
            None => Err(BadBytes::Short(self.at)),
        }
    }

    /// The next `count` bytes, one field. It takes no step, since their count took one.
    pub fn block(&mut self, count: u32) -> Result<&'a [u8], BadBytes>
        ensures ok { IfOk result
            (λ bytes. Came (field count (λ bs. bs)) self.old.at self.old.rest.now
            self.new.at self.new.rest.now bytes.now) }
        ensures err { IfErr result (Refuses (field count (λ bs. bs)) self.old.at self.old.rest.now) }
        ensures early { IfErr result (λ e. e ≢ BadBytes.Memory) }
        ensures within { self.new.at + length self.new.rest.now ≤ self.old.at + length self.old.rest.now }
        ensures shorter { length self.new.rest.now ≤ length self.old.rest.now }
    {
        if count as usize > self.rest.len() {
            return Err(BadBytes::Short(self.at));
        }
        let (bytes, rest) = self.rest.split_at(count as usize);
        self.rest = rest;
        self.at += count;
        Ok(bytes)
    }

    pub fn byte<L: Ledger>(&mut self, steps: &mut Steps<L>) -> Result<u8, BadBytes>
        ensures read { AnswersAs byte_form.read self.old self.new steps.old steps.new result }
        ensures early { IfErr result (λ e. e ≢ BadBytes.Memory) }
    {
        let bytes = self.take::<1, L>(steps)?;
        Ok(bytes[0])
    }

    pub fn number_2<L: Ledger>(&mut self, steps: &mut Steps<L>) -> Result<u16, BadBytes>
        ensures read { AnswersAs (number_form w16).read self.old self.new steps.old steps.new result }
        ensures early { IfErr result (λ e. e ≢ BadBytes.Memory) }
    {
        let bytes = self.take::<2, L>(steps)?;
        Ok(u16::from_be_bytes(bytes))
    }

    pub fn number_4<L: Ledger>(&mut self, steps: &mut Steps<L>) -> Result<u32, BadBytes>
        ensures read { AnswersAs (number_form w32).read self.old self.new steps.old steps.new result }
        ensures early { IfErr result (λ e. e ≢ BadBytes.Memory) }
    {
        let bytes = self.take::<4, L>(steps)?;
        Ok(u32::from_be_bytes(bytes))
    }

    pub fn value<L: Ledger>(&mut self, steps: &mut Steps<L>) -> Result<i64, BadBytes>
        ensures read { AnswersAs value_form.read self.old self.new steps.old steps.new result }
        ensures fits { IfOk result (FitsSigned w64) }
    {
        let bytes = self.take::<8, L>(steps)?;
        Ok(i64::from_be_bytes(bytes))
    }
}
