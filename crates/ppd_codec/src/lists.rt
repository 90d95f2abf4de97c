ghost use Rattle.std.specs.Prelude.{◌≡◌, ◌++◌, ◌∷◌, [], IfErr, IfOk, OnOk};
ghost use Rattle.ppd_codec.specs.Came.{AnswersAs};
ghost use Rattle.ppd_codec.specs.Format.{cells as cells_form, values as values_form};

use crate::bad::BadBytes;
use crate::cursor::Cursor;
use ppd_ast::{Cells, Nums, Seq, Steps};
use ppd_model::{Boxed, BoxedCells, BoxedNums};
use std::alloc::Global;
use std::sync::ledger::Ledger;

impl<'a> Cursor<'a> {
    /// Values, with their count before them.
    pub fn values<L: Ledger>(
        &mut self,
        alloc: Global,
        steps: &mut Steps<L>,
    ) -> Result<Nums, BadBytes>
        ensures { AnswersAs values_form.read self.old self.new steps.old steps.new result }
    {
        let mut left = self.number_2(steps)?;
        let mut found = Nums::new(alloc);
        while left > 0 {
            let item = self.value(steps)?;
            push(&mut found, item)?;
            left -= 1;
        }
        Ok(found)
    }

    /// Rising shared cells, with their count before them.
    pub fn cells<L: Ledger>(
        &mut self,
        alloc: Global,
        shared: u32,
        steps: &mut Steps<L>,
    ) -> Result<Cells, BadBytes>
        ensures { AnswersAs (cells_form shared).read self.old self.new steps.old steps.new result }
    {
        let mut left = self.number_2(steps)?;
        let mut found = Cells::new(alloc);
        let mut low: u32 = 0;
        while left > 0 {
            let cell = self.cell(shared, low, steps)?;
            push(&mut found, cell)?;
            low = u32::from(cell) + 1;
            left -= 1;
        }
        Ok(found)
    }

    /// Values as an entry keeps them, with their count before them.
    pub fn boxed_values<L: Ledger>(
        &mut self,
        alloc: Global,
        steps: &mut Steps<L>,
    ) -> Result<BoxedNums, BadBytes>
        ensures { AnswersAs values_form.read self.old self.new steps.old steps.new result }
    {
        let found = self.values(alloc, steps)?;
        let values = boxed(alloc, found)?;
        Ok(values)
    }

    /// Rising shared cells as an entry keeps them, with their count before them.
    pub fn boxed_cells<L: Ledger>(
        &mut self,
        alloc: Global,
        shared: u32,
        steps: &mut Steps<L>,
    ) -> Result<BoxedCells, BadBytes>
        ensures { AnswersAs (cells_form shared).read self.old self.new steps.old steps.new result }
    {
        let found = self.cells(alloc, shared, steps)?;
        let cells = boxed(alloc, found)?;
        Ok(cells)
    }
}

/// The list behind one word; the error is want of memory.
fn boxed<T: Drop>(alloc: Global, items: Seq<T>) -> Result<Boxed<T>, BadBytes>
    ensures ok { IfOk result (λ list. list ≡ items) }
    ensures err { IfErr result (λ e. e ≡ BadBytes.Memory) }
{
    Ok(Boxed::from_seq(alloc, items)?)
}

/// Appends the item; the error is want of memory.
pub(crate) fn push<T: Drop>(items: &mut Seq<T>, item: T) -> Result<(), BadBytes>
    ensures ok { OnOk result (items.new ≡ items.old ++ item ∷ []) }
    ensures err { IfErr result (λ e. e ≡ BadBytes.Memory) }
{
    items.push(item)?;
    Ok(())
}
