ghost use Rattle.std.specs.Prelude.{◌≡◌, ◌↔◌, ◌<◌, ◌≤◌, ◌^◌, ℕ, [], ◌∷◌, length, replicate, false, reverse, IsTrue, IfOk, OnOk, MatchOption};
ghost use Rattle.ppd_ast.specs.Members.{those, AreBelow};
ghost use Rattle.ppd_sets.specs.WorkList.{work, with_mark, with_marks, is_marked, AreRowsBelow};
ghost use Rattle.ppd_sets.specs.Reach.{Reached, closure, leads};

use ppd_ast::{Ids, Memory};
use std::alloc::Global;
use std::marker::Model;

// What is marked, and what is marked and still to be gone on from, the next one last.
#[derive(Drop)]
struct Work {
    marks: Vec<bool>,
    todo: Vec<u32>,
}

impl Model for Work {
    ghost use Rattle.std.specs.Prelude.{reverse};
    ghost use Rattle.ppd_sets.specs.WorkList.{WorkList, work};

    ghost Value = { WorkList };

    ghost view = { λ s. work s.marks.items (reverse s.todo.items) };
}

fn clear_marks(alloc: Global, count: usize) -> Result<Vec<bool>, Memory>
    ensures { IfOk result (λ marks. marks.items ≡ replicate count false) }
{
    Ok(vec![in alloc; false; count]?)
}

impl Work {
    fn new(alloc: Global, count: usize) -> Result<Work, Memory>
        ensures { IfOk result (λ w. w ≡ work (replicate count false) []) }
    {
        let marks = clear_marks(alloc, count)?;
        Ok(Work {
            marks,
            todo: Vec::new(alloc),
        })
    }

    fn mark(&mut self, x: u32) -> Result<(), Memory>
        requires { x < length self.old.marks }
        ensures { OnOk result (self.new ≡ with_mark x self.old) }
    {
        let index = x as usize;
        if self.marks[index] {
            return Ok(());
        }
        self.todo.push(x)?;
        self.marks[index] = true;
        Ok(())
    }

    fn mark_all(&mut self, xs: &[u32]) -> Result<(), Memory>
        requires { AreBelow (length self.old.marks) xs.now }
        ensures { OnOk result (self.new ≡ with_marks xs.now self.old) }
    {
        for x in xs {
            self.mark(*x)?;
        }
        Ok(())
    }

    fn pop(&mut self) -> Option<u32>
        ensures { MatchOption result (self.old.todo ≡ [] × self.new ≡ self.old)
            (λ x. self.old ≡ work self.new.marks (x ∷ self.new.todo)) }
    {
        self.todo.pop()
    }
}

/// A mark for each row: whether the starts lead to its number along the rows of successors. Each
/// number is gone on from once. `Memory` is want of memory.
pub fn reach(alloc: Global, next: &[Ids], starts: &[u32]) -> Result<Vec<bool>, Memory>
    requires rows { AreRowsBelow next.now }
    requires starts { AreBelow (length next.now) starts.now }
    ensures long { IfOk result (λ marks. length marks.items ≡ length next.now) }
    ensures reached { IfOk result
        (λ marks. (x : ℕ) → IsTrue (is_marked marks.items x) ↔ Reached next.now starts.now x) }
{
    let mut work = Work::new(alloc, next.len())?;
    work.mark_all(starts)?;
    while let Some(x) = work.pop() {
        work.mark_all(next[x as usize].as_slice())?;
    }
    Ok(work.marks)
}

// The numbers that are marked, rising.
fn marked(alloc: Global, marks: &[bool]) -> Result<Ids, Memory>
    requires { length marks.now ≤ 2 ^ 32 }
    ensures { IfOk result (λ ids. ids ≡ those (length marks.now) (is_marked marks.now)) }
{
    let mut ids = Ids::new(alloc);
    for (index, is_marked) in marks.iter().enumerate() {
        if *is_marked {
            ids.push(index as u32)?;
        }
    }
    Ok(ids)
}

/// What the starts lead to along the rows of successors, rising, each once. `Memory` is want of
/// memory.
pub fn reached(alloc: Global, next: &[Ids], starts: &[u32]) -> Result<Ids, Memory>
    requires rows { AreRowsBelow next.now }
    requires starts { AreBelow (length next.now) starts.now }
    requires count { length next.now ≤ 2 ^ 32 }
    ensures { IfOk result (λ ids. ids ≡ those (length next.now) (leads (closure next.now) starts.now)) }
{
    let marks = reach(alloc, next, starts)?;
    let ids = marked(alloc, marks.as_slice())?;
    Ok(ids)
}
