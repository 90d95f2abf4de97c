ghost use Rattle.std.specs.Prelude.{◌≡◌, [], IfOk, IfSome};
ghost use Rattle.ppd_world.specs.Running.{IsOf, IsReached};

use crate::commit::Commit;
use crate::going::Going;
use crate::job::Job;
use crate::kept::Kept;
use crate::turn::{Ran, Turn};
use crate::view::View;
use ppd_ast::Memory;
use ppd_world::World;
use std::alloc::Global;
use std::sync::{Mutex, Wait};

/// A world with its schedule, under a lock.
pub struct Book<'a, J: Job> {
    kept: Mutex<Kept<'a, J>>,
}

impl<'a, J: Job> Book<'a, J> {
    ghost use Rattle.ppd_book.specs.Gone.{IsOfWorker};
    ghost use Rattle.ppd_book.specs.Turns.{IsOfProcess, KeepsBudget, RanToEnd};
    ghost use Rattle.ppd_book.specs.Views.{IsFresh};

    /// A world before its first step, under a lock that is free. Its program, plan and budget are those
    /// that `J` names.
    pub fn new(alloc: Global, world: World<'a>) -> Book<'a, J>
        requires setting { world.setting ≡ J.setting }
        requires first { IsOf [] world }
        requires reached { IsReached world }
    {
        Book {
            kept: Mutex::new(Kept::new(alloc, world)),
        }
    }

    /// One turn of this worker, under the lock: `Kept::turn`. `Memory` is want of memory.
    pub fn turn<R: Wait>(&self, rt: &R, worker: u8) -> Result<Turn, Memory>
        ensures { IfOk result (IsOfProcess J.setting.program) }
    {
        self.kept.lock(rt).turn(worker)
    }

    /// The process of this worker on a copy, where its next step needs nothing but the process itself, under
    /// the lock: `Kept::view`. `Memory` is want of memory.
    pub fn view<R: Wait>(&self, rt: &R, worker: u8) -> Result<Option<View<'a, J>>, Memory>
        ensures { IfOk result (λ seen. IfSome seen (IsFresh worker)) }
    {
        self.kept.lock(rt).view(worker)
    }

    /// A view of this worker's process where there is one, else its turn, under one hold of the lock: `Kept::go`.
    /// `Memory` is want of memory.
    pub fn go<R: Wait>(&self, rt: &R, worker: u8) -> Result<Going<'a, J>, Memory>
        ensures { IfOk result (IsOfWorker J.setting.program worker) }
    {
        self.kept.lock(rt).go(worker)
    }

    /// Takes the steps of a view where its process is still in the state that was copied, under the lock:
    /// `Kept::commit`. `Memory` is want of memory: the view is gone, and the book as before.
    pub fn commit<R: Wait>(&self, rt: &R, view: View<'a, J>) -> Result<Commit, Memory> {
        self.kept.lock(rt).commit(view)
    }

    /// Takes the turns that are left, lowest process first, and hands out the schedule with its closed
    /// state: `Kept::close`. `Memory` is want of memory: the book is gone.
    pub fn close(self) -> Result<Ran, Memory>
        ensures end { IfOk result (RanToEnd J.setting) }
        ensures bounded { IfOk result (λ ran. KeepsBudget J.setting.program J.setting.budget ran.schedule) }
    {
        let Book { kept } = self;
        kept.into_inner().close()
    }
}
