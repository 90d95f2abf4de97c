ghost use Rattle.std.specs.Prelude.{◌≡◌, ◌↔◌, IsTrue, OnErr, OnOk};

use crate::job::Job;
use ppd_ast::{Memory, Plan, Program};
use ppd_sem::{Answer, Need, Proc, look, meet};
use std::marker::{Model, PhantomData};

/// Steps that a view goes on by, at most.
pub const MOST_VIEW_STEPS: u32 = 64;

/// A process of the run that `J` names, on a copy: its worker's number, its state when the view was made, the
/// state that it came to since by steps that need nothing but the process itself, what it needs there, and how many
/// steps these were.
#[derive(Drop)]
pub struct View<'a, J: Job> {
    pub(crate) program: &'a Program,
    pub(crate) plan: &'a Plan,
    pub(crate) worker: u8,
    pub(crate) before: Proc,
    pub(crate) after: Proc,
    pub(crate) need: Need,
    pub(crate) count: u32,
    pub(crate) of: PhantomData<J>,
}

impl<'a, J: Job> Model for View<'a, J> {
    ghost use Rattle.ppd_book.specs.Views.{IsView, Seen};

    ghost Value = { Seen };

    ghost view = { λ v. record { worker = v.worker; before = v.before; after = v.after; count = v.count } };

    ghost invariant = { λ v. IsView J.setting v.program.now v.plan.now v.need
        (record { worker = v.worker; before = v.before; after = v.after; count = v.count }) };
}

impl<'a, J: Job> View<'a, J> {
    ghost use Rattle.ppd_book.specs.Views.{HasMore, advanced};

    /// Whether the view can go on: its next step needs nothing but the process itself, and it took fewer
    /// than `MOST_VIEW_STEPS`.
    pub fn more(&self) -> bool
        ensures { IsTrue result ↔ HasMore J.setting.program J.setting.plan self.now }
    {
        self.count < MOST_VIEW_STEPS && matches!(self.need, Need::Plain)
    }

    /// Takes one step on the copy. `Memory` is want of memory: the view is as before.
    pub fn advance(&mut self) -> Result<(), Memory>
        requires { HasMore J.setting.program J.setting.plan self.old }
        ensures ok { OnOk result (self.new ≡ advanced J.setting.program J.setting.plan self.old) }
        ensures err { OnErr result (self.new ≡ self.old) }
    {
        meet(
            self.program,
            self.plan,
            &mut self.after,
            self.need,
            &Answer::Go,
        )?;
        self.need = look(self.program, self.plan, &self.after);
        self.count += 1;
        Ok(())
    }
}
