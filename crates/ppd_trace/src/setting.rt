ghost use Rattle.std.specs.Prelude.{◌≡◌, ◌≤◌};
ghost use Rattle.ppd_ast.specs.Valid.{IsValid};
ghost use Rattle.ppd_ast.specs.ValidPlan.{IsValidPlan};

use ppd_ast::limits::MOST_BUDGET;
use ppd_ast::{Plan, Program};
use std::alloc::Global;
use std::marker::Model;

/// What a schedule is of: a valid program, a valid plan of it and the budget of each process, at most 500,000; with
/// where its story and its trace take memory.
#[derive(Drop)]
pub struct Setting<'a> {
    pub(crate) alloc: Global,
    pub(crate) program: &'a Program,
    pub(crate) plan: &'a Plan,
    pub(crate) budget: u32,
}

impl<'a> Model for Setting<'a> {
    ghost use Rattle.ppd_trace.specs.Settings.{IsValidSetting};
    ghost use Rattle.ppd_model.specs.Setting.{Setting};

    ghost Value = { Setting };

    ghost view = { λ s. record { program = s.program.now; plan = s.plan.now; budget = s.budget } };

    ghost invariant = { λ s. IsValidSetting
        (record { program = s.program.now; plan = s.plan.now; budget = s.budget }) };
}

impl<'a> Setting<'a> {
    /// The setting of a valid program with a valid plan and a budget of at most 500,000.
    pub fn new(alloc: Global, program: &'a Program, plan: &'a Plan, budget: u32) -> Setting<'a>
        requires program { IsValid program.now }
        requires plan { IsValidPlan program.now plan.now }
        requires budget { budget ≤ MOST_BUDGET }
        ensures { result ≡ record { program = program.now; plan = plan.now; budget = budget } }
    {
        Setting {
            alloc,
            program,
            plan,
            budget,
        }
    }
}
