//! The checked program as a table of core statements and expressions, its plan of
//! e-blocks and synchronization units, and the words in which a process ends.
#![tactic(auto)]

mod digit;
pub mod limits;
mod lists;
mod plan;
mod program;
mod status;
mod steps;

pub use digit::is_digit;
pub use lists::{Bytes, Cells, Ids, Memory, Nums, Seq};
pub use plan::{Block, BlockKind, Plan, Policy, Start, Unit};
pub use program::{Body, Chan, Expr, Kind, Op, Place, Program, Sem, Stmt, Target, Var};
pub use status::{Status, SyncKind, Trap};
pub use steps::Steps;
