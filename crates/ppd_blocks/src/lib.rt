//! The synchronization units of a program, each with the shared cells that it may read; its e-blocks under a policy,
//! and its plan.
#![tactic(auto)]

mod bare;
mod blocks;
mod cells;
mod laws;
mod numbered;
mod numbering;
mod plan;
mod ways;

pub use bare::bare_plan;
pub use laws::{cells_are_shared, cells_by_paths};
pub use numbered::{is_block_body, is_block_loop};
pub use numbering::units;
pub use plan::partition;
