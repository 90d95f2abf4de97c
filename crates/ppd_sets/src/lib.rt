//! What is told of a body without running it: its flow graph, with the successors of its statements and what they lead to;
//! and the shared variables that it may read and write, and the local cells that a loop may, as sets of cells.
#![tactic(auto)]

mod bodies;
mod cell_set;
mod cells;
mod flow_laws;
mod follow;
mod graph;
mod laws;
mod loops;
mod rows;
mod touched;
mod var_sets;
mod walk;

pub use bodies::{calls, end_of};
pub use cell_set::CellSet;
pub use cells::{add_cell, add_reads, add_shared_reads, add_writes};
pub use flow_laws::{flow_paths_are_chains, follows_its_list};
pub use graph::{Cfg, flow_graph, next_after, successors_of};
pub use laws::{
    defined_by_chains, loop_defined_by_statements, loop_used_by_statements, used_by_chains,
};
pub use rows::{does_meet, vars_in};
pub use var_sets::{VarSets, sets};
pub use walk::{reach, reached};
