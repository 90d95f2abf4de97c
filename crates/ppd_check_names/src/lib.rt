//! What names mean where they stand, and what a source and its bodies declare.
#![tactic(auto)]

mod collecting;
mod fault;
mod fitted;
mod frame;
mod globals;
mod items;
mod level;
mod meaning;
mod nodes;
mod objects;
mod scopes;
mod signatures;
mod writer;

pub use collecting::{globals_of, note_no_process};
pub use fault::{Cause, Fault, Limit, note, note_if, note_unless};
pub use fitted::as_short;
pub use frame::{Frame, Variable, after_cells, bytes_of, declare, hide};
pub use globals::Globals;
pub use items::is_within;
pub use level::{Here, Level, Source};
pub use meaning::{Meaning, Use};
pub use nodes::{
    Label, Number, Operand, child_at, children_of, kind_at, label_at, operand_at, place_at,
    rule_of, size_at, value_at,
};
pub use objects::is_name;
pub use scopes::Scopes;
pub use writer::{Output, Site, Writer, put_stmt};
