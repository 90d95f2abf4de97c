//! The core form of a tree, or the first rule that its source breaks: of its names, its statements and its bodies.
#![tactic(auto)]

mod bodies;
mod checking;
mod endings;
mod error;
mod laws;
mod parsed;
mod places;
mod returns;
mod source;

pub use checking::{check, check_in};
pub use error::{CheckError, SourceError};
pub use laws::one_answer;
pub use ppd_check_names::Limit;
pub use source::read_source;
