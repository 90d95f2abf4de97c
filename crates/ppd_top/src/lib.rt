//! The top call: from the words of a command and the bytes of files and of the input to what is written and stored, and
//! to the status; with what is asked of a recording without an input: the question, and its answer as a text.
#![tactic(auto)]

mod answering;
mod answers;
mod call;
mod cleans;
mod drilling;
mod kept;
mod laws;
mod loads;
mod query_laws;
mod querying;
mod reruns;
mod slices;
mod verdict_text;
mod wholes;

pub use call::ppd;
pub use law_headline::runs_have_the_headline;
pub use laws::calls_tell_of_runs;
pub use ppd_top_drill::generate;
pub use ppd_top_requests::Options;
pub use ppd_top_runs::Outcome;
pub use query_laws::{
    answers_are_determined, answers_are_of_runs, missing_writes_are_told, queries_end,
    slices_are_of_runs,
};
