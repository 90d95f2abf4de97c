//! What the fields of a recording may hold: codes of tags, kinds and statuses, values by their kind, cells that rise.
#![tactic(auto)]

mod fields;
mod tag;

pub use fields::{fits_kind, is_next, kind_at, status_at, tag_at};
pub use tag::Tag;
