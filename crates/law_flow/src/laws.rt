//! Laws of what the other calls give: each is the contract of a function that does nothing.

pub mod control;
pub mod costs;
pub mod edges;
pub mod locals;
pub mod loops;
pub mod missing;
pub mod places;
pub mod whole;
