//! What leads to a synchronization: the kind and the number of another one of its object.
#![tactic(auto)]

mod leading;

pub use leading::wanted;
