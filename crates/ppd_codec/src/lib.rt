//! Recordings as bytes: one spelling for each, and each damaged byte named.
#![tactic(auto)]

mod bad;
mod cursor;
mod decoding;
mod encoding;
mod entries;
mod facts;
mod fields;
mod front;
mod laws;
mod lists;
mod recording;
mod writer;
mod written;

pub use bad::{BadBytes, Field};
pub use decoding::{decode, decode_in};
pub use encoding::{encode, encode_in};
pub use laws::{decode_encoded, one_recording};
pub use recording::{Header, Recording};
