//! Bytes and lines in and out, and the words of a command: tests.
#![tactic(auto)]

#[cfg(test)]
mod io_tests;
#[cfg(test)]
mod line_tests;
#[cfg(test)]
mod word_tests;
