//! Which tables and plans that no source gives are valid: tests of the definitions of validity, by the calls that
//! answer just what these say.
#![tactic(auto)]

#[cfg(test)]
mod changes;
#[cfg(test)]
mod limits;
#[cfg(test)]
mod plans;
