// How many bytes are loaded of a file.
use ppd_ast::limits::{MOST_RECORDING_BYTES, MOST_SOURCE_BYTES};

/// One byte more than the longest source, so that a longer one is seen.
pub(crate) const MOST_BYTES: usize = MOST_SOURCE_BYTES + 1;

/// One byte more than the longest recording.
pub(crate) const MOST_RECORDING: usize = MOST_RECORDING_BYTES + 1;
