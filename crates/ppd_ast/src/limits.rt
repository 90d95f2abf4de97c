//! The limits of sources, programs, plans, runs, recordings and commands.

/// Bytes of a source, at most.
pub const MOST_SOURCE_BYTES: usize = 262_144;
/// Constructs of a source that are open at one token, at most.
pub const MOST_OPEN: u8 = 64;
/// Operators of a source's expression, at most.
pub const MOST_SOURCE_OPERATORS: u16 = 256;

/// Core statements of a program, at most.
pub const MOST_STATEMENTS: usize = 4096;
/// Functions of a program, at most.
pub const MOST_FUNCTIONS: usize = 256;
/// Processes of a program, at most; at least there is one.
pub const MOST_PROCESSES: usize = 16;
/// Cells of a body's frame, at most.
pub const MOST_LOCAL_CELLS: usize = 256;
/// Shared cells of a program, at most.
pub const MOST_SHARED_CELLS: usize = 1024;
/// Semaphores of a program, at most.
pub const MOST_SEMAPHORES: usize = 64;
/// Channels of a program, at most.
pub const MOST_CHANNELS: usize = 64;
/// Bytes of a name, at most.
pub const MOST_NAME_BYTES: usize = 64;
/// The greatest initial value of a semaphore.
pub const MOST_START: u32 = 65_535;
/// The smallest capacity of a channel.
pub const LEAST_CAPACITY: u8 = 0;
/// The greatest capacity of a channel.
pub const MOST_CAPACITY: u8 = 64;
/// Statements that stand in one another, at most; one in a top list is the first.
pub const MOST_NESTING: u32 = 64;
/// Operators of an expression, at most: two expressions of a source with the operator that joins them.
pub const MOST_OPERATORS: u32 = 2 * MOST_SOURCE_OPERATORS as u32 + 1;
/// Nodes from an expression's root to a leaf, both counted, at most.
pub const MOST_EXPRESSION_DEPTH: u32 = 1024;
/// The greatest number of a policy.
pub const MOST_POLICY: u16 = 4096;
/// The greatest budget of a process, in steps and logged values.
pub const MOST_BUDGET: u32 = 500_000;
/// The budget of a process where none is given.
pub const DEFAULT_BUDGET: u32 = 100_000;
/// Calls of a process that have not returned, at most.
pub const MOST_CALLS: usize = 64;
/// How many processes, semaphores or channels an entry can name: their numbers have 8 bits.
pub const MOST_NAMED: usize = 256;
/// Bytes of a recording, at most.
pub const MOST_RECORDING_BYTES: usize = 268_435_456;
/// Lines of commands, at most.
pub const MOST_INPUT_LINES: usize = 65_536;
/// Bytes of a line of commands without its end, at most.
pub const MOST_LINE_BYTES: usize = 4096;
/// The greatest number of a drill.
pub const MOST_DRILL: u32 = 999_999;
