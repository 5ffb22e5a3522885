//! The limits of the language, of a process and of a run. (This project.)

/// The most bytes of a source: 1 MiB.
pub const MOST_BYTES: usize = 1_048_576;

/// How deep the parts of a source may stand inside one another: blocks, statements and brackets.
pub const MOST_NESTING: u8 = 64;

/// The most functions of a source.
pub const MOST_FUNCTIONS: u32 = 512;

/// The most tuple operations of a source, and so the most sets.
pub const MOST_SITES: u32 = 1_024;

/// The most fields of an operation, and so of a tuple and of a template.
pub const MOST_FIELDS: usize = 16;

/// The most elements of an array.
pub const MOST_SIZE: u32 = 65_536;

/// The most functions that are active in a process at one time.
pub const MOST_ACTIVE: usize = 256;

/// The most cells of a process at one time: its globals and those of its active functions.
pub const MOST_CELLS: usize = 65_536;

/// The most bytes that a process prints.
pub const MOST_PRINTED: usize = 65_536;

/// The most `eval`s that lead to a process, one begun by the other.
pub const MOST_DEPTH: u32 = 64;

/// The most ticks that a process may be allowed: 2 to the 40th.
pub const MOST_STEPS: u64 = 1_099_511_627_776;

/// The ticks that a process is allowed where nothing is said.
pub const DEFAULT_STEPS: u64 = 1_000_000;

/// The acts that a set is allowed where nothing is said.
pub const DEFAULT_ENTRIES: u32 = 1_048_576;
