// The limits of documents 01 and 02, each in one place. specs/Limits.antt has a definition of the same meaning for each.
#![tactic(auto)]

// Threads of a program at most.
pub const THREADS: usize = 8;

// Locations of a program at most.
pub const LOCATIONS: usize = 16;

// Values of a location at least.
pub const MIN_VALUES: usize = 2;

// Values of a location at most.
pub const VALUES: usize = 16;

// Lines of a thread at most.
pub const LINES: usize = 64;

// Registers of a thread.
pub const REGISTERS: usize = 4;

// Places of a table at most.
pub const MAX_PLACES: usize = 1000000000;
