//! Limits on the size of a program. The type checker refuses larger programs, and the compiler units with too long a
//! code.

/// The most classes of a program.
pub const MOST_CLASSES: usize = 1024;

/// The most functions of a program.
pub const MOST_FUNCTIONS: usize = 1024;

/// The most fields of a class.
pub const MOST_FIELDS: usize = 256;

/// The most parameters of a function.
pub const MOST_PARAMS: usize = 64;

/// The most slots of a unit, which is a function or a region: its parameters or captures, and its own.
pub const MOST_SLOTS: u32 = 1024;

/// The most regions of a program.
pub const MOST_REGIONS: u32 = 4096;
