// The statuses of the program.

/// The status of a line that was done.
pub const DONE: u8 = 0;

/// That of one that could not be done, or not whole.
pub const FAILED: u8 = 1;

/// That of one that can't be read.
pub const USAGE: u8 = 2;
