/// The most bytes that are read of a program file.
pub const PROGRAM_LIMIT: u64 = 1073741824;

/// The most bytes that are read of a C text.
pub const TEXT_LIMIT: u64 = 1048576;
