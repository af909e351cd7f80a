//! The version of the program.

/// The version, as `relay960 --version` prints it after the program's name.
pub const VERSION: &str = "0.1.0";
