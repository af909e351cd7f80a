//! How much input a run accepts.

/// How many lines and how many bytes an input may have.
#[derive(Clone, Copy, PartialEq, Eq, Debug)]
pub struct Bounds {
    /// The most lines.
    pub lines: u64,
    /// The most bytes.
    pub bytes: u64,
}
