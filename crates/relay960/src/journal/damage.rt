//! Why a file is no journal that a relay can go on with.

use std::fmt;

/// Why a file is no journal that a relay can go on with. Lines are counted from 1, and bytes from 0.
#[derive(Clone, Copy)]
pub enum JournalDamage {
    /// Its first line is not that of a journal.
    NoJournal,
    /// This line counts, but says nothing that a journal keeps.
    NoEntry(usize),
    /// What this line says is refused: the limits are smaller than when it was written, or no relay has written it.
    Refused(usize),
    /// A line and a byte from which on it does not count, though a later write stands behind it, whose line and byte are these.
    Changed(Place, Place),
}

/// Where a line begins.
#[derive(Clone, Copy)]
pub struct Place {
    /// Its number, from 1 on.
    pub line: usize,
    /// How many bytes stand before it.
    pub byte: usize,
}

impl fmt::Display for Place {
    fn fmt<W: fmt::Write>(&self, f: &mut fmt::Formatter<W>) -> fmt::Result {
        write!(f, "line {}, byte {}", self.line, self.byte)
    }
}

impl fmt::Display for JournalDamage {
    fn fmt<W: fmt::Write>(&self, f: &mut fmt::Formatter<W>) -> fmt::Result {
        match self {
            JournalDamage::NoJournal => f.write_str("no journal of relay960"),
            JournalDamage::NoEntry(line) => write!(
                f,
                "line {line} says nothing that a journal keeps"
            ),
            JournalDamage::Refused(line) => write!(
                f,
                "line {line} is refused: --boards or --plies may be smaller than when it was written"
            ),
            JournalDamage::Changed(at, later) => {
                write!(f, "damaged at {at}; a later write begins at {later}")
            }
        }
    }
}
