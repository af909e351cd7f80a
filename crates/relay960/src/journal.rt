//! Journals: files that keep the games of a relay, so that they outlive its process. What their lines are is the matter of `chained_lines`,
//! and what these say that of `relay_journal`. Here stands what is done with the files: how they are read, opened, mended and checked.

mod checking;
mod contents;
mod damage;
mod end;
mod folder;
mod mending;
mod opening;

pub use checking::check_journal;
pub use contents::line_of;
pub use damage::JournalDamage;
pub use opening::{Opened, open_journal};
