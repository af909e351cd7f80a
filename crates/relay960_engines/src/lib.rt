//! The engines of the program `relay960`: the lines of a start number, of a position and of the version, a live game over lines, a
//! script over a relay, and the line engine on which these two are built. They read from any reader and write to any writer, and know
//! nothing of a command line.
#![tactic(auto)]

mod answerer;
mod bounds;
mod devices;
mod due;
mod fault;
mod kept_line;
mod limits;
mod lines;
mod listing;
mod moves;
mod pieces;
mod play;
mod play_texts;
mod progress;
mod script;
mod speaker;
mod start;
mod version;
mod writing;

pub use answerer::Answerer;
pub use bounds::Bounds;
pub use devices::{ReadDevice, WriteDevice};
pub use fault::RunFault;
pub use limits::{ScriptLimits, default_limits};
pub use lines::run_lines;
pub use moves::moves_run;
pub use play::play_run;
pub use script::script_run;
pub use start::start_run;
pub use version::version_run;
