//! Serving on a port of the local machine, over the program's runtime.

mod fault;
mod relay;
mod service;
mod status;
mod watching;

pub use fault::ServeFault;
pub use service::serve_run;
pub use status::{status_of_end, status_of_fault};
