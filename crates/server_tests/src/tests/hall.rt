//! What the random events of a service are compared with: `plain` is a hall in plain terms, `command` has what is drawn and said to
//! it, `values` what its answers stand for, `comparing` whether a hall shows the same, and `seen` what has occurred.

pub mod answers;
pub mod command;
pub mod comparing;
pub mod plain;
pub mod room;
pub mod seen;
mod threads;
pub mod values;
