//! A connection of an operator that a hall answers, without reading and writing. Bytes come in, bytes go out. It takes no lock, opens no
//! socket, reads no clock and waits for nobody.

mod key;
pub mod laws;
mod operator_connection;
mod stage;

pub use operator_connection::{MOST_MESSAGES, OperatorConnection};
pub use stage::Stage;
