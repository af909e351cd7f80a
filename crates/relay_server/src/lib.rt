//! The plain server: a thread for each connection, all boards behind one lock, `tungstenite`'s own handshake and frames. No program runs
//! it. It stands as what the server of the program is compared with: `server_tests` takes the same sessions through both. It is
//! written to be read against the rules of a session, and has no keys, no grace, no log and no bound on how long a peer may take.
#![tactic(auto)]

mod board_bell;
mod ends;
mod gates;
mod outlet;
mod registry;
mod serving;
mod sessions;
mod shared_keeper;

pub use ends::{ServeEnd, SessionEnd};
pub use gates::OpenGate;
pub use registry::Registry;
pub use relay_pushing::{Bell, Conn, Gate, Keeper, Outlet, PushEnd, SendFault, Source, push_all};
pub use serving::serve;
pub use sessions::session;
