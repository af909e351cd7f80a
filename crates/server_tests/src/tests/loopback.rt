//! Sessions over sockets of 127.0.0.1, each on its thread.

mod cases;
mod peer;
mod served;
