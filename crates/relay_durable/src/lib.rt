//! The service whose boards outlive the process: all that its boards have is in a journal, and what it sends is on the disk before. Without
//! a journal it is the service alone.
#![tactic(auto)]

mod durable_service;

pub use durable_service::DurableService;
