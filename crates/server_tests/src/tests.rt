//! The tests, a module for each of what is tested: `service` of a service and all that it rests on, beside the plain model of a hall that
//! `hall` has; `feeds` of the feeds of `watch_port`; `lines` of files, over a storage in memory, and `journals` of what they keep of a
//! hall; `sessions` of the plain server over streams in memory, and `loopback` over sockets; `comparing` has the same sessions through
//! both servers. Random events are drawn by `chance`, what has to hold is claimed by `claims`, and `parts` has parts of texts.

mod chance;
mod claims;
mod comparing;
mod feeds;
mod hall;
mod journals;
mod lines;
mod loopback;
mod parts;
mod service;
mod sessions;
