//! Serving: connections are accepted one by one, and each gets a thread.

ghost use Rattle.std.specs.Prelude.{◌≡◌, ◌+◌};

use crate::ends::{ServeEnd, SessionEnd};
use crate::registry::Registry;
use crate::sessions::session;
use relay_pushing::Gate;
use std::alloc::Global;
use std::net::{Net, TcpListener, TcpStream};
use std::sync::{Arc, Wait};
use std::thread::{JoinHandle, Threads, spawn};

/// Accepts so many times, numbers the connections from 1 in the order of accepting, gives each a thread, and waits until all sessions have
/// ended. An accept or a thread's start that fails counts as failed, each other connection as served. The listener is closed after the last
/// accept.
pub fn serve<R, G>(
    rt: &R,
    alloc: Global,
    listener: TcpListener,
    registry: &Arc<Registry, Global>,
    gate: &Arc<G, Global>,
    connections: u32,
) -> ServeEnd
where
    R: Net<Listener = TcpListener, Stream = TcpStream>
        + Threads
        + Wait
        + Clone
        + Send
        + Drop
        + 'static,
    G: Gate + Send + Sync + Drop + 'static,
    ensures { result.served + result.failed ≡ connections }
{
    let mut sessions = Vec::new(alloc);
    let mut failed = 0;
    for met in 0..connections {
        let begun = match listener.accept() {
            Ok((stream, _)) => begin(rt, alloc, registry, gate, &mut sessions, stream),
            Err(_) => None,
        };
        if begun.is_none() {
            failed += 1;
        }
    }
    drop(listener);
    for session in sessions {
        let _ = session.join(rt);
    }
    ServeEnd {
        served: connections - failed,
        failed,
    }
}

/// Begins the session of a connection on a thread of its own. Those that were begun before are counted: its number is the next.
fn begin<R, G>(
    rt: &R,
    alloc: Global,
    registry: &Arc<Registry, Global>,
    gate: &Arc<G, Global>,
    sessions: &mut Vec<JoinHandle<SessionEnd>>,
    stream: TcpStream,
) -> Option<()>
where
    R: Threads + Wait + Clone + Send + Drop + 'static,
    G: Gate + Send + Sync + Drop + 'static,
{
    sessions.reserve(1).ok()?;
    let connection = u32::try_from(sessions.len()).ok()?.checked_add(1)?;
    let own = rt.clone().ok()?;
    let registry = Arc::try_clone(registry).ok()?;
    let gate = Arc::try_clone(gate).ok()?;
    let handle = spawn(rt, move || {
        session(&own, alloc, &registry, connection, stream, &*gate)
    })
    .ok()?;
    sessions.push_reserved(handle);
    Some(())
}
