//! A server on a thread of its own.

use crate::tests::loopback::peer::Client;
use c960_game::Limits;
use relay_server::{Gate, Registry, ServeEnd, serve};
use std::alloc::Global;
use std::net::{Ipv4Addr, Net, SocketAddr, TcpListener, TcpStream};
use std::process::Abort;
use std::sync::{Arc, Wait};
use std::thread::{JoinHandle, Threads, spawn};

/// A server that serves so many connections.
#[derive(Drop)]
pub struct Served {
    alloc: Global,
    address: SocketAddr,
    thread: JoinHandle<ServeEnd>,
}

/// A listener on a free port.
fn listener<R>(rt: &R) -> (TcpListener, SocketAddr)
where
    R: Net<Listener = TcpListener, Stream = TcpStream> + Abort,
{
    let any = SocketAddr::from((Ipv4Addr::LOCALHOST, 0));
    let listener = TcpListener::bind(rt, any).expect(rt, "a port");
    let address = listener.local_addr().expect(rt, "an address");
    (listener, address)
}

/// A server of so many connections, whose followers may be two moves behind.
pub fn serving<R, G>(rt: &R, alloc: Global, gate: &Arc<G, Global>, connections: u32) -> Served
where
    R: Net<Listener = TcpListener, Stream = TcpStream>
        + Threads
        + Wait
        + Abort
        + Clone
        + Send
        + Drop
        + 'static,
    G: Gate + Send + Sync + Drop + 'static,
{
    let (listener, address) = listener(rt);
    let limits = Limits::new(16, 64, 2, 1024).expect(rt, "limits");
    let registry = Registry::new(alloc, limits).expect(rt, "memory");
    let registry = Arc::new(alloc, registry).expect(rt, "memory");
    let gate = Arc::try_clone(gate).expect(rt, "few owners");
    let own = rt.clone().expect(rt, "a handle");
    let thread = spawn(rt, move || {
        serve(&own, alloc, listener, &registry, &gate, connections)
    })
    .expect(rt, "a thread");
    Served {
        alloc,
        address,
        thread,
    }
}

impl Served {
    /// A connection to it.
    pub fn client<R: Net<Stream = TcpStream> + Abort>(&self, rt: &R) -> Client {
        Client::new(rt, self.alloc, self.address)
    }

    /// It has served all of its connections.
    pub fn ends<R: Threads + Abort>(self, rt: &R, connections: u32) {
        let end = self.thread.join(rt);
        let wanted = ServeEnd {
            served: connections,
            failed: 0,
        };
        assert!(rt; end == wanted);
    }
}
