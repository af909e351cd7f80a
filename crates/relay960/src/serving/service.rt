//! Serving.

ghost use Rattle.std.specs.Prelude.{◌≡◌, IfOk, IsErr, MatchResult, Ok};
ghost use Rattle.relay960.specs.Serving.{MeetsWith, most_of};

use crate::failure::Device;
use crate::serving::fault::ServeFault;
use crate::serving::relay::relay_of;
use crate::serving::watching::{Loops, Watch};
use chained_lines::StableFile;
use main_port::{MainPort, ServeEnd, Settings};
use relay_durable::DurableService;
use relay960_words::{Connections, Service};
use server_loop::Log;
use std::alloc::Global;
use std::fs::{File, Files};
use std::io;
use std::io::{ErrorKind, StdinLock, Write};
use std::net::{Ipv4Addr, Net, SocketAddr, TcpListener, TcpStream};
use std::sync::Wait;
use std::thread::Threads;
use std::time::Clock;

/// Goes on with the journal, if there is one, and listens. Writes the line `listening P` to standard output, and `watching A:P` if there is
/// a watch port. Serves until all connections have gone, or until standard input ends if that is asked for.
///
/// # Errors
///
/// Nothing was served: no relay can go on with the journal, the server cannot listen on a port, the system lacks what serving takes, the
/// lines could not be written, or there was no memory. Or the journal failed while it was served.
pub fn serve_run<'a, R>(
    rt: &R,
    alloc: Global,
    service: &Service<'a>,
) -> Result<ServeEnd, ServeFault<'a>>
where
    R: Net<Listener = TcpListener, Stream = TcpStream>
        + Input<Reader = StdinLock<'static>>
        + Files<File = File>
        + Print
        + Eprint
        + Threads
        + Wait
        + Clock
        + Clone
        + Send
        + Drop
        + 'static,
    ensures { IfOk result (MeetsWith service.now.connections service.now.until_input_ends) }
{
    let relay = relay_of(rt, alloc, service)?;
    let watch = Watch::open(rt, alloc, service)?;
    let port = open_port(rt, alloc, service)?;
    serve_port(rt, alloc, service, relay, watch, port)
}

/// Serves on these ports.
///
/// # Errors
///
/// As `serve_run`.
fn serve_port<'a, R>(
    rt: &R,
    alloc: Global,
    service: &Service<'a>,
    relay: DurableService<StableFile>,
    watch: Watch,
    port: MainPort,
) -> Result<ServeEnd, ServeFault<'a>>
where
    R: Input<Reader = StdinLock<'static>>
        + Print
        + Eprint
        + Threads
        + Wait
        + Clock
        + Clone
        + Send
        + Drop
        + 'static,
    requires most { port.most ≡ most_of service.now.connections }
    requires ends { port.until_input_ends ≡ service.now.until_input_ends }
    ensures { IfOk result (MeetsWith service.now.connections service.now.until_input_ends) }
{
    let log = start_log(rt, alloc, service, &watch)?;
    serve_watched(rt, alloc, service, relay, watch, port, log)
}

/// Starts the loops of the watch port, and serves.
///
/// # Errors
///
/// As `serve_run`.
fn serve_watched<'a, R>(
    rt: &R,
    alloc: Global,
    service: &Service<'a>,
    relay: DurableService<StableFile>,
    watch: Watch,
    port: MainPort,
    log: Log,
) -> Result<ServeEnd, ServeFault<'a>>
where
    R: Input<Reader = StdinLock<'static>>
        + Print
        + Eprint
        + Threads
        + Wait
        + Clock
        + Clone
        + Send
        + Drop
        + 'static,
    requires most { port.most ≡ most_of service.now.connections }
    requires ends { port.until_input_ends ≡ service.now.until_input_ends }
    ensures { IfOk result (MeetsWith service.now.connections service.now.until_input_ends) }
{
    match watch.start(rt, alloc, relay.hall()) {
        Ok(loops) => serve_loops(rt, service, relay, port, loops, log),
        Err(fault) => {
            log.end(rt);
            Err(fault)
        }
    }
}

/// Starts the log, which also says how many spectators there are.
///
/// # Errors
///
/// There was no memory.
fn start_log<R>(
    rt: &R,
    alloc: Global,
    service: &Service,
    watch: &Watch,
) -> Result<Log, ServeFault<'static>>
where
    R: Threads + Wait + Clock + Clone + Send + Drop + Eprint + 'static,
{
    match Log::start(rt, alloc, service.log, watch.count()?) {
        Ok(log) => Ok(log),
        Err(_) => Err(ServeFault::OutOfMemory),
    }
}

/// Announces that all is ready, and serves until the end.
///
/// # Errors
///
/// As `serve_run`.
fn serve_loops<'a, R>(
    rt: &R,
    service: &Service<'a>,
    relay: DurableService<StableFile>,
    port: MainPort,
    loops: Loops,
    log: Log,
) -> Result<ServeEnd, ServeFault<'a>>
where
    R: Input<Reader = StdinLock<'static>>
        + Print
        + Threads
        + Wait
        + Clock
        + Clone
        + Send
        + Drop
        + 'static,
    requires most { port.most ≡ most_of service.now.connections }
    requires ends { port.until_input_ends ≡ service.now.until_input_ends }
    ensures { IfOk result (MeetsWith service.now.connections service.now.until_input_ends) }
{
    if let Err(reason) = announce(rt, service) {
        log.end(rt);
        loops.end(rt);
        return Err(ServeFault::unwritten(Device::Output, reason));
    }
    let (ended, loops) = port.attend(rt, relay, loops, &log);
    log.end(rt);
    loops.end(rt);
    or_journal_fault(service, ended)
}

/// How serving ended, or that its journal failed.
fn or_journal_fault<'a>(
    service: &Service<'a>,
    ended: io::Result<ServeEnd>,
) -> Result<ServeEnd, ServeFault<'a>>
    ensures { MatchResult ended (λ end. result ≡ Ok end) (λ _. IsErr result) }
{
    match ended {
        Ok(end) => Ok(end),
        Err(reason) => {
            // Without a journal none fails.
            let journal = Device::File(service.journal.unwrap_or(""));
            Err(ServeFault::unwritten(journal, reason))
        }
    }
}

/// Listens on the main port, and takes all that it takes to serve it.
///
/// # Errors
///
/// The server cannot listen there, the system lacks what serving takes, or there was no memory.
fn open_port<R: Net<Listener = TcpListener, Stream = TcpStream> + Clock>(
    rt: &R,
    alloc: Global,
    service: &Service,
) -> Result<MainPort, ServeFault<'static>>
    ensures most { IfOk result (λ port. port.most ≡ most_of service.now.connections) }
    ensures ends { IfOk result (λ port. port.until_input_ends ≡ service.now.until_input_ends) }
    ensures limits { IfOk result (λ port. port.limits ≡ service.now.limits) }
{
    let address = SocketAddr::from((Ipv4Addr::LOCALHOST, service.port));
    let listener = match bind(rt, address) {
        Ok(listener) => listener,
        Err(reason) => return Err(ServeFault::at(address, reason)),
    };
    match MainPort::open(rt, alloc, listener, &settings_of(service)) {
        Ok(port) => Ok(port),
        Err(error) if error.kind() == ErrorKind::OutOfMemory => Err(ServeFault::OutOfMemory),
        Err(reason) => Err(ServeFault::at(address, reason)),
    }
}

/// How the main port is served.
fn settings_of(service: &Service) -> Settings
    ensures most { result.most ≡ most_of service.now.connections }
    ensures ends { result.until_input_ends ≡ service.now.until_input_ends }
    ensures limits { result.limits ≡ service.now.limits }
{
    Settings {
        limits: service.limits,
        idle: most_idle(service.idle).map(|seconds| seconds.saturating_mul(1000)),
        most: most_of(service.connections),
        until_input_ends: service.until_input_ends,
    }
}

/// How many connections are accepted, if that is bounded.
fn most_of(connections: Connections) -> Option<u32>
    ensures { result ≡ most_of connections }
{
    match connections {
        Connections::Count(most) => Some(most),
        Connections::Forever => None,
    }
}

/// Announces on standard output that all is ready: `listening P`, and `watching A:P` if there is a watch port.
///
/// # Errors
///
/// As the system's own calls.
fn announce<R: Print>(rt: &R, service: &Service) -> io::Result<()> {
    let mut out = io::writer(rt);
    writeln!(out, "listening {}", service.port)?;
    match &service.watch {
        Some(asked) => writeln!(out, "watching {}", asked.address),
        None => Ok(()),
    }
}

/// For how many seconds a connection that asks for nothing is waited for, if that is bounded.
pub(super) fn most_idle(idle: u32) -> Option<u64> {
    if idle == 0 {
        None
    } else {
        Some(u64::from(idle))
    }
}

/// Listens at this address. As many newcomers as the system allows may wait there to be accepted: std's own `bind` allows 128.
///
/// # Errors
///
/// As the system's own calls.
fn bind<R: Net>(rt: &R, address: SocketAddr) -> io::Result<TcpListener> {
    Ok(TcpListener::from(mio::net::TcpListener::bind(rt, address)?))
}
