//! The log on standard error. Whoever writes it may be slow, and nobody is to wait for that: a thread of its own writes the lines.

use crate::log_line::LogLine;
use log::sink::Console;
use log::{Level, Logged, info};
use std::alloc::{AllocError, Global};
use std::mem;
use std::sync::atomic::{AtomicU32, Ordering};
use std::sync::{Arc, Condvar, Mutex, Wait};
use std::thread::{Builder, JoinHandle, Threads};
use std::time::{Clock, Duration, Instant};

/// How many lines of the log may wait to be written. Anything beyond that is counted and left out.
const MOST_LINES: usize = 4096;

/// How many seconds pass between two lines of counts.
const BETWEEN_COUNTS_SECONDS: u64 = 60;

/// How many bytes the stack of a thread beside a loop has.
pub(crate) const STACK_BYTES: usize = 256 * 1024;

/// What the lines of counts tell.
#[derive(Clone, Copy, Default)]
pub struct Counts {
    /// How many connections there are.
    pub connections: u64,
    /// How many of them follow a board.
    pub followers: u64,
    /// How many boards there are.
    pub boards: u64,
    /// How many games have ended.
    pub ended: u64,
    /// How many followers were cut off.
    pub cut: u64,
}

/// Lines that wait to be written, and what the lines of counts tell.
#[derive(Drop)]
struct Lines {
    kept: Vec<LogLine>,
    /// How many were left out, because too many were waiting or there was no memory.
    left_out: u64,
    /// Whether one of them says that a connection was turned away.
    are_short: bool,
    /// Whether no more come.
    are_last: bool,
    counts: Counts,
}

impl Lines {
    /// No lines.
    fn new(alloc: Global, counts: Counts) -> Lines {
        Lines {
            kept: Vec::new(alloc),
            left_out: 0,
            are_short: false,
            are_last: false,
            counts,
        }
    }

    /// Whether there is nothing to be done for them yet.
    fn is_quiet(&self) -> bool {
        self.kept.is_empty() && self.left_out == 0 && !self.are_last
    }

    /// Adds a line, or counts it if there is no room. What is reported in any case does not want for room. That a connection was
    /// turned away is added once.
    fn add(&mut self, line: LogLine) {
        if matches!(line, LogLine::NoRoom) && mem::replace(&mut self.are_short, true) {
            return;
        }
        let has_room = self.kept.len() < MOST_LINES || !line.is_of_log();
        if !has_room || self.kept.push(line).is_err() {
            self.left_out = self.left_out.saturating_add(1);
        }
    }
}

/// What the loop and the thread share.
#[derive(Drop)]
struct Shared {
    alloc: Global,
    /// Whether there is a log.
    is_kept: bool,
    lines: Mutex<Lines>,
    /// Notified at each line, and when no more will come.
    noted: Condvar,
    /// How many connections the watch port has, if there is one.
    watching: Option<Arc<AtomicU32, Global>>,
}

impl Shared {
    /// Waits for lines, but no longer than this, and takes them.
    fn take<R: Wait + Clock>(&self, rt: &R, most: Option<Duration>) -> Lines {
        let lines = self.lines.lock(rt);
        let mut lines = match most {
            None => self.noted.wait_while(rt, lines, |lines| lines.is_quiet()),
            Some(most) => {
                let waited = self
                    .noted
                    .wait_timeout_while(rt, lines, most, |lines| lines.is_quiet());
                waited.0
            }
        };
        let counts = lines.counts;
        mem::replace(&mut *lines, Lines::new(self.alloc, counts))
    }
}

/// What is written on standard error.
#[derive(Drop)]
pub struct Log {
    shared: Arc<Shared, Global>,
    thread: Option<JoinHandle<()>>,
}

impl Log {
    /// Starts the thread that writes. Without a log it writes only what is reported in any case, and no counts. If the system has no
    /// thread, nothing is written.
    ///
    /// # Errors
    ///
    /// There was no memory.
    pub fn start<R>(
        rt: &R,
        alloc: Global,
        is_kept: bool,
        watching: Option<Arc<AtomicU32, Global>>,
    ) -> Result<Log, AllocError>
    where
        R: Threads + Wait + Clock + Eprint + Clone + Send + Drop + 'static,
    {
        let shared = Shared {
            alloc,
            is_kept,
            lines: Mutex::new(Lines::new(alloc, Counts::default())),
            noted: Condvar::new(),
            watching,
        };
        let shared = Arc::new(alloc, shared)?;
        let thread = spawn(rt, &shared);
        Ok(Log { shared, thread })
    }

    /// Whether there is a log.
    pub fn is_kept(&self) -> bool {
        self.shared.is_kept
    }

    /// What the lines of counts tell from now on.
    pub fn counts<R: Wait>(&self, rt: &R, counts: Counts) {
        self.shared.lines.lock(rt).counts = counts;
    }

    /// Has a line written, if there is a log or it is reported in any case. That a connection was turned away is not reported while the
    /// last such line waits.
    pub fn note<R: Wait>(&self, rt: &R, line: LogLine) {
        let shared = &*self.shared;
        if shared.is_kept || !line.is_of_log() {
            shared.lines.lock(rt).add(line);
            shared.noted.notify_one();
        }
    }

    /// Lets the thread write what is left, and joins it.
    pub fn end<R: Threads + Wait>(self, rt: &R) {
        let Log { shared, thread } = self;
        shared.lines.lock(rt).are_last = true;
        shared.noted.notify_one();
        if let Some(thread) = thread {
            let () = thread.join(rt);
        }
    }
}

/// Starts the thread, if the system has one.
fn spawn<R>(rt: &R, shared: &Arc<Shared, Global>) -> Option<JoinHandle<()>>
where
    R: Threads + Wait + Clock + Eprint + Clone + Send + Drop + 'static,
{
    let own = rt.clone().ok()?;
    let shared = Arc::try_clone(shared).ok()?;
    Builder::new()
        .stack_size(STACK_BYTES)
        .spawn(rt, move || run(&own, &shared))
        .ok()
}

/// Writes the lines, and once a minute the counts if there is a log, until no more lines come.
fn run<R: Wait + Clock + Eprint>(rt: &R, shared: &Shared) {
    let mut counted_at = Instant::now(rt).ok();
    for _ in rt.forever() {
        let lines = shared.take(rt, until_counts(rt, shared, counted_at));
        write_lines(rt, &lines);
        if lines.are_last {
            return;
        }
        if until_counts(rt, shared, counted_at) == Some(Duration::ZERO) {
            write_counts(rt, shared, &lines.counts);
            counted_at = Instant::now(rt).ok();
        }
    }
}

/// In what time the counts are due, if they ever are.
fn until_counts<R: Clock>(
    rt: &R,
    shared: &Shared,
    counted_at: Option<Instant>,
) -> Option<Duration> {
    if !shared.is_kept {
        return None;
    }
    let passed = Instant::now(rt).ok()?.duration_since(counted_at?);
    let between = Duration::from_secs(BETWEEN_COUNTS_SECONDS);
    Some(between.saturating_sub(passed))
}

/// Writes these lines, and one if some were left out. Serving goes on even if standard error is closed.
fn write_lines<R: Eprint>(rt: &R, lines: &Lines) {
    let log = Logged::new(rt, Level::Info, Console(rt));
    for line in lines.kept.iter() {
        if line.is_of_log() {
            info!(log; target: "relay960", "{line}");
        } else {
            let _ = eprintln!(rt; "{line}");
        }
    }
    if lines.left_out > 0 {
        info!(log; target: "relay960", "{} lines left out", lines.left_out);
    }
}

/// Writes how many connections and boards there are.
fn write_counts<R: Eprint>(rt: &R, shared: &Shared, now: &Counts) {
    let log = Logged::new(rt, Level::Info, Console(rt));
    info!(log; target: "relay960", "connections {}, boards {}, ended {}, followers {}, cut off {}",
        now.connections, now.boards, now.ended, now.followers, now.cut);
    if let Some(watching) = &shared.watching {
        let watching = watching.load(Ordering::SeqCst);
        info!(log; target: "relay960", "connections of the watch port {watching}");
    }
}
