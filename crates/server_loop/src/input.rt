//! The thread that notices the end of standard input.

use crate::log_thread::STACK_BYTES;
use crate::waker::LoopWaker;
use std::alloc::Global;
use std::io;
use std::io::StdinLock;
use std::sync::Arc;
use std::sync::atomic::{AtomicBool, Ordering};
use std::thread::{Builder, Threads};

/// Starts the thread, if the system has one. It lasts as long as standard input does, so nobody joins it. When that ends, or cannot be
/// read, it says so and wakes the loop. What is read is ignored.
pub fn watch_input<R>(
    rt: &R,
    has_ended: &Arc<AtomicBool, Global>,
    waker: &Arc<LoopWaker, Global>,
) -> Option<()>
where
    R: Input<Reader = StdinLock<'static>> + Threads + Clone + Send + Drop + 'static,
{
    let own = rt.clone().ok()?;
    let has_ended = Arc::try_clone(has_ended).ok()?;
    let waker = Arc::try_clone(waker).ok()?;
    let _ = Builder::new()
        .stack_size(STACK_BYTES)
        .spawn(rt, move || {
            let _ = io::copy(&mut own.reader(), &mut io::sink());
            has_ended.store(true, Ordering::SeqCst);
            waker.wake();
        })
        .ok()?;
    Some(())
}
