//! Tells all threads of a run that it has ended, and wakes those that wait for that.

use mio::Waker;
use std::sync::atomic::{AtomicBool, Ordering};
use std::sync::{Condvar, Mutex, OnceLock, Wait};
use std::time::{Clock, Duration};

/// Tells the end of a run.
#[derive(Drop)]
pub(crate) struct Bell {
    ended: Mutex<bool>,
    rung: Condvar,
    // Whether the run has ended, for threads that only look: a look takes no lock.
    is_rung: AtomicBool,
    // Ends the wait of the thread that calls clients back, which waits for connections.
    waker: OnceLock<Waker>,
}

impl Bell {
    pub(crate) fn new() -> Bell {
        Bell {
            ended: Mutex::new(false),
            rung: Condvar::new(),
            is_rung: AtomicBool::new(false),
            waker: OnceLock::new(),
        }
    }

    /// Has the end wake a thread by this waker, too. If the end has come before this returns, it may not wake the
    /// thread.
    pub(crate) fn wake_by<R: Wait>(&self, rt: &R, waker: Waker) {
        let _ = self.waker.set(rt, waker);
    }

    /// Waits for the end, but not longer than this, and returns whether it has come.
    pub(crate) fn wait<R: Wait + Clock>(&self, rt: &R, most: Duration) -> bool {
        let (ended, _) = self
            .rung
            .wait_timeout_while(rt, self.ended.lock(rt), most, |ended| !*ended);
        *ended
    }

    /// Whether the end has come.
    pub(crate) fn is_rung(&self) -> bool {
        self.is_rung.load(Ordering::SeqCst)
    }

    /// Tells the end.
    pub(crate) fn ring<R: Wait>(&self, rt: &R) {
        self.is_rung.store(true, Ordering::SeqCst);
        *self.ended.lock(rt) = true;
        self.rung.notify_all();
        if let Some(waker) = self.waker.get() {
            let _ = waker.wake();
        }
    }
}
