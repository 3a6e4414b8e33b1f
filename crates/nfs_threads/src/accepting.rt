//! The thread that accepts TCP connections for a run that goes on.

use crate::door::Arrival;
use crate::{Door, Peer};
use std::alloc::Global;
use std::io::ErrorKind;
use std::net::{TcpListener, TcpStream};
use std::sync::{Arc, Wait};
use std::thread;
use std::thread::Threads;
use std::time::{Clock as Timer, Duration};

// For how many milliseconds a read or a write may wait before it looks whether the run has ended.
const TICK_MILLIS: u64 = 500;

// How many milliseconds it is from an accept that failed to the next one.
const PAUSE_MILLIS: u64 = 100;

/// Accepts the listener's connections for this door, in a thread that nobody waits for: it may wait for a connection
/// when the program ends. Returns whether there is such a thread.
pub fn accept_for<R: Threads + Wait + Timer + Copy + Send + Sync + 'static>(
    rt: R,
    listener: TcpListener,
    door: Arc<Door, Global>,
) -> bool {
    // The handle of the thread is let go, which leaves the thread to itself.
    thread::spawn(&rt, move || accept_each(rt, listener, door)).is_ok()
}

// Accepts one connection after the other, each when it is asked for, until the door is closed.
fn accept_each<R: Wait + Timer + Copy>(rt: R, listener: TcpListener, door: Arc<Door, Global>) {
    let mut number = 0u64;
    for _ in rt.forever() {
        if !door.is_asked(&rt) {
            return;
        }
        match listener.accept() {
            Ok((stream, address)) => {
                number = number.saturating_add(1);
                if comes_back(&stream) {
                    door.give(&rt, Arrival::Connection(stream, Peer { number, address }));
                }
            }
            Err(error) if error.kind() == ErrorKind::Interrupted => {}
            Err(_) => {
                door.give(&rt, Arrival::Refusal);
                if door.bell().wait(&rt, Duration::from_millis(PAUSE_MILLIS)) {
                    return;
                }
            }
        }
    }
}

// Has the reads and writes of a connection come back after a while; one whose calls can't would never see the end of
// the run. Its replies go out at once; without that they only come later.
fn comes_back(stream: &TcpStream) -> bool {
    let _ = stream.set_nodelay(true);
    let tick = Duration::from_millis(TICK_MILLIS);
    stream.set_read_timeout(Some(tick)).is_ok() && stream.set_write_timeout(Some(tick)).is_ok()
}
