//! The thread that reads standard input, for orders if the run goes by them, and ends a run when it ends.

ghost use Rattle.std.specs.Prelude.{◌≤◌, length};

use crate::{Door, Orders};
use nfs_orders::OrderLines;
use std::alloc::Global;
use std::io::{ErrorKind, Read};
use std::sync::{Arc, Wait};
use std::thread;
use std::thread::Threads;

// How many bytes of the input are read at once at most.
const PIECE_LEN: usize = 512;

/// Closes the door when this input ends, from a thread that nobody waits for. If the run goes by orders, the lines of
/// the input are its orders, and those that came are done before. Returns whether there is such a thread.
pub fn close_at_end<
    I: Read + Send + Drop + 'static,
    R: Threads + Wait + Copy + Send + Sync + 'static,
>(rt: R, input: I, door: Arc<Door, Global>) -> bool {
    thread::spawn(&rt, move || read_and_close(rt, input, door)).is_ok()
}

// Reads the input to its end, and closes.
fn read_and_close<I: Read + Drop, R: Wait + Copy>(rt: R, mut input: I, door: Arc<Door, Global>) {
    match door.orders() {
        Some(orders) => read_orders(&rt, &mut input, orders),
        None => {
            read_to_end(&rt, &mut input);
            door.close(&rt);
        }
    }
}

// Reads the input to its end. Its bytes mean nothing.
fn read_to_end<I: Read, R: Wait>(rt: &R, input: &mut I) {
    let mut buffer = [0u8; PIECE_LEN];
    for _ in rt.forever() {
        if read_piece(rt, input, &mut buffer) == 0 {
            return;
        }
    }
}

// Reads orders to the end of the input.
fn read_orders<I: Read, R: Wait>(rt: &R, input: &mut I, orders: &Orders) {
    let mut buffer = [0u8; PIECE_LEN];
    let mut lines = OrderLines::new();
    for _ in rt.forever() {
        let count = read_piece(rt, input, &mut buffer);
        if count == 0 {
            break;
        }
        for byte in &buffer[..count] {
            if let Some(line) = lines.take(*byte) {
                orders.put(rt, line);
            }
        }
    }
    if let Some(error) = lines.end() {
        orders.put(rt, Err(error));
    }
    orders.end(rt);
}

// Reads some bytes, and none only where the input ends or can't be read.
fn read_piece<I: Read, R: Wait>(rt: &R, input: &mut I, buffer: &mut [u8]) -> usize
    ensures { result ≤ length buffer.new }
{
    for _ in rt.forever() {
        match input.read(buffer) {
            Ok(count) => return count,
            Err(error) if error.kind() == ErrorKind::Interrupted => {}
            Err(_) => return 0,
        }
    }
    unreachable!()
}
