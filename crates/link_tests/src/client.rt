//! A TCP client that makes its second call only when another client has the reply to its first.

use std::io::{Read, Write};
use std::net::{Shutdown, TcpStream};
use std::sync::atomic::{AtomicUsize, Ordering};
use std::thread;
use std::time::{Clock, Duration};

// How often a client looks whether the other one was answered, with a sleep of a millisecond each time.
const TURNS: u32 = 10_000;

// A record with a call of NULL, and that with its reply (RFC 5531, section 9): the same xid, REPLY, MSG_ACCEPTED, a
// verifier of AUTH_NONE without bytes, SUCCESS.
const NULL: [u8; 44] = [
    0x80, 0, 0, 0x28, 0, 0, 0, 1, 0, 0, 0, 0, 0, 0, 0, 2, 0, 1, 0x86, 0xa3, 0, 0, 0, 4, 0, 0, 0, 0,
    0, 0, 0, 0, 0, 0, 0, 0, 0, 0, 0, 0, 0, 0, 0, 0,
];

const NULL_REPLY: [u8; 28] = [
    0x80, 0, 0, 0x18, 0, 0, 0, 1, 0, 0, 0, 1, 0, 0, 0, 0, 0, 0, 0, 0, 0, 0, 0, 0, 0, 0, 0, 0,
];

// A record with a COMPOUND of PUTROOTFH and GETATTR of the type, and that with its reply (RFC 7531): NFS4_OK, no tag,
// and two results, each NFS4_OK; in the second the bitmap of the type, and as its four bytes NF4DIR.
const TYPE_OF_ROOT: [u8; 72] = [
    0x80, 0, 0, 0x44, 0, 0, 0, 2, 0, 0, 0, 0, 0, 0, 0, 2, 0, 1, 0x86, 0xa3, 0, 0, 0, 4, 0, 0, 0, 1,
    0, 0, 0, 0, 0, 0, 0, 0, 0, 0, 0, 0, 0, 0, 0, 0, 0, 0, 0, 0, 0, 0, 0, 0, 0, 0, 0, 2, 0, 0, 0,
    24, 0, 0, 0, 9, 0, 0, 0, 1, 0, 0, 0, 2,
];

const TYPE_OF_ROOT_REPLY: [u8; 72] = [
    0x80, 0, 0, 0x44, 0, 0, 0, 2, 0, 0, 0, 1, 0, 0, 0, 0, 0, 0, 0, 0, 0, 0, 0, 0, 0, 0, 0, 0, 0, 0,
    0, 0, 0, 0, 0, 0, 0, 0, 0, 2, 0, 0, 0, 24, 0, 0, 0, 0, 0, 0, 0, 9, 0, 0, 0, 0, 0, 0, 0, 1, 0,
    0, 0, 2, 0, 0, 0, 4, 0, 0, 0, 2,
];

/// Makes a call, and a second one when both clients have the reply to their first. Returns whether each reply is the
/// one that is expected. `answered` counts the clients that have their first reply. The connection is ended.
pub(crate) fn converse<R: Clock>(rt: &R, stream: &TcpStream, answered: &AtomicUsize) -> bool {
    let is_answered = ask_twice(rt, stream, answered);
    stream.shutdown(Shutdown::Both).is_ok() && is_answered
}

fn ask_twice<R: Clock>(rt: &R, stream: &TcpStream, answered: &AtomicUsize) -> bool {
    if !ask(stream, &NULL, &NULL_REPLY) {
        return false;
    }
    answered.fetch_add(1, Ordering::SeqCst);
    both_are_answered(rt, answered) && ask(stream, &TYPE_OF_ROOT, &TYPE_OF_ROOT_REPLY)
}

// Waits until both clients have their first reply, but not for long.
fn both_are_answered<R: Clock>(rt: &R, answered: &AtomicUsize) -> bool {
    for _ in 0..TURNS {
        if answered.load(Ordering::SeqCst) == 2 {
            return true;
        }
        thread::sleep(rt, Duration::from_millis(1));
    }
    false
}

// Sends a record, and returns whether this reply comes.
fn ask(mut stream: &TcpStream, call: &[u8], reply: &[u8]) -> bool {
    if stream.write_all(call).is_err() {
        return false;
    }
    let mut buffer = [0u8; 72];
    let Some(got) = buffer.get_mut(..reply.len()) else {
        return false;
    };
    stream.read_exact(got).is_ok() && *got == *reply
}
