//! A link that asks again only when all other links have a reply: served in turn, such links would never end.

ghost use Rattle.std.specs.Prelude.{◌≡◌, ◌≤◌, false, length, true};

use crate::board::Board;
use nfs_core::Moment;
use nfs_server::{DeviceFailed, Duplex, ServeError, Stopped};
use nfs_threads::Links;
use std::alloc::AllocError;
use std::thread;
use std::time::{Clock as Sleeper, Duration};

// How often a link looks for the other links' replies, with a sleep of a millisecond each time.
const TURNS: u32 = 10_000;

// A record with a call of NULL.
const NULL: [u8; 44] = [
    0x80, 0, 0, 0x28, 0, 0, 0, 1, 0, 0, 0, 0, 0, 0, 0, 2, 0, 1, 0x86, 0xa3, 0, 0, 0, 4, 0, 0, 0, 0,
    0, 0, 0, 0, 0, 0, 0, 0, 0, 0, 0, 0, 0, 0, 0, 0,
];

// A record with a call of COMPOUND, which has SETCLIENTID of the id `a`.
const SETCLIENTID: [u8; 112] = [
    0x80, 0, 0, 0x6c, 0, 0, 0, 2, 0, 0, 0, 0, 0, 0, 0, 2, 0, 1, 0x86, 0xa3, 0, 0, 0, 4, 0, 0, 0, 1,
    0, 0, 0, 0, 0, 0, 0, 0, 0, 0, 0, 0, 0, 0, 0, 0, 0, 0, 0, 0, 0, 0, 0, 0, 0, 0, 0, 1, 0, 0, 0,
    0x23, 1, 1, 1, 1, 1, 1, 1, 1, 0, 0, 0, 1, 0x61, 0, 0, 0, 0x40, 0, 0, 0, 0, 0, 0, 3, 0x74, 0x63,
    0x70, 0, 0, 0, 0, 0x0d, 0x31, 0x32, 0x37, 0x2e, 0x30, 0x2e, 0x30, 0x2e, 0x31, 0x2e, 0x38, 0x2e,
    0x31, 0, 0, 0, 0, 0, 0, 1,
];

// The length of the record with the reply to NULL.
const NULL_REPLY_LEN: usize = 28;

/// A link over memory to one connection. Its first read gives a call of NULL; its second gives another one only when
/// every other link has a whole reply; its third gives a call of COMPOUND; and then its input ends.
#[derive(Drop)]
pub struct BoardLink<'a, R: Sleeper> {
    rt: &'a R,
    board: &'a Board,
    place: usize,
    moment: Moment,
    is_open: bool,
}

impl<'a, R: Sleeper> BoardLink<'a, R> {
    pub fn new(rt: &'a R, board: &'a Board, place: usize, moment: Moment) -> BoardLink<'a, R> {
        BoardLink {
            rt,
            board,
            place,
            moment,
            is_open: false,
        }
    }
}

/// The device of such a link.
#[derive(Drop)]
pub struct BoardDevice<'a, R: Sleeper> {
    rt: &'a R,
    board: &'a Board,
    place: usize,
    reads: u32,
    read_failures: u64,
    write_failures: u64,
}

impl<'a, R: Sleeper> BoardDevice<'a, R> {
    // Waits until every other link has a whole reply, but not for long.
    fn others_are_answered(&self) -> bool {
        for _ in 0..TURNS {
            if self.board.others_have(self.place, NULL_REPLY_LEN) {
                return true;
            }
            thread::sleep(self.rt, Duration::from_millis(1));
        }
        false
    }
}

// Copies the record to the front of the buffer, as far as there is room.
fn copy(record: &[u8], buffer: &mut [u8]) -> usize
    ensures within { result ≤ length buffer.new }
{
    let count = record.len().min(buffer.len());
    buffer[..count].copy_from_slice(&record[..count]);
    count
}

impl<'a, R: Sleeper> Duplex for BoardDevice<'a, R> {
    ghost use Rattle.link_tests.specs.Board.{device_in_place};

    ghost device = { device_in_place (λ d. d.place) };

    ghost read_failures = { λ d. d.read_failures };

    ghost write_failures = { λ d. d.write_failures };

    fn read(&mut self, buffer: &mut [u8]) -> Result<usize, DeviceFailed> {
        let reads = self.reads;
        self.reads = reads.saturating_add(1);
        match reads {
            0 => Ok(copy(&NULL, buffer)),
            1 if self.others_are_answered() => Ok(copy(&NULL, buffer)),
            1 => {
                self.read_failures += 1;
                Err(DeviceFailed)
            }
            2 => Ok(copy(&SETCLIENTID, buffer)),
            _ => Ok(0),
        }
    }

    fn write(&mut self, bytes: &[u8]) -> Result<usize, DeviceFailed> {
        if self.board.add(self.place, bytes.len()) {
            Ok(bytes.len())
        } else {
            self.write_failures += 1;
            Err(DeviceFailed)
        }
    }
}

impl<'a, R: Sleeper + Sync> Links for BoardLink<'a, R> {
    type Device = BoardDevice<'a, R>;

    type Clock = Stopped;

    ghost opens = { λ old device clock new. (device.place ≡ old.place) × (old.is_open ≡ false)
        × (new ≡ record old { is_open = true }) };

    ghost stops = { λ old new. (old.is_open ≡ true) × (new ≡ old) };

    fn next(&mut self) -> Option<(BoardDevice<'a, R>, Stopped)> {
        if self.is_open {
            return None;
        }
        self.is_open = true;
        let device = BoardDevice {
            rt: self.rt,
            board: self.board,
            place: self.place,
            reads: 0,
            read_failures: 0,
            write_failures: 0,
        };
        Some((device, Stopped::at(self.moment)))
    }

    fn wait_for_memory(&mut self) -> Result<bool, AllocError> {
        Err(AllocError)
    }

    fn end(&self, _outcome: Result<usize, ServeError>) {}
}
