//! Devices of std that give or take a byte at a time, and fail once, under `Counted`: a call that fails has failed, and
//! isn't tried again.

ghost use Rattle.std.specs.Prelude.{◌<◌, length};

use nfs_server::{Counted, DeviceFailed, Sink, Source};
use std::io;
use std::io::{ErrorKind, Read, Write};

/// Gives its bytes one at a time, but for one read that fails, where `left` bytes are left.
#[derive(Drop)]
struct Trickle<'a> {
    bytes: &'a [u8],
    left: usize,
    failure: Option<ErrorKind>,
}

impl Read for Trickle<'_> {
    fn read(&mut self, buf: &mut [u8]) -> io::Result<usize> {
        if self.bytes.len() == self.left {
            if let Some(kind) = self.failure.take() {
                return Err(io::Error::from(kind));
            }
        }
        match self.bytes {
            [first, rest @ ..] if !buf.is_empty() => {
                buf[0] = *first;
                self.bytes = rest;
                Ok(1)
            }
            _ => Ok(0),
        }
    }
}

/// Takes one byte at a time, but for one write where it has taken `room` bytes: that one fails, or takes nothing.
#[derive(Drop)]
struct Narrow {
    taken: usize,
    room: usize,
    failure: Option<ErrorKind>,
}

impl Write for Narrow {
    fn write(&mut self, buf: &[u8]) -> io::Result<usize> {
        if buf.is_empty() || self.taken == self.room {
            self.room = usize::MAX;
            return match self.failure {
                Some(kind) => Err(io::Error::from(kind)),
                None => Ok(0),
            };
        }
        self.taken = self.taken.saturating_add(1);
        Ok(1)
    }

    fn flush(&mut self) -> io::Result<()> {
        Ok(())
    }
}

/// How a device may fail: each is a failure like any other.
const KINDS: [ErrorKind; 4] = [
    ErrorKind::Interrupted,
    ErrorKind::WouldBlock,
    ErrorKind::ConnectionReset,
    ErrorKind::Other,
];

/// One read: how many bytes it gives, the first of them, and the device afterwards.
fn read_once(device: Trickle<'_>) -> (Result<usize, DeviceFailed>, u8, Trickle<'_>) {
    let mut source = Counted::new(device);
    let mut buffer = [0u8; 8];
    let count = source.read(&mut buffer);
    (count, buffer[0], source.into_device())
}

/// One write: how many bytes it takes, and the device afterwards.
fn write_once(device: Narrow, bytes: &[u8]) -> (Result<usize, DeviceFailed>, Narrow)
    requires { 0 < length bytes.now }
{
    let mut sink = Counted::new(device);
    let count = sink.write(bytes);
    (count, sink.into_device())
}

/// A read that fails, in whatever way, isn't tried again: the byte that it would have given comes with the next one.
#[test]
fn a_read_fails_once(rt: HostRuntime) {
    for kind in KINDS {
        let device = Trickle {
            bytes: &[7, 8],
            left: 1,
            failure: Some(kind),
        };
        let (count, byte, device) = read_once(device);
        assert!(rt; count == Ok(1) && byte == 7, "{kind:?}");
        let (count, _, device) = read_once(device);
        assert!(rt; count == Err(DeviceFailed), "{kind:?}");
        let (count, byte, device) = read_once(device);
        assert!(rt; count == Ok(1) && byte == 8, "{kind:?}");
        let (count, _, _) = read_once(device);
        assert!(rt; count == Ok(0), "{kind:?}");
    }
}

/// A write that fails, in whatever way, isn't tried again: nothing of its bytes is taken.
#[test]
fn a_write_fails_once(rt: HostRuntime) {
    for kind in KINDS {
        let device = Narrow {
            taken: 0,
            room: 1,
            failure: Some(kind),
        };
        let (count, device) = write_once(device, &[7, 8]);
        assert!(rt; count == Ok(1) && device.taken == 1, "{kind:?}");
        let (count, device) = write_once(device, &[8]);
        assert!(rt; count == Err(DeviceFailed) && device.taken == 1, "{kind:?}");
        let (count, device) = write_once(device, &[8]);
        assert!(rt; count == Ok(1) && device.taken == 2, "{kind:?}");
    }
}

/// A write that takes nothing, once, has failed: it isn't tried again either.
#[test]
fn a_write_that_takes_nothing_has_failed(rt: HostRuntime) {
    let device = Narrow {
        taken: 0,
        room: 0,
        failure: None,
    };
    let (count, device) = write_once(device, &[7]);
    assert!(rt; count == Err(DeviceFailed) && device.taken == 0);
    let (count, device) = write_once(device, &[7]);
    assert!(rt; count == Ok(1) && device.taken == 1);
}
