//! Readers and writers that count their failures, so that contracts can say that no failure was overlooked.

ghost use Rattle.std.specs.Prelude.{◌≡◌, ℕ, ◌+◌, ◌-◌, ◌^◌, ◌<◌, ◌≤◌, List, [], length, take, IfOk, OnOk, OnErr};
ghost use Rattle.std.specs.Io.KnownBytes.{Appends, Consumes, IsAtEnd, Keeps};

use std::io::{Read, Write};
use thiserror::Error;

/// A read or a write failed.
#[derive(Clone, Copy, Debug, PartialEq, Eq, Error)]
#[error("a device failed")]
pub struct DeviceFailed;

/// Where bytes are read from. It counts its failed reads.
pub trait Source {
    /// How a read may succeed: the state before, the bytes that it gives, and the state after. A read of no bytes is
    /// taken for the end of the input.
    ghost gives: { Self → List ℕ → Self → Type 0 };
    /// How a read may fail: the state before, and the state after.
    ghost fails: { Self → Self → Type 0 };
    /// How often a read has failed.
    ghost failures: { Self → ℕ };

    /// Reads some bytes into the buffer, and returns how many: 0 only at the end of the input.
    fn read(&mut self, buffer: &mut [u8]) -> Result<usize, DeviceFailed>
        requires room { failures self.old < 2 ^ 64 - 1 }
        requires some { 0 < length buffer.old }
        ensures within { IfOk result (λ n. n ≤ length buffer.new) }
        ensures gives { IfOk result (λ n. gives self.old (take n buffer.new) self.new) }
        ensures fails { OnErr result (fails self.old self.new) }
        ensures ok { OnOk result (failures self.new ≡ failures self.old) }
        ensures failed { OnErr result (failures self.new ≡ failures self.old + 1) };
}

/// Where bytes are written to. It counts its failed writes.
pub trait Sink {
    /// How a write may succeed: the state before, the bytes that it takes, and the state after.
    ghost takes: { Self → List ℕ → Self → Type 0 };
    /// How a write may fail: the state before, and the state after.
    ghost fails: { Self → Self → Type 0 };
    /// How often a write has failed.
    ghost failures: { Self → ℕ };

    /// Writes one or more bytes from the front of these, and returns how many.
    fn write(&mut self, bytes: &[u8]) -> Result<usize, DeviceFailed>
        requires room { failures self.old < 2 ^ 64 - 1 }
        requires some { 0 < length bytes.now }
        ensures within { IfOk result (λ n. (0 < n) × (n ≤ length bytes.now)) }
        ensures takes { IfOk result (λ n. takes self.old (take n bytes.now) self.new) }
        ensures fails { OnErr result (fails self.old self.new) }
        ensures ok { OnOk result (failures self.new ≡ failures self.old) }
        ensures failed { OnErr result (failures self.new ≡ failures self.old + 1) };
}

/// A device of std that counts its failed calls.
#[derive(Drop)]
pub struct Counted<D> {
    device: D,
    failures: u64,
}

impl<D> Counted<D> {
    /// The device, with no failed calls yet.
    pub fn new(device: D) -> Counted<D>
        ensures device { result.device ≡ device }
        ensures none { result.failures ≡ 0 }
    {
        Counted {
            device,
            failures: 0,
        }
    }

    /// Returns the device.
    pub fn into_device(self) -> D
        ensures { result ≡ self.device }
    {
        let Counted {
            device,
            failures: _,
        } = self;
        device
    }
}

impl<R: Read> Source for Counted<R> {
    // If the device's bytes are known, a read takes the bytes that it gives from their front.
    ghost gives = { λ old piece new.
        Consumes (R.remaining old.device) (R.remaining new.device) piece
        × (piece ≡ [] → IsAtEnd (R.remaining new.device)) };

    ghost fails = { λ old new. Keeps (R.remaining old.device) (R.remaining new.device) };

    ghost failures = { λ c. c.failures };

    fn read(&mut self, buffer: &mut [u8]) -> Result<usize, DeviceFailed> {
        match self.device.read(buffer) {
            Ok(n) => Ok(n),
            Err(_) => {
                self.failures += 1;
                Err(DeviceFailed)
            }
        }
    }
}

impl<W: Write> Sink for Counted<W> {
    // If the device's bytes are known, a write adds the bytes that it takes at their end.
    ghost takes = { λ old part new. Appends (W.contents old.device) (W.contents new.device) part };

    ghost fails = { λ old new. Keeps (W.contents old.device) (W.contents new.device) };

    ghost failures = { λ c. c.failures };

    fn write(&mut self, bytes: &[u8]) -> Result<usize, DeviceFailed> {
        match self.device.write(bytes) {
            Ok(n) if n > 0 => Ok(n),
            _ => {
                self.failures += 1;
                Err(DeviceFailed)
            }
        }
    }
}
