//! A connection's reads and writes as one device, so that contracts can speak of their order.

ghost use Rattle.std.specs.Prelude.{◌≡◌, ℕ, ◌+◌, ◌-◌, ◌^◌, ◌<◌, ◌≤◌, length, take, IfOk, OnOk, OnErr};
ghost use Rattle.nfs_server.specs.Device.{Device};

use crate::{DeviceFailed, Sink, Source};

/// Where the bytes of a connection are read from and written to. It is one value, so that its reads and writes have one
/// common order.
pub trait Duplex {
    /// What the device's calls do.
    ghost device: { Device Self };
    /// How often a read has failed.
    ghost read_failures: { Self → ℕ };
    /// How often a write has failed.
    ghost write_failures: { Self → ℕ };

    /// Reads some bytes into the buffer, and returns how many: 0 is taken for the end of the input.
    fn read(&mut self, buffer: &mut [u8]) -> Result<usize, DeviceFailed>
        requires room { read_failures self.old < 2 ^ 64 - 1 }
        requires some { 0 < length buffer.old }
        ensures within { IfOk result (λ n. n ≤ length buffer.new) }
        ensures gives { IfOk result (λ n. device.gives self.old (take n buffer.new) self.new) }
        ensures fails { OnErr result (device.fails_to_read self.old self.new) }
        ensures ok { OnOk result (read_failures self.new ≡ read_failures self.old) }
        ensures failed { OnErr result (read_failures self.new ≡ read_failures self.old + 1) }
        ensures writes { write_failures self.new ≡ write_failures self.old };

    /// Writes one or more bytes from the front of these, and returns how many.
    fn write(&mut self, bytes: &[u8]) -> Result<usize, DeviceFailed>
        requires room { write_failures self.old < 2 ^ 64 - 1 }
        requires some { 0 < length bytes.now }
        ensures within { IfOk result (λ n. (0 < n) × (n ≤ length bytes.now)) }
        ensures takes { IfOk result (λ n. device.takes self.old (take n bytes.now) self.new) }
        ensures fails { OnErr result (device.fails_to_write self.old self.new) }
        ensures ok { OnOk result (write_failures self.new ≡ write_failures self.old) }
        ensures failed { OnErr result (write_failures self.new ≡ write_failures self.old + 1) }
        ensures reads { read_failures self.new ≡ read_failures self.old };
}

/// A borrowed source and a borrowed sink as one device.
#[derive(Drop)]
pub(crate) struct Pair<'a, R, W> {
    pub(crate) source: &'a mut R,
    pub(crate) sink: &'a mut W,
}

impl<'a, R: Source, W: Sink> Duplex for Pair<'a, R, W> {
    ghost use Rattle.nfs_server.specs.Pair.{device_of_pair};

    ghost device = { device_of_pair R.gives R.fails W.takes W.fails };

    ghost read_failures = { λ p. R.failures p.source.now };

    ghost write_failures = { λ p. W.failures p.sink.now };

    fn read(&mut self, buffer: &mut [u8]) -> Result<usize, DeviceFailed> {
        self.source.read(buffer)
    }

    fn write(&mut self, bytes: &[u8]) -> Result<usize, DeviceFailed> {
        self.sink.write(bytes)
    }
}
