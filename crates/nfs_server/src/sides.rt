//! Joins a source and a sink into one device, such as standard input and output.

use crate::{DeviceFailed, Duplex, Sink, Source};

/// A source and a sink as one device.
#[derive(Drop)]
pub struct Sides<R, W> {
    pub source: R,
    pub sink: W,
}

impl<R: Source, W: Sink> Duplex for Sides<R, W> {
    ghost use Rattle.nfs_server.specs.Sides.{device_of};

    ghost device = { device_of R.gives R.fails W.takes W.fails };

    ghost read_failures = { λ s. R.failures s.source };

    ghost write_failures = { λ s. W.failures s.sink };

    fn read(&mut self, buffer: &mut [u8]) -> Result<usize, DeviceFailed> {
        self.source.read(buffer)
    }

    fn write(&mut self, bytes: &[u8]) -> Result<usize, DeviceFailed> {
        self.sink.write(bytes)
    }
}
