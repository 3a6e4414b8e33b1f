//! Serves a connection from memory, in place of a socket.

ghost use Rattle.std.specs.Prelude.{◌≡◌, None, IfSome, IsSome};

use nfs_server::{Clock, Counted, ServeError, Sides};
use nfs_threads::Links;
use std::alloc::AllocError;
use std::io::Read;
use std::mem;

/// A link over memory to one connection.
#[derive(Drop)]
pub(crate) struct MemoryLink<'a, S, C> {
    parts: Option<MemoryParts<'a, S, C>>,
}

/// What the connection is over: a source that it reads from, a vector that its replies are appended to, and a clock.
#[derive(Drop)]
pub(crate) struct MemoryParts<'a, S, C> {
    pub(crate) source: S,
    pub(crate) replies: &'a mut Vec<u8>,
    pub(crate) clock: C,
}

impl<'a, S, C> MemoryLink<'a, S, C> {
    pub(crate) fn new(parts: MemoryParts<'a, S, C>) -> MemoryLink<'a, S, C> {
        MemoryLink { parts: Some(parts) }
    }
}

impl<'a, S: Read, C: Clock> MemoryParts<'a, S, C> {
    /// The device of the connection, and its clock.
    pub(crate) fn open(self) -> (Sides<Counted<S>, Counted<&'a mut Vec<u8>>>, C)
        ensures source { result.0.source.device ≡ self.entry.source }
        ensures clock { result.1 ≡ self.entry.clock }
        ensures reads { result.0.source.failures ≡ 0 }
        ensures writes { result.0.sink.failures ≡ 0 }
    {
        let MemoryParts {
            source,
            replies,
            clock,
        } = self;
        let device = Sides {
            source: Counted::new(source),
            sink: Counted::new(replies),
        };
        (device, clock)
    }
}

impl<'a, S: Read + Drop + Send, C: Clock + Drop + Send> Links for MemoryLink<'a, S, C> {
    type Device = Sides<Counted<S>, Counted<&'a mut Vec<u8>>>;

    type Clock = C;

    ghost opens = { λ old device clock new. IsSome old.parts × (new.parts ≡ None)
        × IfSome old.parts (λ p. (device.source.device ≡ p.source) × (clock ≡ p.clock)) };

    ghost stops = { λ old new. (old.parts ≡ None) × (new ≡ old) };

    fn next(&mut self) -> Option<(Sides<Counted<S>, Counted<&'a mut Vec<u8>>>, C)> {
        match mem::take(&mut self.parts) {
            Some(parts) => Some(parts.open()),
            None => None,
        }
    }

    fn wait_for_memory(&mut self) -> Result<bool, AllocError> {
        Err(AllocError)
    }

    fn end(&self, _outcome: Result<usize, ServeError>) {}
}
