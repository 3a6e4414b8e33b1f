//! TCP connections whose reads and writes end with the run, and whose last replies aren't lost when they are closed.

ghost use Rattle.std.specs.Prelude.{◌≡◌, ◌<◌, ◌≤◌, None, Some, IfOk, IfSome, IsSome, OnOk, length};
ghost use Rattle.nfs_threads.specs.Sockets.{HasFailed, KeepsConnection};

use crate::bell::Bell;
use nfs_server::{DeviceFailed, Duplex};
use std::io;
use std::io::{Error, ErrorKind, Read, Write};
use std::net::{Shutdown, TcpListener, TcpStream};
use std::sync::Wait;
use std::time::Duration;

// How many reads are made of a connection that has ended. So at most 4 MiB are read of a peer that goes on sending, and
// one that sends a little now and then keeps its worker for half a minute.
const LAST_READS: u32 = 64;

// The greatest number of bytes that one of them takes.
const LAST_PIECE_LEN: usize = 65_536;

// For how many milliseconds one of them may wait; and once the run has ended.
const LAST_WAIT_MILLIS: u64 = 500;

const SHORT_WAIT_MILLIS: u64 = 10;

// How many reads there may be of a connection once the run has ended: what had come by then is still answered.
const READS_AFTER_END: u32 = 64;

/// A connection of a listener. Where it isn't accepted yet, it is by the first read, which waits for it. Its reads and
/// writes look whether the run has ended as often as they come back. Where it is dropped it is closed, but not before
/// what its peer still sends is read, within bounds.
pub struct Socket<'a, R> {
    rt: &'a R,
    bell: &'a Bell,
    listener: Option<&'a TcpListener>,
    stream: Option<TcpStream>,
    // How many more reads there may be once the run has ended.
    reads_left: u32,
    read_failures: u64,
    write_failures: u64,
}

impl<'a, R> Socket<'a, R> {
    /// The next connection that comes to the listener.
    pub(crate) fn to_accept(rt: &'a R, bell: &'a Bell, listener: &'a TcpListener) -> Socket<'a, R>
        ensures listener { result.listener ≡ Some listener.entry }
        ensures none { result.stream ≡ None }
        ensures reads { result.read_failures ≡ 0 }
        ensures writes { result.write_failures ≡ 0 }
    {
        Socket {
            rt,
            bell,
            listener: Some(listener),
            stream: None,
            reads_left: READS_AFTER_END,
            read_failures: 0,
            write_failures: 0,
        }
    }

    /// A connection that was accepted.
    pub(crate) fn of_stream(rt: &'a R, bell: &'a Bell, stream: TcpStream) -> Socket<'a, R>
        ensures none { result.listener ≡ None }
        ensures stream { IsSome result.stream }
        ensures reads { result.read_failures ≡ 0 }
        ensures writes { result.write_failures ≡ 0 }
    {
        Socket {
            rt,
            bell,
            listener: None,
            stream: Some(stream),
            reads_left: READS_AFTER_END,
            read_failures: 0,
            write_failures: 0,
        }
    }

    // The connection, which is accepted if that wasn't done.
    fn accept(&mut self) -> io::Result<()>
        ensures keeps { KeepsConnection self.old self.new }
        ensures failures { HasFailed 0 0 self.old self.new }
        ensures some { OnOk result (IsSome self.new.stream) }
    {
        if self.stream.is_some() {
            return Ok(());
        }
        let Some(listener) = self.listener else {
            return Err(Error::from(ErrorKind::NotConnected));
        };
        let (stream, _) = listener.accept()?;
        // Replies go out at once. Without this they only come later.
        let _ = stream.set_nodelay(true);
        self.stream = Some(stream);
        Ok(())
    }

    // Whether a further read may be made. Once the run has ended, there are some more.
    fn may_read(&mut self) -> bool
        ensures keeps { KeepsConnection self.old self.new }
        ensures failures { HasFailed 0 0 self.old self.new }
        ensures stream { self.new.stream ≡ self.old.stream }
    {
        if !self.bell.is_rung() {
            return true;
        }
        if self.reads_left == 0 {
            return false;
        }
        self.reads_left -= 1;
        true
    }
}

impl<'a, R: Wait> Socket<'a, R> {
    fn receive(&mut self, buffer: &mut [u8]) -> io::Result<usize>
        ensures within { IfOk result (λ n. n ≤ length buffer.new) }
        ensures keeps { KeepsConnection self.old self.new }
        ensures failures { HasFailed 0 0 self.old self.new }
        ensures some { OnOk result (IsSome self.new.stream) }
    {
        self.accept()?;
        if !self.may_read() {
            return Ok(0);
        }
        match &self.stream {
            Some(stream) => read_waiting(self.rt, self.bell, stream, buffer),
            None => unreachable!(),
        }
    }

    // A connection that wasn't accepted yet takes nothing.
    fn send(&self, bytes: &[u8]) -> Option<usize>
        ensures within { IfSome result (λ n. (0 < n) × (n ≤ length bytes.now)) }
        ensures some { IsSome result → IsSome self.now.stream }
    {
        match &self.stream {
            Some(stream) => write_waiting(self.rt, self.bell, stream, bytes),
            None => None,
        }
    }
}

// Reads some bytes. A read that comes back with nothing is made again, unless the run had ended before it: then the
// input is over.
fn read_waiting<R: Wait>(
    rt: &R,
    bell: &Bell,
    stream: &TcpStream,
    buffer: &mut [u8],
) -> io::Result<usize>
    ensures within { IfOk result (λ n. n ≤ length buffer.new) }
{
    for _ in rt.forever() {
        let is_last = bell.is_rung();
        if is_last {
            let _ = stream.set_read_timeout(Some(Duration::from_millis(SHORT_WAIT_MILLIS)));
        }
        match read_from(stream, buffer) {
            Err(error) if comes_back(&error) => {}
            result => return result,
        }
        if is_last {
            return Ok(0);
        }
    }
    unreachable!()
}

// Writes some bytes. A write that comes back with nothing is made again, unless the run had ended before it. One that
// takes nothing is a failure.
fn write_waiting<R: Wait>(rt: &R, bell: &Bell, stream: &TcpStream, bytes: &[u8]) -> Option<usize>
    ensures within { IfSome result (λ n. (0 < n) × (n ≤ length bytes.now)) }
{
    for _ in rt.forever() {
        let is_last = bell.is_rung();
        if is_last {
            let _ = stream.set_write_timeout(Some(Duration::from_millis(SHORT_WAIT_MILLIS)));
        }
        match write_to(stream, bytes) {
            Err(error) if comes_back(&error) && !is_last => {}
            Ok(n) if n > 0 => return Some(n),
            _ => return None,
        }
    }
    unreachable!()
}

// Whether a call came back only since its time was over, or since the process was stopped and continued.
fn comes_back(error: &Error) -> bool {
    matches!(error.kind(), ErrorKind::WouldBlock | ErrorKind::Interrupted)
}

fn read_from(mut stream: &TcpStream, buffer: &mut [u8]) -> io::Result<usize>
    ensures within { IfOk result (λ n. n ≤ length buffer.new) }
{
    stream.read(buffer)
}

fn write_to(mut stream: &TcpStream, bytes: &[u8]) -> io::Result<usize>
    ensures within { IfOk result (λ n. n ≤ length bytes.now) }
{
    stream.write(bytes)
}

// Tells the peer that no more replies come, and reads what it still sends until it has ended that, too, within the
// bounds above. For where a connection is closed with bytes unread, as after a record that is too long, the system
// resets it, and replies that are on their way may be lost.
fn read_out(bell: &Bell, stream: &TcpStream) {
    if stream.shutdown(Shutdown::Write).is_err() {
        return;
    }
    let mut buffer = [0u8; LAST_PIECE_LEN];
    for _ in 0..LAST_READS {
        let most = if bell.is_rung() {
            SHORT_WAIT_MILLIS
        } else {
            LAST_WAIT_MILLIS
        };
        // Without a bound on the waits, a silent peer would be waited for.
        if stream
            .set_read_timeout(Some(Duration::from_millis(most)))
            .is_err()
        {
            return;
        }
        match read_from(stream, &mut buffer) {
            Ok(n) if n > 0 => {}
            Err(error) if error.kind() == ErrorKind::Interrupted => {}
            _ => return,
        }
    }
}

impl<R> Drop for Socket<'_, R> {
    fn drop(self) {
        let Socket {
            rt: _,
            bell,
            listener: _,
            stream,
            reads_left: _,
            read_failures: _,
            write_failures: _,
        } = self;
        if let Some(stream) = stream {
            read_out(bell, &stream);
        }
    }
}

impl<'a, R: Wait> Duplex for Socket<'a, R> {
    ghost use Rattle.nfs_threads.specs.Sockets.{socket_device};

    ghost device = { socket_device };

    ghost read_failures = { λ s. s.read_failures };

    ghost write_failures = { λ s. s.write_failures };

    fn read(&mut self, buffer: &mut [u8]) -> Result<usize, DeviceFailed> {
        match self.receive(buffer) {
            Ok(n) => Ok(n),
            Err(_) => {
                self.read_failures += 1;
                Err(DeviceFailed)
            }
        }
    }

    fn write(&mut self, bytes: &[u8]) -> Result<usize, DeviceFailed> {
        match self.send(bytes) {
            Some(n) => Ok(n),
            None => {
                self.write_failures += 1;
                Err(DeviceFailed)
            }
        }
    }
}
