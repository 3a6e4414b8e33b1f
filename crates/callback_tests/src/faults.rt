//! Why a path is marked as down: each reason, by the bytes of RFC 5531 (section 9) or by what the connection does.

use crate::peer::{ACCEPTED, Peer, read_recall, write_reply};
use nfs_callbacks::Fault;
use std::io;
use std::io::Write;
use std::net::TcpStream;
use std::time::{Clock, Duration};

// Replies without their xids: accept_stat after an AUTH_NONE verifier, or reject_stat.
const PROG_UNAVAIL: [u8; 20] = [0, 0, 0, 1, 0, 0, 0, 0, 0, 0, 0, 0, 0, 0, 0, 0, 0, 0, 0, 1];

const PROG_MISMATCH: [u8; 28] = [
    0, 0, 0, 1, 0, 0, 0, 0, 0, 0, 0, 0, 0, 0, 0, 0, 0, 0, 0, 2, 0, 0, 0, 4, 0, 0, 0, 4,
];

const PROC_UNAVAIL: [u8; 20] = [0, 0, 0, 1, 0, 0, 0, 0, 0, 0, 0, 0, 0, 0, 0, 0, 0, 0, 0, 3];

const GARBAGE_ARGS: [u8; 20] = [0, 0, 0, 1, 0, 0, 0, 0, 0, 0, 0, 0, 0, 0, 0, 0, 0, 0, 0, 4];

const SYSTEM_ERR: [u8; 20] = [0, 0, 0, 1, 0, 0, 0, 0, 0, 0, 0, 0, 0, 0, 0, 0, 0, 0, 0, 5];

const RPC_MISMATCH: [u8; 20] = [0, 0, 0, 1, 0, 0, 0, 1, 0, 0, 0, 0, 0, 0, 0, 2, 0, 0, 0, 2];

const AUTH_ERROR: [u8; 16] = [0, 0, 0, 1, 0, 0, 0, 1, 0, 0, 0, 1, 0, 0, 0, 1];

// SUCCESS with NFS4ERR_BADHANDLE, 10001, no tag and no results.
const BAD_HANDLE: [u8; 32] = [
    0, 0, 0, 1, 0, 0, 0, 0, 0, 0, 0, 0, 0, 0, 0, 0, 0, 0, 0, 0, 0, 0, 0x27, 0x11, 0, 0, 0, 0, 0, 0,
    0, 0,
];

// A call where a reply should be.
const CALL: [u8; 4] = [0, 0, 0, 0];

/// A reply that doesn't accept the call says why.
#[test]
fn replies(rt: HostRuntime) -> io::Result<()> {
    let mut peer = Peer::new(&rt)?;
    let faults = replied(&rt, &mut peer);
    drop(peer);
    let wanted = [
        Fault::ProgUnavail,
        Fault::ProgMismatch,
        Fault::ProcUnavail,
        Fault::GarbageArgs,
        Fault::SystemError,
        Fault::RpcMismatch,
        Fault::AuthError,
        Fault::Status(10_001),
        Fault::Unreadable,
    ];
    assert!(&rt; faults? == wanted.map(Some));
    Ok(())
}

fn replied(rt: &HostRuntime, peer: &mut Peer<'_>) -> io::Result<[Option<Fault>; 9]> {
    Ok([
        fault_after(rt, peer, &PROG_UNAVAIL)?,
        fault_after(rt, peer, &PROG_MISMATCH)?,
        fault_after(rt, peer, &PROC_UNAVAIL)?,
        fault_after(rt, peer, &GARBAGE_ARGS)?,
        fault_after(rt, peer, &SYSTEM_ERR)?,
        fault_after(rt, peer, &RPC_MISMATCH)?,
        fault_after(rt, peer, &AUTH_ERROR)?,
        fault_after(rt, peer, &BAD_HANDLE)?,
        fault_after(rt, peer, &CALL)?,
    ])
}

// Why a recall failed whose reply has these bytes behind its xid.
fn fault_after(rt: &HostRuntime, peer: &mut Peer<'_>, rest: &[u8]) -> io::Result<Option<Fault>> {
    let (stream, xid) = called(rt, peer)?;
    write_reply(&stream, xid, rest)?;
    peer.look(rt);
    Ok(peer.toy().fault.take())
}

// A recall that the client was sent: its connection, and its xid.
fn called(rt: &HostRuntime, peer: &mut Peer<'_>) -> io::Result<(TcpStream, u32)> {
    let addr = peer.address(rt)?;
    peer.toy().recall(rt.alloc(), 1, 11, addr.as_str())?;
    let stream = peer.accept(rt)?;
    let (xid, _) = read_recall(&stream)?;
    Ok((stream, xid))
}

/// A connection that is closed, a reply to another call, and a reply that is too long.
#[test]
fn connections(rt: HostRuntime) -> io::Result<()> {
    let mut peer = Peer::new(&rt)?;
    let faults = unreplied(&rt, &mut peer);
    drop(peer);
    let wanted = [Fault::Closed, Fault::OtherXid, Fault::TooLong];
    assert!(&rt; faults? == wanted.map(Some));
    Ok(())
}

fn unreplied(rt: &HostRuntime, peer: &mut Peer<'_>) -> io::Result<[Option<Fault>; 3]> {
    let (stream, _) = called(rt, peer)?;
    drop(stream);
    peer.look(rt);
    let closed = peer.toy().fault.take();
    let (stream, xid) = called(rt, peer)?;
    write_reply(&stream, xid.wrapping_add(1), &ACCEPTED)?;
    peer.look(rt);
    let other = peer.toy().fault.take();
    let (mut stream, _) = called(rt, peer)?;
    stream.write_all(&[0x80, 0, 0x20, 0])?;
    peer.look(rt);
    Ok([closed, other, peer.toy().fault.take()])
}

/// An address that can't be read, and one where nobody listens.
#[test]
fn addresses(rt: HostRuntime) -> io::Result<()> {
    let mut peer = Peer::new(&rt)?;
    let faults = unreached(&rt, &mut peer);
    drop(peer);
    let wanted = [Fault::NoAddress, Fault::ConnectionRefused];
    assert!(&rt; faults? == wanted.map(Some));
    Ok(())
}

fn unreached(rt: &HostRuntime, peer: &mut Peer<'_>) -> io::Result<[Option<Fault>; 2]> {
    let addr = peer.address(rt)?;
    peer.close(rt)?;
    peer.toy().recall(rt.alloc(), 1, 11, "127.0.0.1.8")?;
    peer.look(rt);
    let unread = peer.toy().fault.take();
    peer.toy().recall(rt.alloc(), 2, 12, addr.as_str())?;
    peer.look(rt);
    peer.look(rt);
    Ok([unread, peer.toy().fault.take()])
}

// A clock that says so many milliseconds.
#[derive(Drop)]
struct Stopped {
    millis: u64,
}

impl Clock for Stopped {
    fn monotonic(&self) -> io::Result<Duration> {
        Ok(Duration::from_millis(self.millis))
    }

    fn since_1970(&self) -> io::Result<Duration> {
        Ok(Duration::from_millis(self.millis))
    }
}

/// The state takes notice once of a call that has had no reply for five seconds, and the call goes on.
#[test]
fn no_reply_yet(rt: HostRuntime) -> io::Result<()> {
    let mut peer = Peer::new(&rt)?;
    let noticed = noticed(&rt, &mut peer);
    let (fault, is_marked) = (peer.toy().fault, !peer.toy().marks.is_empty());
    drop(peer);
    assert!(&rt; noticed? == [None, None, Some(1u32), None] && fault.is_none() && !is_marked);
    Ok(())
}

// Of which client notice is taken as the call begins, before five seconds are over, after them, and later.
fn noticed(rt: &HostRuntime, peer: &mut Peer<'_>) -> io::Result<[Option<u32>; 4]> {
    let addr = peer.address(rt)?;
    peer.toy().recall(rt.alloc(), 1, 11, addr.as_str())?;
    Ok([
        noticed_at(peer, 1_000),
        noticed_at(peer, 5_999),
        noticed_at(peer, 6_000),
        noticed_at(peer, 20_000),
    ])
}

// Of which client notice is taken in a look at this time.
fn noticed_at(peer: &mut Peer<'_>, millis: u64) -> Option<u32> {
    peer.caller.look(&Stopped { millis }, Duration::ZERO);
    peer.toy().noticed.take()
}
