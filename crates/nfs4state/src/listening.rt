//! Binds the TCP listener of `serve`, and tells its address, so that a script knows when and where to connect.

use crate::told::tell;
use jiff::Timestamp;
use libc::net::listen;
use nfs_options::ServeOptions;
use nfs_program::Fault;
use nfs_tree::{NodeKind, Tree};
use std::io;
use std::io::Eprint;
use std::net::{SocketAddr, TcpListener};
use std::os::fd::AsRawFd;
use std::time::Clock;

/// A listener, and the address that it got.
#[derive(Drop)]
pub(crate) struct Listening {
    pub(crate) listener: TcpListener,
    address: SocketAddr,
}

impl Listening {
    /// A listener at this address. Why there is none is told by a line.
    pub(crate) fn at(rt: &HostRuntime, address: &str) -> Result<Listening, Fault> {
        let bound = TcpListener::bind(rt, address);
        match bound.and_then(|listener| with_address(listener)) {
            Ok(listening) => Ok(listening),
            Err(error) if error.kind() == io::ErrorKind::OutOfMemory => Err(Fault::NoMemory),
            Err(error) => {
                tell(rt, address, error);
                Err(Fault::Socket)
            }
        }
    }

    /// Tells the address by a line on `errors`, so that a script knows when to connect, and to which port if the system
    /// chose it. A second line tells what is served, and the wall time of moment 0. An error in writing is ignored.
    pub(crate) fn tell<E: Eprint>(
        &self,
        errors: &E,
        clock: &impl Clock,
        tree: &Tree,
        options: &ServeOptions<'_>,
    ) {
        let nodes = tree.nodes().iter();
        let files = nodes
            .filter(|node| matches!(node.kind, NodeKind::File(_)))
            .count();
        let (lease, epoch) = (options.lease, options.epoch);
        let _ = eprintln!(errors; "listening on {}", self.address);
        let _ = match Timestamp::now(clock) {
            Ok(now) => eprintln!(errors;
                "serving {files} files, lease {lease} s, epoch {epoch}, moment 0 at {now:.3}"
            ),
            Err(_) => eprintln!(errors; "serving {files} files, lease {lease} s, epoch {epoch}"),
        };
    }
}

// The queue of connections that weren't accepted is as long as the system allows. Where it can't be, it stays as it is.
fn with_address(listener: TcpListener) -> io::Result<Listening> {
    let address = listener.local_addr()?;
    let _ = listen(listener.as_raw_fd(), i32::MAX);
    Ok(Listening { listener, address })
}
