//! The trait of a run's observer, which writes lines and keeps files without this crate.

use crate::Peer;
use nfs_callbacks::Fault;
use nfs_core::Core;
use nfs_orders::{Answer, OrderError};
use nfs_server::ServeError;
use nfs_xdr::Callback;

/// Watches a run while it goes on. What it does changes nothing of the run.
pub trait Watcher {
    /// Is told how the connection of this peer has ended.
    fn tell_end(&self, peer: Peer, outcome: Result<usize, ServeError>);

    /// Is told, once, that each worker has a connection, so that no further one is taken for now.
    fn tell_full(&self, workers: u32);

    /// Is told, once, that the system gave an error in place of a connection.
    fn tell_refusal(&self);

    /// Is told, once, that the system made no thread for a worker, so that only so many have begun. It is tried again.
    fn tell_thread_refused(&self, begun: u32, workers: u32);

    /// Is told that all workers have begun, after a thread was refused.
    fn tell_all_begun(&self, workers: u32);

    /// Is told why a call to this client, at this address, failed, so that its callback path is down.
    fn tell_path_down(&self, client: u32, callback: &Callback, fault: Fault);

    /// Is told, once for a call, that it has had no reply from this client for five seconds. The call goes on.
    fn tell_no_reply(&self, client: u32, callback: &Callback);

    /// Looks at the core, about ten times a second, while the lock is held. Returns whether there is something to write
    /// down, and with it another look at once.
    fn look(&self, core: &Core) -> bool;

    /// Writes down what was seen, while the lock is free.
    fn write_down(&self);

    /// How many of the journal's entries are written down, or why they aren't.
    fn count_written(&self) -> Result<usize, OrderError>;

    /// Is told what came of an order.
    fn tell_answer(&self, answer: Answer);
}

/// The watcher of a run that nobody watches.
#[derive(Drop)]
pub(crate) struct Nobody;

impl Watcher for Nobody {
    fn tell_end(&self, _peer: Peer, _outcome: Result<usize, ServeError>) {}

    fn tell_full(&self, _workers: u32) {}

    fn tell_refusal(&self) {}

    fn tell_thread_refused(&self, _begun: u32, _workers: u32) {}

    fn tell_all_begun(&self, _workers: u32) {}

    fn tell_path_down(&self, _client: u32, _callback: &Callback, _fault: Fault) {}

    fn tell_no_reply(&self, _client: u32, _callback: &Callback) {}

    fn look(&self, _core: &Core) -> bool {
        false
    }

    fn write_down(&self) {}

    fn count_written(&self) -> Result<usize, OrderError> {
        Err(OrderError::NoJournal)
    }

    fn tell_answer(&self, _answer: Answer) {}
}
