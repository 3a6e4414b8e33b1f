//! Looks whether a client's path is up, for orders that wait for it.

use nfs_core::{Core, Entry, Journal};
use nfs_orders::ClientPath;
use nfs_state::Call;
use nfs_tree::Callbacks;
use nfs_xdr::{Op, Status};

/// A look for the mark of the path to a client's callbacks, as the journal goes on.
#[derive(Drop)]
pub(crate) struct PathSight {
    // What is looked for.
    path: ClientPath,
    // How many entries were looked at.
    seen: usize,
    // The value by which the client was confirmed last.
    confirm: Option<u64>,
    // Whether the path was marked as up since then, if it was marked.
    is_up: Option<bool>,
}

impl PathSight {
    /// For this path. Nothing was looked at.
    pub(crate) fn of(path: ClientPath) -> PathSight {
        PathSight {
            path,
            seen: 0,
            confirm: None,
            is_up: None,
        }
    }

    /// Looks at the rest of the journal, and returns whether the client is live and its path is marked so.
    pub(crate) fn finds(&mut self, core: &Core) -> bool {
        let journal = core.journal();
        self.look(journal);
        let at_first = match journal.policy().callbacks {
            Callbacks::Assume => Some(true),
            Callbacks::Probe => None,
        };
        core.live(self.path.client) && self.is_up.or(at_first) == Some(self.path.is_up)
    }

    fn look(&mut self, journal: &Journal) {
        for number in self.seen..journal.len() {
            match journal.entry(number) {
                Some(Entry::Path(path)) if path.client == self.path.client => {
                    self.is_up = Some(path.up);
                }
                Some(Entry::Call(call)) => self.see(call),
                _ => {}
            }
        }
        self.seen = journal.len();
    }

    // A confirmation that changes the client's record marks the path as at first. One that comes again changes nothing.
    fn see(&mut self, call: &Call) {
        let Op::SetclientidConfirm(args) = &call.request.op else {
            return;
        };
        let is_done = call.answer.status() == Status::Ok;
        if is_done && args.client.number == self.path.client && self.confirm != Some(args.confirm) {
            self.confirm = Some(args.confirm);
            self.is_up = None;
        }
    }
}
