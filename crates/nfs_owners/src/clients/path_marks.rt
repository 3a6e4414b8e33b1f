//! What is known of the paths to the clients' callbacks.

ghost use Rattle.std.specs.Prelude.{◌≡◌};
ghost use Rattle.std.specs.Option.{option_copied};
ghost use Rattle.nfs_owners.specs.LiveClients.{IsNextUnknown};
ghost use Rattle.nfs_owners.specs.Registry.{with_mark};

use super::{Clients, state_of};
use crate::{ClientState, PathMark};

impl Clients {
    /// Marks the path of the client with this number, in its confirmed record. It takes no memory.
    pub fn mark(&mut self, number: u32, path: PathMark)
        ensures registry { self.new.registry ≡ with_mark number path self.old.registry }
        ensures room { (self.new.confirmed_room ≡ self.old.confirmed_room)
            × (self.new.unconfirmed_room ≡ self.old.unconfirmed_room) }
    {
        self.confirmed.mark(number, path);
    }

    /// What the confirmed record has of the live client with the least number above this one of whose path nothing is
    /// known, if there is one.
    pub fn next_unknown(&self, after: u32) -> Option<&ClientState>
        ensures { IsNextUnknown after self.now.registry (option_copied result) }
    {
        let number = self
            .confirmed
            .next_client(after, |record| record.has_unknown_path())?;
        state_of(self.confirmed.of_client(number))
    }
}
