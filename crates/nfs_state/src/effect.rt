//! What an entry does to the state: a change, and what the entry means for its owners.

ghost use Rattle.std.specs.Prelude.{◌≡◌, ◌↔◌, IsTrue};
ghost use Rattle.nfs_state.specs.Changes.{change_alone};
ghost use Rattle.nfs_state.specs.LiveChange.{live_change_of};

use crate::{Change, OwnerChange};
use nfs_owners::LiveChange;

/// What an entry of the journal does to the state: first what it means for the owners, and then the change.
#[derive(Drop)]
pub struct Effect {
    pub owner: OwnerChange,
    pub change: Change,
}

impl Effect {
    /// The change, of an entry that means nothing for the owners.
    pub fn change_alone(change: Change) -> Effect
        ensures { result ≡ change_alone change }
    {
        Effect {
            owner: OwnerChange::Nothing,
            change,
        }
    }

    /// Whether the effect changes nothing.
    pub(crate) fn is_nothing(&self) -> bool
        ensures { IsTrue result ↔ (self.now ≡ change_alone Change.Nothing) }
    {
        matches!(
            self,
            Effect {
                owner: OwnerChange::Nothing,
                change: Change::Nothing,
            }
        )
    }

    /// Which client becomes live by the effect, or is live no longer.
    pub fn live(&self) -> LiveChange
        ensures { result ≡ live_change_of self.now.change }
    {
        self.change.live()
    }
}
