//! The end of the delegations that were called back, and not given back in time.

ghost use Rattle.std.specs.Prelude.{◌≡◌, List, ℕ, length};
ghost use Rattle.nfs_core.specs.Server.{IsLawful};
ghost use Rattle.nfs_leases.specs.Sweeps.{RevokesDue};
ghost use Rattle.nfs_owners.specs.ClientLaws.{HaveSameClients};

use crate::removals::Removals;
use nfs_core::{Core, live_clients_follow};
use nfs_state::Moment;

/// Revokes the delegations that are due at `now`, by rising numbers, until none is due or there is no room for an
/// entry.
pub(crate) fn revoke_due(core: &mut Core, now: Moment) -> Removals
    ensures revokes { (numbers : List ℕ)
        × (result.count ≡ length numbers)
        × RevokesDue now numbers result.stopped core.old core.new }
    ensures clients { HaveSameClients core.old.stored.clients core.new.stored.clients }
    ensures recalls { core.new.recalls ≡ core.old.recalls }
    ensures lawful { IsLawful core.new }
{
    live_clients_follow();
    core.journal();
    let mut count = 0;
    loop {
        match core.revoke(now) {
            Ok(Some(_)) => count += 1,
            Ok(None) => {
                return Removals {
                    count,
                    stopped: None,
                };
            }
            Err(error) => {
                return Removals {
                    count,
                    stopped: Some(error),
                };
            }
        }
    }
}
