//! The end of what is kept for open owners that have no open.

ghost use Rattle.std.specs.Prelude.{◌≡◌, List, length};
ghost use Rattle.nfs_core.specs.Events.{NoneIsDue};
ghost use Rattle.nfs_core.specs.Server.{IsLawful};
ghost use Rattle.nfs_forms.specs.declared.open_owner.OpenOwner.{OpenOwner};
ghost use Rattle.nfs_leases.specs.Sweeps.{ForgetsIdle, ForgetsUnless};
ghost use Rattle.nfs_owners.specs.ClientLaws.{HaveSameClients};

use crate::removals::Removals;
use nfs_core::{Core, CoreError, live_clients_follow};
use nfs_state::Moment;

/// Forgets the open owners that may be forgotten at `now`, unless the sweep has halted before, for this reason.
pub(crate) fn forget_unless(halted: Option<CoreError>, core: &mut Core, now: Moment) -> Removals
    ensures forgets { (owners : List OpenOwner)
        × (result.count ≡ length owners)
        × ForgetsUnless halted now owners result.stopped core.old core.new }
    ensures clients { HaveSameClients core.old.stored.clients core.new.stored.clients }
    ensures due { NoneIsDue core.old now → NoneIsDue core.new now }
    ensures recalls { core.new.recalls ≡ core.old.recalls }
    ensures lawful { IsLawful core.new }
{
    core.journal();
    match halted {
        Some(_) => Removals {
            count: 0,
            stopped: halted,
        },
        None => forget_idle(core, now),
    }
}

// Forgets the open owners that may be forgotten at `now`, in the order of the entries that recorded them, until none
// may be or there is no room for an entry. It goes on behind the last one, so that each owner is looked at once.
fn forget_idle(core: &mut Core, now: Moment) -> Removals
    ensures forgets { (owners : List OpenOwner)
        × (result.count ≡ length owners)
        × ForgetsIdle now owners result.stopped core.old core.new }
    ensures clients { HaveSameClients core.old.stored.clients core.new.stored.clients }
    ensures due { NoneIsDue core.old now → NoneIsDue core.new now }
    ensures recalls { core.new.recalls ≡ core.old.recalls }
    ensures lawful { IsLawful core.new }
{
    live_clients_follow();
    core.journal();
    let mut count = 0;
    let mut entry = 0;
    loop {
        match core.forget_from(entry, now) {
            Ok(Some(forgotten)) => {
                count += 1;
                entry = forgotten.recorded;
            }
            Ok(None) => {
                return Removals {
                    count,
                    stopped: None,
                };
            }
            Err(error) => {
                return Removals {
                    count,
                    stopped: Some(error),
                };
            }
        }
    }
}
