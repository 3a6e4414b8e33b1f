//! What who sweeps does to the shared state by an order. No clause says that the lock guarded the value that a function
//! tells of, but that it may have.
ghost use Rattle.std.specs.Prelude.{◌≡◌, ◌+◌, IfErr, IfOk, OnErr, OnOk};
ghost use Rattle.nfs_core.specs.Events.{IsNotEntered, path_of};
ghost use Rattle.nfs_core.specs.Server.{Enters, Server};
ghost use Rattle.nfs_core.specs.declared.event.Event.TheVariants as events;
ghost use Rattle.nfs_shared.specs.Held.{HeldView, SweeperMayFind};
ghost use Rattle.nfs_state.specs.declared.entry.Entry.TheVariants as entries;

use super::Shared;
use crate::held::enter_ordered;
use crate::naming::Naming;
use crate::sweeper::Sweeper;
use nfs_core::{CoreError, Event};
use nfs_state::Path;
use std::sync::Wait;

impl<N: Naming> Shared<N> {
    /// Marks whether callbacks reach this client, as `mark_path` does, where that is ordered and no callback told it.
    /// The entry is the sweeper's.
    pub fn mark_ordered<R: Wait>(
        &self,
        rt: &R,
        sweeper: &mut Sweeper<N>,
        client: u32,
        up: bool,
    ) -> Result<u32, CoreError>
        ensures count { OnOk result (sweeper.new.count ≡ sweeper.old.count + 1) }
        ensures uncounted { OnErr result (sweeper.new ≡ sweeper.old) }
        ensures marks { IfOk result (λ number. (held : HeldView)
            × SweeperMayFind N.start sweeper.old held
            × ((new : Server) × Enters held.server new (entries.Path (path_of client up)) number)) }
        ensures error { IfErr result (λ e. (held : HeldView) × SweeperMayFind N.start sweeper.old held
            × IsNotEntered held.server (events.Path (path_of client up)) e) }
    {
        let mut hold = self.hold(rt);
        enter_ordered(&mut *hold.guard, sweeper, Event::Path(Path { client, up }))
    }
}
