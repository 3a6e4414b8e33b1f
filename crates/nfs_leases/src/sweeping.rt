//! The sweep through the leases of all live clients, and then the delegations and open owners that are due.

ghost use Rattle.std.specs.Prelude.{◌≡◌, List, ℕ, IsTrue};
ghost use Rattle.nfs_core.specs.LiveClients.{AreOfOneRun};
ghost use Rattle.nfs_core.specs.Server.{IsLawful};
ghost use Rattle.nfs_owners.specs.Registry.{is_live};
ghost use Rattle.nfs_leases.specs.BookEvent.{AllHappen};
ghost use Rattle.nfs_leases.specs.BookOf.{IsBookOf};
ghost use Rattle.nfs_leases.specs.Sweeps.{EndsClients, Sweeps, leased_server, none_swept, tally};
ghost use Rattle.nfs_leases.specs.Visit.{Gains, IsRightBy, Visit, events_by, expiries};
ghost use Rattle.nfs_state.specs.Stored.{meaning};

use crate::forgetting::forget_unless;
use crate::revoking::revoke_due;
use crate::visit_case::VisitCase;
use crate::{Closing, LeaseBook, LeaseState, Swept};
use nfs_core::{Core, Event, live_clients_follow};
use nfs_state::{Expire, Moment, is_over};

/// Goes through the live clients, by rising numbers, and removes each whose lease is over at `now`: from the book,
/// where the lease is still as it was seen, and then from the core. A client whose lease isn't over stays, and so does
/// one whose lease was renewed meanwhile, or for whose entry there is no room. Then it revokes the delegations that are
/// due, and then forgets the open owners that may be forgotten, until none is left of both, or there is no room for an
/// entry.
pub fn sweep_core<B: LeaseBook>(core: &mut Core, book: &mut B, now: Moment) -> Swept
    requires agrees { IsBookOf (B.is_open book.old) (B.was_opened book.old) (B.lease book.old)
        core.old }
    ensures sweeps { Sweeps B.happens now (leased_server core.old book.old) result
        (leased_server core.new book.new) }
    ensures recalls { core.new.recalls ≡ core.old.recalls }
    ensures agrees { IsBookOf (B.is_open book.new) (B.was_opened book.new) (B.lease book.new)
        core.new }
    ensures lawful { IsLawful core.new }
{
    let swept = end_clients(core, book, now);
    let revoked = revoke_due(core, now);
    let forgotten = forget_unless(revoked.stopped, core, now);
    Swept {
        revoked: revoked.count,
        forgotten: forgotten.count,
        stopped: forgotten.stopped,
        ..swept
    }
}

// Goes through the live clients, and removes each whose lease is over.
fn end_clients<B: LeaseBook>(core: &mut Core, book: &mut B, now: Moment) -> Swept
    requires agrees { IsBookOf (B.is_open book.old) (B.was_opened book.old) (B.lease book.old)
        core.old }
    ensures ends { (visits : List Visit)
        × (result ≡ tally none_swept visits)
        × EndsClients B.happens now visits (leased_server core.old book.old)
        (leased_server core.new book.new) }
    ensures recalls { core.new.recalls ≡ core.old.recalls }
    ensures agrees { IsBookOf (B.is_open book.new) (B.was_opened book.new) (B.lease book.new)
        core.new }
    ensures lawful { IsLawful core.new }
{
    live_clients_follow();
    let mut swept = Swept::NONE;
    let mut next = core.next_live(0);
    while let Some(client) = next {
        swept = swept.and(visit_of(core, book, client, now));
        next = core.next_live(client);
    }
    swept
}

// Treats one live client: where its lease is over and there is room for an entry, the lease is closed, if it is still
// as it was seen, and then the client is removed from the core.
fn visit_of<B: LeaseBook>(core: &mut Core, book: &mut B, client: u32, now: Moment) -> VisitCase
    requires live { IsTrue (is_live client core.old.stored.clients) }
    requires run { AreOfOneRun core.old.journal (meaning core.old.stored) }
    requires agrees { IsBookOf (B.is_open book.old) (B.was_opened book.old) (B.lease book.old)
        core.old }
    ensures visit { (seen : ℕ)
        × IsRightBy result seen now core.old
        × AllHappen B.happens book.old (events_by result client seen now) book.new
        × Gains (expiries (events_by result client seen now)) core.old core.new }
    ensures recalls { core.new.recalls ≡ core.old.recalls }
{
    let LeaseState::Open(seen) = book.look(client) else {
        unreachable!()
    };
    if !is_over(seen, core.journal().lease(), now) {
        return VisitCase::Kept;
    }
    if core.prepare().is_err() {
        return VisitCase::Refused;
    }
    match book.close(client, seen, now) {
        Closing::Changed => VisitCase::Changed,
        Closing::Closed => match core.enter(Event::Expire(Expire { client, seen, now })) {
            Ok(_) => VisitCase::Expired,
            Err(_) => unreachable!(),
        },
    }
}
