//! The leases follow who became live, and who isn't live any more.

ghost use Rattle.nfs_leases.specs.BookEvent.{AllHappen};
ghost use Rattle.nfs_leases.specs.BookOf.{CanFollow, events_of_change};

use crate::LeaseBook;
use nfs_owners::LiveChange;
use nfs_state::Moment;

/// Opens the lease of the client that became live, and retires that of the client that isn't live any more.
pub(crate) fn follow<B: LeaseBook>(book: &mut B, change: LiveChange, moment: Moment)
    requires { CanFollow (B.is_open book.old) (B.was_opened book.old) change }
    ensures { AllHappen B.happens book.old (events_of_change change moment) book.new }
{
    match change {
        LiveChange::Same => {}
        LiveChange::Comes(client) => book.open(client, moment),
        LiveChange::Replaces { comes, goes } => {
            book.open(comes, moment);
            book.retire(goes);
        }
        LiveChange::Goes(client) => book.retire(client),
    }
}
