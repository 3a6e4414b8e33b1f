//! RENEW, and the renewal of a lease by other operations.

ghost use Rattle.std.specs.Prelude.{◌≡◌};
ghost use Rattle.nfs_core.specs.Server.{Server};
ghost use Rattle.nfs_leases.specs.BookOf.{IsBookOf};
ghost use Rattle.nfs_leases.specs.PlainBook.{has_open_lease, is_open_in, was_opened_in, with_renewal};
ghost use Rattle.nfs_leases.specs.Renewals.{renewal_answer, renewed_by};

use crate::{LeaseBook, PlainLeases, Renewal};
use nfs_state::Moment;
use nfs_xdr::{Answer, Op, Refusal};

/// The number of the client whose lease the operation renews, in the server's run with this epoch: that of the client
/// that it names, if that is one of this run (RFC 7530, section 9.5).
pub fn renewed_client(op: &Op, epoch: u32) -> Option<u32>
    ensures { result ≡ renewed_by epoch op.now }
{
    let client = op.names().client()?;
    client.number_in(epoch)
}

/// What RENEW is answered, by whether the lease is open (RFC 7530, section 16.28).
pub fn renewal_answer(is_open: bool) -> Answer<()>
    ensures { result ≡ renewal_answer is_open }
{
    if is_open {
        Answer::Done(())
    } else {
        Answer::Refused(Refusal::StaleClientId)
    }
}

/// Renews the lease of the client with this number, if there is one. Returns whether the lease is open. The book has
/// the leases of the same core as before.
pub fn renew_lease(book: &mut PlainLeases, client: Option<u32>, moment: Moment) -> bool
    ensures book { book.new ≡ with_renewal client moment book.old }
    ensures open { result ≡ has_open_lease book.old client }
    ensures kept { (core : Server)
        → IsBookOf (is_open_in book.old) (was_opened_in book.old) book.old.lease core
        → IsBookOf (is_open_in book.new) (was_opened_in book.new) book.new.lease core }
{
    match client {
        Some(client) => matches!(book.renew(client, moment), Renewal::Renewed),
        None => false,
    }
}
