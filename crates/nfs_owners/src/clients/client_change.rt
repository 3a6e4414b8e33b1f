//! What SETCLIENTID and SETCLIENTID_CONFIRM change, decided before anything is changed.

use crate::{ClientRecord, LiveChange};
use nfs_xdr::ClientId;

/// What a call changes in the clients' records.
#[derive(Drop)]
pub enum ClientChange {
    Nothing,
    /// Adds this unconfirmed record, with the next number of a slot and the next confirm value. An unconfirmed record
    /// of the slot gives way.
    Arrives(ClientRecord),
    /// Adds this unconfirmed record, with the clientid that its client has and the next confirm value.
    Updates(ClientRecord),
    /// Adds this confirmed record of an id that has none: its client becomes live.
    Confirms(ClientRecord),
    /// Adds this confirmed record in place of another of the same client, which is confirmed anew.
    Refreshes(ClientRecord),
    /// Adds this confirmed record in place of that of the client with this clientid.
    Replaces(ClientRecord, ClientId),
}

impl ClientChange {
    ghost use Rattle.std.specs.Prelude.{◌≡◌};
    ghost use Rattle.nfs_owners.specs.LiveChange.{live_change};

    /// Which client becomes live by the change, or is live no longer.
    pub fn live(&self) -> LiveChange
        ensures { result ≡ live_change self.now }
    {
        match self {
            ClientChange::Nothing
            | ClientChange::Arrives(_)
            | ClientChange::Updates(_)
            | ClientChange::Refreshes(_) => LiveChange::Same,
            ClientChange::Confirms(record) => LiveChange::Comes(record.state.client.number),
            ClientChange::Replaces(record, client) => LiveChange::Replaces {
                comes: record.state.client.number,
                goes: client.number,
            },
        }
    }
}
