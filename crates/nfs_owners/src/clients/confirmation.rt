//! The rule of SETCLIENTID_CONFIRM.

ghost use Rattle.std.specs.Prelude.{◌≡◌, IfOk, IsTrue, OnErr};
ghost use Rattle.std.specs.Option.{option_copied};
ghost use Rattle.nfs_owners.specs.ClientRoom.{FitsRecords, HasNumbersFor, adds_record};
ghost use Rattle.nfs_owners.specs.Confirmation.{confirmation, confirmation_before, confirmation_beside, confirmation_by, confirmed_record, holder_of, updated_record};
ghost use Rattle.nfs_owners.specs.Registry.{client_seen, confirmed_named_by, confirmed_of, record_state, unconfirmed_named_by};
ghost use Rattle.nfs_owners.specs.declared.client_record.PathMark.{PathMark};

use super::{ClientChange, Clients};
use crate::copy_of_bytes::copy_of_bytes;
use crate::{ClientRecord, ClientRef, ClientState, PathMark};
use nfs_operations::setclientid_confirm::{Outcome, SetclientidConfirm};
use nfs_xdr::{Principal, Refusal};
use std::alloc::{AllocError, Global};

impl Clients {
    /// The answer of SETCLIENTID_CONFIRM (RFC 7530, section 16.34.5), and its change of the clients' records.
    /// `has_state` is whether the client of the confirmed record with the same id has state, and `path` is the mark for
    /// the path of a client that is confirmed by this call. Memory may be wanting only where a record is to be added.
    pub fn confirm(
        &self,
        alloc: Global,
        principal: Principal,
        args: &SetclientidConfirm,
        has_state: bool,
        path: PathMark,
    ) -> Result<(Outcome, ClientChange), AllocError>
        ensures ok { IfOk result (λ r.
            r ≡ confirmation path has_state self.now.registry principal args.now) }
        ensures numbers { IfOk result (λ r. HasNumbersFor r.1 self.now.registry) }
        ensures fits { IfOk result (λ r. FitsRecords r.1 self.now.registry) }
        ensures memory { OnErr result (IsTrue (adds_record
            (confirmation path has_state self.now.registry principal args.now).1)) }
    {
        // A law, for the proof alone: an id has one unconfirmed record at most.
        self.records_are_apart();
        match self.unconfirmed_named_by(args) {
            None => Ok((
                self.answer_confirmed(principal, args),
                ClientChange::Nothing,
            )),
            Some(candidate) if candidate.state.principal.is(principal) => {
                self.confirm_unconfirmed(alloc, candidate, has_state, path)
            }
            Some(_) => Ok((Outcome::ClidInUse(()), ClientChange::Nothing)),
        }
    }

    // Decides a call that names an unconfirmed record, given the confirmed record with the same id.
    fn confirm_unconfirmed(
        &self,
        alloc: Global,
        candidate: ClientRef<'_>,
        has_state: bool,
        path: PathMark,
    ) -> Result<(Outcome, ClientChange), AllocError>
        ensures ok { IfOk result (λ r. r ≡ confirmation_by (confirmation_beside
            (record_state (confirmed_of self.now.registry candidate.entry.id.now))
            (client_seen candidate.entry) has_state) path) }
        ensures numbers { IfOk result (λ r. HasNumbersFor r.1 self.now.registry) }
        ensures memory { OnErr result (IsTrue (adds_record (confirmation_by (confirmation_beside
            (record_state (confirmed_of self.now.registry candidate.entry.id.now))
            (client_seen candidate.entry) has_state) path).1)) }
    {
        let change = match self.confirmed_of(candidate.id) {
            None => ClientChange::Confirms(confirmed_record(alloc, path, candidate)?),
            Some(old) if old.client == candidate.state.client => {
                ClientChange::Refreshes(updated_record(alloc, path, old, candidate)?)
            }
            Some(old) if !old.principal.is(candidate.state.principal) && has_state => {
                return Ok((Outcome::ClidInUse(()), ClientChange::Nothing));
            }
            Some(old) => {
                ClientChange::Replaces(confirmed_record(alloc, path, candidate)?, old.client)
            }
        };
        Ok((Outcome::Done(()), change))
    }

    // Answers a call that names no unconfirmed record.
    fn answer_confirmed(&self, principal: Principal, args: &SetclientidConfirm) -> Outcome
        ensures { (path : PathMark) → (result, ClientChange.Nothing) ≡ confirmation_by
            (confirmation_before (record_state (confirmed_named_by args.now self.now.registry))
            principal) path }
    {
        match self.confirmed_named_by(args) {
            None => Outcome::Refused(Refusal::StaleClientId),
            Some(found) if found.principal.is(principal) => Outcome::Done(()),
            Some(_) => Outcome::ClidInUse(()),
        }
    }

    /// What the confirmed record has of the id that the call would confirm, if there is one.
    pub fn holder_of(&self, args: &SetclientidConfirm) -> Option<&ClientState>
        ensures { option_copied result ≡ record_state (holder_of
            (unconfirmed_named_by args.now self.now.registry) self.now.registry) }
    {
        let candidate = self.unconfirmed_named_by(args)?;
        self.confirmed_of(candidate.id)
    }
}

// The record with this mark for its path.
fn confirmed_record(
    alloc: Global,
    path: PathMark,
    candidate: ClientRef<'_>,
) -> Result<ClientRecord, AllocError>
    ensures { IfOk result (λ r. r ≡ confirmed_record path (client_seen candidate.entry)) }
{
    let mut state = candidate.state.clone()?;
    state.path = path;
    Ok(ClientRecord {
        id: copy_of_bytes(alloc, candidate.id)?,
        state,
    })
}

// The confirmed record with the verifier, the callback and the confirm value of the unconfirmed one.
fn updated_record(
    alloc: Global,
    path: PathMark,
    old: &ClientState,
    candidate: ClientRef<'_>,
) -> Result<ClientRecord, AllocError>
    ensures { IfOk result (λ r. r
        ≡ updated_record path old.now (client_seen candidate.entry)) }
{
    let mut state = old.clone()?;
    state.verifier = candidate.state.verifier;
    state.callback = candidate.state.callback.clone()?;
    state.confirm = candidate.state.confirm;
    state.path = path;
    Ok(ClientRecord {
        id: copy_of_bytes(alloc, candidate.id)?,
        state,
    })
}
