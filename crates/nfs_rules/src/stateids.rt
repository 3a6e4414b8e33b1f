//! Finds the state that a stateid names, and judges whether an operation may use the state.

ghost use Rattle.std.specs.Prelude.{◌≡◌, option_map};
ghost use Rattle.nfs_owners.specs.StateOwner.{open_owner};
ghost use Rattle.nfs_rules.specs.Finding.{delegation_by, delegation_or_refusal_seen, found_delegation_seen, found_or_refusal_seen, found_seen, lock_by, lock_or_refusal_seen, open_by, open_or_refusal_seen, target_seen};
ghost use Rattle.nfs_rules.specs.Refusing.{first_refusal};
ghost use Rattle.nfs_share.specs.AllOpens.{delegation_named_in};
ghost use Rattle.nfs_state.specs.Owners.{is_confirmed};
ghost use Rattle.nfs_state.specs.Room.{state_of};
ghost use Rattle.nfs_rules.specs.Stateids as stateids;
ghost use Rattle.nfs_rules.specs.Stateids.{found_in, has_confirmed_owner, is_of_demanded, is_of_kinds, node_of, of_state, seqid_of, verdict_on};

use crate::demand::{Demand, Kinds};
use nfs_locks::LockFound;
use nfs_owners::{OwnerRef, OwnerStanding};
use nfs_share::{Delegation, OpenFound};
use nfs_state::Tables;
use nfs_xdr::{ClientId, OpenOwner, Refusal, Stateid};

/// A state that a stateid names, as it was found.
#[derive(Clone, Copy)]
pub(crate) enum Found<'a> {
    AnOpen(OpenFound<'a>),
    ALock(LockFound<'a>),
    ADelegation(FoundDelegation<'a>),
}

/// A delegation, and the node of its file.
#[derive(Clone, Copy)]
pub(crate) struct FoundDelegation<'a> {
    pub node: u32,
    pub state: &'a Delegation,
}

/// What the stateid names, in the server's run `epoch`, or why it can't name a state.
pub(crate) fn target_of(
    tables: &Tables,
    epoch: u32,
    stateid: Stateid,
) -> Result<Option<Found<'_>>, Refusal>
    ensures { target_seen result ≡ stateids.target_of epoch (state_of tables.now) stateid }
{
    if stateid.is_special() {
        return Err(Refusal::BadStateId);
    }
    if stateid.client.epoch != epoch {
        return Err(Refusal::StaleStateId);
    }
    if !tables.clients.was_given(stateid.client.number) {
        return Err(Refusal::BadStateId);
    }
    if tables.clients.of(stateid.client).is_none() {
        return Err(Refusal::Expired);
    }
    Ok(found_in(tables, stateid))
}

// The open, the lock state or the delegation that the stateid names.
fn found_in(tables: &Tables, stateid: Stateid) -> Option<Found<'_>>
    ensures { option_map found_seen result ≡ found_in (state_of tables.now) stateid }
{
    if let Some(found) = find_delegation(tables, stateid) {
        return Some(Found::ADelegation(found));
    }
    if let Some(found) = tables.opens.find(stateid) {
        return Some(Found::AnOpen(found));
    }
    match tables.locks.find(stateid) {
        Some(found) => Some(Found::ALock(found)),
        None => None,
    }
}

// The delegation that the stateid names.
fn find_delegation(tables: &Tables, stateid: Stateid) -> Option<FoundDelegation<'_>>
    ensures { option_map found_delegation_seen result
        ≡ delegation_named_in stateid (state_of tables.now).delegations }
{
    let found = tables.opens.delegation_named(stateid)?;
    Some(FoundDelegation {
        node: found.node,
        state: found.state,
    })
}

/// Whether the owner is known and confirmed.
pub(crate) fn is_confirmed(tables: &Tables, owner: &OpenOwner) -> bool
    ensures { result ≡ is_confirmed (open_owner owner.now) (state_of tables.now).owners }
{
    tables.owners.known(OwnerRef::of_open(owner)) == OwnerStanding::Confirmed
}

/// The verdict on a stateid, by what it names: the state, if it is as the operation demands, or why it isn't.
pub(crate) fn verdict<'a>(
    tables: &Tables,
    demand: Demand,
    stateid: Stateid,
    target: Result<Option<Found<'a>>, Refusal>,
) -> Result<Found<'a>, Refusal>
    ensures { found_or_refusal_seen result
        ≡ verdict_on demand (state_of tables.now) stateid (target_seen target.entry) }
{
    match target {
        Err(refusal) => Err(refusal),
        Ok(None) => Err(Refusal::BadStateId),
        Ok(Some(found)) => judge(tables, demand, stateid, found),
    }
}

// The state that was found, if it is as the operation demands.
fn judge<'a>(
    tables: &Tables,
    demand: Demand,
    stateid: Stateid,
    found: Found<'a>,
) -> Result<Found<'a>, Refusal>
    ensures { found_or_refusal_seen result
        ≡ first_refusal (of_state demand (state_of tables.now) stateid (found_seen found.entry))
        (found_seen found.entry) }
{
    if !is_of_kinds(demand.kinds, found) {
        return Err(Refusal::BadStateId);
    }
    if node_of(found) != demand.node {
        return Err(Refusal::BadStateId);
    }
    if !is_of_demanded(demand.client, stateid) {
        return Err(Refusal::BadStateId);
    }
    if !demand.also_unconfirmed && !has_confirmed_owner(tables, found) {
        return Err(Refusal::BadStateId);
    }
    let seqid = seqid_of(found);
    if stateid.seqid < seqid {
        Err(Refusal::OldStateId)
    } else if seqid < stateid.seqid {
        Err(Refusal::BadStateId)
    } else {
        Ok(found)
    }
}

// Whether the operation works on states of this one's kind.
fn is_of_kinds(kinds: Kinds, found: Found<'_>) -> bool
    ensures { result ≡ is_of_kinds kinds (found_seen found.entry) }
{
    match found {
        Found::AnOpen(_) => kinds.opens,
        Found::ALock(_) => kinds.locks,
        Found::ADelegation(_) => kinds.delegations,
    }
}

// Whether the stateid is of the client whose state is demanded, if only one client's is.
fn is_of_demanded(client: Option<ClientId>, stateid: Stateid) -> bool
    ensures { result ≡ is_of_demanded client stateid }
{
    match client {
        Some(client) => stateid.client == client,
        None => true,
    }
}

// The node of the state's file.
fn node_of(found: Found<'_>) -> u32
    ensures { result ≡ node_of (found_seen found.entry) }
{
    match found {
        Found::AnOpen(found) => found.node,
        Found::ALock(found) => found.node,
        Found::ADelegation(found) => found.node,
    }
}

// Whether the state isn't an open of an unconfirmed owner.
fn has_confirmed_owner(tables: &Tables, found: Found<'_>) -> bool
    ensures { result ≡ has_confirmed_owner (state_of tables.now) (found_seen found.entry) }
{
    match found {
        Found::AnOpen(found) => is_confirmed(tables, &found.state.owner),
        Found::ALock(_) | Found::ADelegation(_) => true,
    }
}

// The state's current seqid.
fn seqid_of(found: Found<'_>) -> u32
    ensures { result ≡ seqid_of (found_seen found.entry) }
{
    match found {
        Found::AnOpen(found) => found.state.seqid,
        Found::ALock(found) => found.state.seqid,
        Found::ADelegation(_) => 1,
    }
}

/// The verdict of an operation that works on opens alone.
pub(crate) fn open_verdict<'a>(
    tables: &Tables,
    demand: Demand,
    stateid: Stateid,
    target: Result<Option<Found<'a>>, Refusal>,
) -> Result<OpenFound<'a>, Refusal>
    ensures { open_or_refusal_seen result
        ≡ open_by demand (state_of tables.now) stateid (target_seen target.entry) }
{
    match verdict(tables, demand, stateid, target) {
        Err(refusal) => Err(refusal),
        Ok(Found::AnOpen(found)) => Ok(found),
        Ok(Found::ALock(_) | Found::ADelegation(_)) => Err(Refusal::BadStateId),
    }
}

/// The verdict of an operation that works on lock states alone.
pub(crate) fn lock_verdict<'a>(
    tables: &Tables,
    demand: Demand,
    stateid: Stateid,
    target: Result<Option<Found<'a>>, Refusal>,
) -> Result<LockFound<'a>, Refusal>
    ensures { lock_or_refusal_seen result
        ≡ lock_by demand (state_of tables.now) stateid (target_seen target.entry) }
{
    match verdict(tables, demand, stateid, target) {
        Err(refusal) => Err(refusal),
        Ok(Found::ALock(found)) => Ok(found),
        Ok(Found::AnOpen(_) | Found::ADelegation(_)) => Err(Refusal::BadStateId),
    }
}

/// The verdict of an operation that works on delegations alone.
pub(crate) fn delegation_verdict<'a>(
    tables: &Tables,
    demand: Demand,
    stateid: Stateid,
    target: Result<Option<Found<'a>>, Refusal>,
) -> Result<FoundDelegation<'a>, Refusal>
    ensures { delegation_or_refusal_seen result
        ≡ delegation_by demand (state_of tables.now) stateid (target_seen target.entry) }
{
    match verdict(tables, demand, stateid, target) {
        Err(refusal) => Err(refusal),
        Ok(Found::ADelegation(found)) => Ok(found),
        Ok(Found::AnOpen(_) | Found::ALock(_)) => Err(Refusal::BadStateId),
    }
}
