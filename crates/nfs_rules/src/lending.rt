//! Which delegation an OPEN is given (RFC 7530, section 10.4).

ghost use Rattle.std.specs.Prelude.{◌≡◌, ◌≢◌, None};
ghost use Rattle.std.specs.List.{list_all};
ghost use Rattle.nfs_rules.specs.Lending.{delegation_with, has_lending_place, has_path_up, is_null, kind_for, lending_conditions, lent, read_kind};
ghost use Rattle.nfs_rules.specs.Sequences.{before_own};
ghost use Rattle.nfs_state.specs.Room.{state_of};

use crate::opening::Opening;
use crate::passage::Passage;
use nfs_operations::open::Open;
use nfs_owners::PathMark;
use nfs_share::{DelegationKind, Share};
use nfs_state::{Store, Tables};
use nfs_tree::Delegations;
use nfs_xdr::{Claim, ClientId, OpenDelegation, Stateid};

/// The kind of delegation that an OPEN without a refusal is given, if it is given one.
pub(crate) fn delegation_for(
    store: &Store,
    passage: Passage,
    args: &Open,
    opening: Opening,
) -> Option<DelegationKind>
    ensures kind { result ≡ lent store.now.journal.history
        (before_own passage args.now.owner (state_of store.now.tables)) passage args.now opening }
    ensures goes_on { result ≢ None → passage ≡ Passage.Continues }
{
    let kind = kind_for(store.journal.policy().delegations, opening.share)?;
    may_lend(&store.tables, passage, args, opening.node, kind).then_some(kind)
}

// Whether all holds that has to hold for the OPEN to be given a delegation of this kind.
fn may_lend(tables: &Tables, passage: Passage, args: &Open, node: u32, kind: DelegationKind) -> bool
    ensures { result ≡ list_all (λ holds. holds) (lending_conditions
        (before_own passage args.now.owner (state_of tables.now)) passage args.now node kind) }
{
    passage == Passage::Continues
        && is_null(&args.claim)
        && has_path_up(tables, args.owner.client)
        && tables.opens.can_delegate(node, args.owner.client, kind)
}

// The kind of delegation that goes with an OPEN for this share, as far as the policy gives these.
fn kind_for(policy: Delegations, share: Share) -> Option<DelegationKind>
    ensures { result ≡ kind_for policy share }
{
    match policy {
        Delegations::None => None,
        Delegations::Read if share.access.write => None,
        Delegations::All if share.access.write => Some(DelegationKind::Write),
        Delegations::Read | Delegations::All => read_kind(share),
    }
}

// A read delegation goes with an OPEN that denies nothing.
fn read_kind(share: Share) -> Option<DelegationKind>
    ensures { result ≡ read_kind share }
{
    if share.deny.read || share.deny.write {
        None
    } else {
        Some(DelegationKind::Read)
    }
}

fn is_null(claim: &Claim) -> bool
    ensures { result ≡ is_null claim.now }
{
    matches!(claim, Claim::Null(_))
}

// Whether callbacks reach the client.
fn has_path_up(tables: &Tables, client: ClientId) -> bool
    ensures { result ≡ has_path_up client (state_of tables.now).clients }
{
    match tables.clients.of(client) {
        Some(found) => found.path == PathMark::Up,
        None => false,
    }
}

/// Whether there is a place for the delegation, if one is given, beside that of the open.
pub(crate) fn has_lending_place(
    tables: &Tables,
    has_open: bool,
    kind: Option<DelegationKind>,
) -> bool
    ensures { result ≡ has_lending_place (state_of tables.now) has_open kind }
{
    match kind {
        Some(_) => tables.has_state_place_beside(if has_open { 0 } else { 1 }),
        None => true,
    }
}

/// The delegation as the answer has it, with this number if one is given.
pub(crate) fn delegation_with(
    number: u32,
    client: ClientId,
    kind: Option<DelegationKind>,
) -> OpenDelegation
    ensures { result ≡ delegation_with number client kind }
{
    let stateid = Stateid {
        seqid: 1,
        client,
        number,
    };
    match kind {
        None => OpenDelegation::None,
        Some(DelegationKind::Read) => OpenDelegation::Read(stateid),
        Some(DelegationKind::Write) => OpenDelegation::Write(stateid),
    }
}
