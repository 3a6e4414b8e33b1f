//! OPEN: an owner opens a file by a share reservation, perhaps with a delegation.

ghost use Rattle.std.specs.Prelude.{◌≡◌, ◌≢◌, ℕ, ◌<◌, ◌-◌, ◌^◌, None, Ok, OnErr};
ghost use Rattle.std.specs.Option.{option_copied};
ghost use Rattle.std.specs.Result.{IsOk, result_map_both};
ghost use Rattle.nfs_owners.specs.StateOwner.{open_owner};
ghost use Rattle.nfs_rules.specs.Deciding.{ByOwnRule, IsPassage};
ghost use Rattle.nfs_state.specs.Room.{state_of};
ghost use Rattle.nfs_rules.specs.Sequences.{before_own};
ghost use Rattle.nfs_rules.specs.operations.Open.{claimed, delayed, file_at, found_by, has_owner_place, name_of, opening, opening_or_ruling, own, rflags_of, ruling_of, unless_denied, unless_lent, wants_new};
ghost use Rattle.nfs_rules.specs.Lending.{lending_number};
ghost use Rattle.nfs_rules.specs.operations.OpenGrant.{granted_stateid, new_stateid, ok_answer, opened};
ghost use Rattle.nfs_share.specs.AllOpens.{opens_of};
ghost use Rattle.nfs_state.specs.Places.{has_state_place};
ghost use Rattle.nfs_state.specs.declared.request.Request.{Request};
ghost use Rattle.nfs_share.specs.Opens.{open_of};

use crate::demand::Demand;
use crate::lending::{delegation_for, delegation_with, has_lending_place};
use crate::opening::Opening;
use crate::passage::Passage;
use crate::ruling::Ruling;
use crate::stateids::{target_of, verdict};
use nfs_operations::open::{Open, OpenOk};
use nfs_owners::OwnerRef;
use nfs_share::{DelegationKind, FileUse, OpenState, Share};
use nfs_state::{Change, Journal, Moment, Shortage, Store, Tables};
use nfs_xdr::{
    Answer, Bitmap, ChangeInfo, Claim, ClientId, CreateHow, Op, OpResult, OpenDelegation, OpenHow,
    OpenOwner, Opnum, Refusal, Stateid,
};
use std::alloc::Global;

/// The own rule of OPEN, under the current filehandle `directory`, of a call at this moment.
pub(super) fn rule(
    alloc: Global,
    store: &Store,
    directory: u32,
    passage: Passage,
    args: &Open,
    moment: Moment,
) -> Result<Ruling, Shortage>
    requires states { store.now.tables.numbers < 2 ^ 32 - 2 }
    requires passage { IsPassage passage (open_owner args.now.owner) (state_of store.now.tables) }
    ensures rules { (request : Request) → request.moment ≡ moment
        → ByOwnRule (own store.now.journal.history (state_of store.now.tables) args.now request
        directory passage) (state_of store.now.tables) (Op.Open args.now) result }
    ensures error { OnErr result (IsOk
        (opening store.now.journal.history (state_of store.now.tables) directory args.now)) }
{
    let opening = find_opening(store, directory, args);
    match opening_or_ruling(&store.tables, moment, args.owner.client, opening) {
        Ok(opening) => grant(alloc, store, passage, args, opening),
        Err(ruling) => Ok(ruling),
    }
}

// What the OPEN opens, or the ruling of its refusal.
fn opening_or_ruling(
    tables: &Tables,
    moment: Moment,
    client: ClientId,
    opening: Result<Opening, Refusal>,
) -> Result<Opening, Ruling>
    ensures { result ≡ opening_or_ruling (state_of tables.now) moment client opening }
{
    match opening {
        Err(refusal) => Err(Ruling::refusal(Opnum::Open, refusal)),
        Ok(opening) => unless_lent(tables, moment, client, opening),
    }
}

// What the OPEN opens, unless a delegation of another client is in the way: what is in the way is called back.
fn unless_lent(
    tables: &Tables,
    moment: Moment,
    client: ClientId,
    opening: Opening,
) -> Result<Opening, Ruling>
    ensures { result ≡ unless_lent (state_of tables.now) moment client opening }
{
    if tables
        .opens
        .conflicts(opening.node, FileUse::Open(client, opening.share))
    {
        return Err(delayed(moment, client, opening));
    }
    Ok(opening)
}

fn delayed(moment: Moment, client: ClientId, opening: Opening) -> Ruling
    ensures { result ≡ delayed moment client opening }
{
    Ruling {
        answer: Opnum::Open.refusal(Refusal::Delay),
        change: Change::Recalls {
            node: opening.node,
            file_use: FileUse::Open(client, opening.share),
            moment,
        },
    }
}

// What the OPEN opens, or the first of its refusals. An owner that starts anew has the same, since its own opens refuse
// it nothing.
fn find_opening(store: &Store, directory: u32, args: &Open) -> Result<Opening, Refusal>
    ensures { result
        ≡ opening store.now.journal.history (state_of store.now.tables) directory args.now }
{
    let name = name_of(&args.claim)?;
    let share = Share::from_numbers(args.access, args.deny).ok_or(Refusal::Inval)?;
    let found = found_by(&args.how, store.journal.tree().resolve(directory, name))?;
    let file = file_at(&store.journal, &args.how, found)?;
    let node = claimed(store, args.owner.client, &args.claim, file)?;
    unless_denied(&store.tables, &args.owner, share, node)
}

// The name that the claim opens.
fn name_of(claim: &Claim) -> Result<&[u8], Refusal>
    ensures { result_map_both (λ name. name.now) (λ refusal. refusal) result ≡ name_of claim.now }
{
    match claim {
        Claim::Null(name) => Ok(name.as_slice()),
        Claim::Previous(_) => Err(Refusal::NoGrace),
        Claim::DelegateCur { name, .. } => Ok(name.as_slice()),
        Claim::DelegatePrev(_) => Err(Refusal::NotSupp),
    }
}

// No file can be created: where there is none with the name, OPEN4_CREATE is NFS4ERR_ACCESS.
fn found_by(how: &OpenHow, found: Result<u32, Refusal>) -> Result<u32, Refusal>
    ensures { result ≡ found_by how.now found }
{
    match (how, found) {
        (OpenHow::Create(_), Err(Refusal::NoEnt)) => Err(Refusal::Access),
        (_, found) => found,
    }
}

// Whether the file has to be a new one.
fn wants_new(how: &OpenHow) -> bool
    ensures { result ≡ wants_new how.now }
{
    match how {
        OpenHow::Create(how) => {
            matches!(how.get(), CreateHow::Guarded(_) | CreateHow::Exclusive(_))
        }
        OpenHow::Nocreate => false,
    }
}

// The node, if it is a file that the OPEN may open.
fn file_at(journal: &Journal, how: &OpenHow, node: u32) -> Result<u32, Refusal>
    ensures { result ≡ file_at journal.now.history how.now node }
{
    if journal.tree().is_directory(node) {
        Err(Refusal::IsDir)
    } else if wants_new(how) {
        Err(Refusal::Exist)
    } else {
        Ok(node)
    }
}

// The file, if the claim may open it: the stateid in a CLAIM_DELEGATE_CUR has to name a delegation of it to the client.
fn claimed(store: &Store, client: ClientId, claim: &Claim, node: u32) -> Result<u32, Refusal>
    ensures { result ≡ claimed store.now.journal.history (state_of store.now.tables) client
        claim.now node }
{
    let Claim::DelegateCur { stateid, .. } = claim else {
        return Ok(node);
    };
    let target = target_of(&store.tables, store.journal.epoch(), *stateid);
    let demand = Demand::delegation_of(client, node);
    match verdict(&store.tables, demand, *stateid, target) {
        Err(refusal) => Err(refusal),
        Ok(_) => Ok(node),
    }
}

// The opening, unless an open of another owner conflicts with its share.
fn unless_denied(
    tables: &Tables,
    owner: &OpenOwner,
    share: Share,
    node: u32,
) -> Result<Opening, Refusal>
    ensures { result ≡ unless_denied (state_of tables.now) owner.now share node }
{
    if tables.opens.refuses(node, owner, share) {
        return Err(Refusal::ShareDenied);
    }
    Ok(Opening { node, share })
}

// Grants the OPEN, unless a limit would be exceeded, with a delegation where one goes with it.
fn grant(
    alloc: Global,
    store: &Store,
    passage: Passage,
    args: &Open,
    opening: Opening,
) -> Result<Ruling, Shortage>
    requires states { store.now.tables.numbers < 2 ^ 32 - 2 }
    requires passage { IsPassage passage (open_owner args.now.owner) (state_of store.now.tables) }
    ensures { ByOwnRule (λ ruling. ruling ≡ ruling_of store.now.journal.history
        (before_own passage args.now.owner (state_of store.now.tables))
        passage args.now (Ok opening))
        (state_of store.now.tables) (Op.Open args.now) result }
{
    let kind = delegation_for(store, passage, args, opening);
    let opened = opened_for(&store.tables, passage, &args.owner, opening.node, kind);
    let Some((stateid, delegation)) = opened else {
        return Err(Shortage::Limit);
    };
    let owner = args.owner.clone()?;
    Ok(Ruling {
        answer: ok_answer(alloc, passage, stateid, delegation),
        change: Change::Opens {
            node: opening.node,
            owner,
            share: opening.share,
            delegation: kind,
        },
    })
}

// What the owner gets for the file: its stateid, and the delegation of this kind, if it is given one; `None` if a limit
// would be exceeded.
fn opened_for(
    tables: &Tables,
    passage: Passage,
    owner: &OpenOwner,
    node: u32,
    kind: Option<DelegationKind>,
) -> Option<(Stateid, OpenDelegation)>
    requires states { tables.now.numbers < 2 ^ 32 - 2 }
    requires passage { IsPassage passage (open_owner owner.now) (state_of tables.now) }
    requires kind { kind ≢ None → passage ≡ Passage.Continues }
    ensures { result ≡ opened passage (before_own passage owner.now (state_of tables.now))
        owner.now node kind }
{
    let open = open_of(tables, passage, owner, node);
    let stateid = stateid_for(tables, passage, owner, open)?;
    let has_open = open.is_some();
    if !has_lending_place(tables, has_open, kind) {
        return None;
    }
    let number = lending_number(tables, has_open);
    Some((stateid, delegation_with(number, owner.client, kind)))
}

// The number that a delegation is given: a new open's is given before.
fn lending_number(tables: &Tables, has_open: bool) -> u32
    requires states { tables.now.numbers < 2 ^ 32 - 2 }
    ensures { result ≡ lending_number (state_of tables.now) has_open }
{
    let next = tables.numbers.upcoming();
    if has_open { next } else { next + 1 }
}

// The stateid that the owner gets for a file of which it has this open, or none; `None` if a limit would be exceeded.
fn stateid_for(
    tables: &Tables,
    passage: Passage,
    owner: &OpenOwner,
    open: Option<&OpenState>,
) -> Option<Stateid>
    requires states { tables.now.numbers < 2 ^ 32 - 2 }
    requires passage { IsPassage passage (open_owner owner.now) (state_of tables.now) }
    ensures { (node : ℕ) → option_copied open.entry ≡ open_of owner.now
        (opens_of node (before_own passage owner.now (state_of tables.now)).opens)
        → result ≡ granted_stateid passage
        (before_own passage owner.now (state_of tables.now)) owner.now node }
{
    if !has_owner_place(tables, passage, owner) {
        return None;
    }
    match open {
        Some(open) => Some(open.next_stateid()),
        None => new_stateid(tables, passage, owner),
    }
}

// Whether there is a place for the owner. One that starts anew has left its own.
fn has_owner_place(tables: &Tables, passage: Passage, owner: &OpenOwner) -> bool
    requires passage { IsPassage passage (open_owner owner.now) (state_of tables.now) }
    ensures { result
        ≡ has_owner_place passage (before_own passage owner.now (state_of tables.now)) }
{
    tables.owners.has_place(OwnerRef::of_open(owner))
}

// The open that the owner has of the node's file. One that starts anew has none.
fn open_of<'a>(
    tables: &'a Tables,
    passage: Passage,
    owner: &OpenOwner,
    node: u32,
) -> Option<&'a OpenState>
    ensures { option_copied result ≡ open_of owner.now
        (opens_of node (before_own passage owner.now (state_of tables.now)).opens) }
{
    match passage {
        Passage::Restarts => None,
        Passage::Continues | Passage::Begins => tables.opens.open_of(node, owner),
    }
}

// The stateid of a new open; `None` if there is no place for one.
fn new_stateid(tables: &Tables, passage: Passage, owner: &OpenOwner) -> Option<Stateid>
    requires states { tables.now.numbers < 2 ^ 32 - 2 }
    ensures { result ≡ new_stateid (before_own passage owner.now (state_of tables.now)) owner.now }
{
    if !has_state_place(tables, passage, owner) {
        return None;
    }
    Some(Stateid {
        seqid: 1,
        client: owner.client,
        number: tables.numbers.upcoming(),
    })
}

// Whether there is a place for one more open. An owner that starts anew leaves its own places.
fn has_state_place(tables: &Tables, passage: Passage, owner: &OpenOwner) -> bool
    ensures { result ≡ has_state_place (before_own passage owner.now (state_of tables.now)) }
{
    match passage {
        Passage::Restarts => tables.has_state_place_without(owner),
        Passage::Continues | Passage::Begins => tables.has_state_place(),
    }
}

// The answer to an OPEN that is granted.
fn ok_answer(
    alloc: Global,
    passage: Passage,
    stateid: Stateid,
    delegation: OpenDelegation,
) -> OpResult
    ensures value { result ≡ ok_answer passage stateid delegation }
{
    OpResult::Open(Answer::Done(OpenOk {
        stateid,
        change: ChangeInfo {
            atomic: true,
            before: 0,
            after: 0,
        },
        rflags: rflags_of(passage),
        attrset: Bitmap::new(Vec::new(alloc)),
        delegation,
    }))
}

// OPEN4_RESULT_LOCKTYPE_POSIX, and OPEN4_RESULT_CONFIRM for an owner that isn't confirmed: one that begins, or that
// starts anew.
fn rflags_of(passage: Passage) -> u32
    ensures { result ≡ rflags_of passage }
{
    match passage {
        Passage::Continues => LOCKTYPE_POSIX,
        Passage::Begins | Passage::Restarts => LOCKTYPE_POSIX + CONFIRM,
    }
}

// OPEN4_RESULT_CONFIRM.
const CONFIRM: u32 = 2;

// OPEN4_RESULT_LOCKTYPE_POSIX.
const LOCKTYPE_POSIX: u32 = 4;
