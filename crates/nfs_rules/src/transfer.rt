//! Decides whether a stateid allows READ, WRITE or a SETATTR of the size.

ghost use Rattle.std.specs.Prelude.{◌≡◌};
ghost use Rattle.std.specs.Option.{option_copied};
ghost use Rattle.nfs_rules.specs.Finding.{found_seen};
ghost use Rattle.nfs_rules.specs.Transfers as specs;
ghost use Rattle.nfs_state.specs.Room.{state_of};

use crate::decision::Decision;
use crate::demand::Demand;
use crate::stateids::{Found, target_of, verdict};
use nfs_share::{DelegationKind, FileUse, Modes, OpenState};
use nfs_state::{Change, Effect, Journal, Moment, Request, Store, Tables};
use nfs_xdr::{Opnum, Refusal, Stateid};

/// What is done with the bytes of a file, where a stateid allows it.
#[derive(Clone, Copy, PartialEq, Eq)]
pub enum Transfer {
    Read,
    Write,
    /// The file gets another size, by SETATTR.
    Resize,
}

impl Transfer {
    fn opnum(self) -> Opnum
        ensures { result ≡ specs.opnum_of self }
    {
        match self {
            Transfer::Read => Opnum::Read,
            Transfer::Write => Opnum::Write,
            Transfer::Resize => Opnum::Setattr,
        }
    }

    // The access that it needs of an open, and that an open may deny.
    fn mode(self) -> Modes
        ensures { result ≡ specs.mode_of self }
    {
        match self {
            Transfer::Read => Modes::READ,
            Transfer::Write | Transfer::Resize => Modes::WRITE,
        }
    }

    // Whether a delegation of this kind is for it.
    fn is_for(self, kind: DelegationKind) -> bool
        ensures { result ≡ specs.is_for self kind }
    {
        match self {
            Transfer::Read => true,
            Transfer::Write | Transfer::Resize => kind == DelegationKind::Write,
        }
    }

    /// A refusal, which changes nothing.
    pub(crate) fn refusal(self, refusal: Refusal) -> Decision
        ensures { result ≡ specs.refused self refusal }
    {
        Decision {
            answer: self.opnum().refusal(refusal),
            effect: Effect::change_alone(Change::Nothing),
        }
    }
}

/// The file of which bytes are read or written by this stateid, or what is decided where they aren't.
pub(crate) fn file_for(
    store: &Store,
    transfer: Transfer,
    request: &Request,
    stateid: Stateid,
) -> Result<u32, Decision>
    ensures { result ≡ specs.file_for transfer store.now.journal.history
        (state_of store.now.tables) request.now stateid }
{
    match permitted(store, transfer, request.filehandle, stateid) {
        Err(refusal) => Err(transfer.refusal(refusal)),
        Ok(node) if is_lent_out(&store.tables, transfer, stateid, node) => {
            Err(delayed(transfer, request.moment, node))
        }
        Ok(node) => Ok(node),
    }
}

// The file, or the first refusal that changes nothing.
fn permitted(
    store: &Store,
    transfer: Transfer,
    filehandle: Option<u32>,
    stateid: Stateid,
) -> Result<u32, Refusal>
    ensures { result ≡ specs.permitted transfer store.now.journal.history
        (state_of store.now.tables) filehandle stateid }
{
    let node = file_in(&store.journal, filehandle)?;
    if stateid.is_special() {
        unless_denied(&store.tables, transfer, node)
    } else {
        if_allowed(store, transfer, stateid, node)
    }
}

// The file of the current filehandle.
fn file_in(journal: &Journal, filehandle: Option<u32>) -> Result<u32, Refusal>
    ensures { result ≡ specs.file_in journal.now.history filehandle }
{
    let node = filehandle.ok_or(Refusal::NoFileHandle)?;
    if journal.tree().is_directory(node) {
        Err(Refusal::IsDir)
    } else {
        Ok(node)
    }
}

// The file, unless an open denies it, whoever has that open.
fn unless_denied(tables: &Tables, transfer: Transfer, node: u32) -> Result<u32, Refusal>
    ensures { result ≡ specs.unless_denied transfer (state_of tables.now) node }
{
    if tables.opens.denies(node, transfer.mode()) {
        Err(Refusal::Locked)
    } else {
        Ok(node)
    }
}

// The file, if the stateid names a state that allows it.
fn if_allowed(
    store: &Store,
    transfer: Transfer,
    stateid: Stateid,
    node: u32,
) -> Result<u32, Refusal>
    ensures { result ≡ specs.if_allowed transfer store.now.journal.history
        (state_of store.now.tables) stateid node }
{
    let target = target_of(&store.tables, store.journal.epoch(), stateid);
    let found = verdict(&store.tables, Demand::any_state(node), stateid, target)?;
    if allows(&store.tables, transfer, found) {
        Ok(node)
    } else {
        Err(Refusal::OpenMode)
    }
}

// Whether what was found allows it.
fn allows(tables: &Tables, transfer: Transfer, found: Found<'_>) -> bool
    ensures { result ≡ specs.allows transfer (state_of tables.now) (found_seen found.entry) }
{
    match found {
        Found::AnOpen(found) => has_access(transfer, Some(found.state)),
        Found::ALock(found) => {
            let open = tables
                .opens
                .open_numbered(found.node, found.state.open_number);
            has_access(transfer, open)
        }
        Found::ADelegation(found) => transfer.is_for(found.state.kind),
    }
}

// Whether the open, as it is now, has access for it.
fn has_access(transfer: Transfer, found: Option<&OpenState>) -> bool
    ensures { result ≡ specs.has_access transfer (option_copied found.entry) }
{
    match found {
        Some(open) => open.share().access.contains(transfer.mode()),
        None => false,
    }
}

// Whether the stateid is special, and a delegation of the file is in its way.
fn is_lent_out(tables: &Tables, transfer: Transfer, stateid: Stateid, node: u32) -> bool
    ensures { result ≡ specs.is_lent_out transfer (state_of tables.now) stateid node }
{
    stateid.is_special()
        && tables
            .opens
            .conflicts(node, FileUse::Special(transfer.mode()))
}

// What is in the way is called back at this moment.
fn delayed(transfer: Transfer, moment: Moment, node: u32) -> Decision
    ensures { result ≡ specs.delayed transfer moment node }
{
    Decision {
        answer: transfer.opnum().refusal(Refusal::Delay),
        effect: Effect::change_alone(Change::Recalls {
            node,
            file_use: FileUse::Special(transfer.mode()),
            moment,
        }),
    }
}
