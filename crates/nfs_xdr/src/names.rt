//! What operations name of the state: clients, owners and states.

ghost use Rattle.std.specs.Prelude.{◌≡◌};
ghost use Rattle.nfs_xdr.specs.Names.{client_in, locker_names, names_of, names_seen};

use crate::Op;
use nfs_forms::{ClientId, Locker, OpenOwner, Stateid};

/// What the arguments of an operation name of the state. By an open owner or a stateid the owner is found that the
/// request comes from, and by whose sequence id it goes.
#[derive(Clone, Copy)]
pub enum Names<'a> {
    /// No owner, no state, and no client whose lease is renewed: SETCLIENTID and SETCLIENTID_CONFIRM renew none (RFC
    /// 7530, section 9.5).
    Nothing,
    Client(ClientId),
    /// An open owner, with the sequence id of its request.
    Opener(&'a OpenOwner, u32),
    /// A stateid, with the sequence id of the request of the state's owner.
    Owned(Stateid, u32),
    /// A stateid alone, of an operation that goes by no sequence id.
    State(Stateid),
}

impl Names<'_> {
    /// The client that is named: by its clientid, as an owner's client or in a stateid. A special stateid names none.
    pub fn client(self) -> Option<ClientId>
        ensures { result ≡ client_in (names_seen self.entry) }
    {
        match self {
            Names::Nothing => None,
            Names::Client(client) => Some(client),
            Names::Opener(owner, _) => Some(owner.client),
            Names::Owned(stateid, _) | Names::State(stateid) => {
                (!stateid.is_special()).then_some(stateid.client)
            }
        }
    }
}

impl Op {
    /// What the operation's arguments name of the state.
    pub fn names(&self) -> Names<'_>
        ensures { names_seen result ≡ names_of self.now }
    {
        match self {
            Op::Open(args) => Names::Opener(&args.owner, args.seqid),
            Op::OpenConfirm(args) => Names::Owned(args.stateid, args.seqid),
            Op::OpenDowngrade(args) => Names::Owned(args.stateid, args.seqid),
            Op::Close(args) => Names::Owned(args.stateid, args.seqid),
            Op::Lock(args) => locker_names(&args.locker),
            Op::Locku(args) => Names::Owned(args.stateid, args.seqid),
            Op::Lockt(args) => Names::Client(args.owner.client),
            Op::ReleaseLockowner(args) => Names::Client(args.owner.client),
            Op::Renew(args) => Names::Client(args.client),
            Op::Delegreturn(args) => Names::State(args.stateid),
            Op::Read(args) => Names::State(args.stateid),
            Op::Write(args) => Names::State(args.stateid),
            Op::Setattr(args) => Names::State(args.stateid),
            Op::Access(_)
            | Op::Commit(_)
            | Op::Getattr(_)
            | Op::Getfh
            | Op::Lookup(_)
            | Op::Putfh(_)
            | Op::Putrootfh
            | Op::Readdir(_)
            | Op::Restorefh
            | Op::Savefh
            | Op::Setclientid(_)
            | Op::SetclientidConfirm(_) => Names::Nothing,
        }
    }
}

// What a LOCK names.
fn locker_names(locker: &Locker) -> Names<'_>
    ensures { names_seen result ≡ locker_names locker.now }
{
    match locker {
        Locker::New(locker) => Names::Owned(locker.open_stateid, locker.open_seqid),
        Locker::Known(locker) => Names::Owned(locker.lock_stateid, locker.lock_seqid),
    }
}
