//! Delegations of a file, and what they are in the way of.

ghost use Rattle.std.specs.Prelude.{◌+◌};
ghost use Rattle.nfs_share.specs.Delegations.{IsAboveLent};

use nfs_forms::{ClientId, Stateid};
use nfs_rows::OwnerSeed;
use nfs_share::{Delegation, DelegationKind, FileShare, Modes, Share, ShareError};
use std::alloc::AllocError;
use std::process::Abort;
use std::test::Fail;

const FIRST: ClientId = ClientId {
    epoch: 1,
    number: 1,
};

const SECOND: ClientId = ClientId {
    epoch: 1,
    number: 2,
};

const THIRD: ClientId = ClientId {
    epoch: 1,
    number: 3,
};

const READ: Share = Share {
    access: Modes::READ,
    deny: Modes::NONE,
};

const WRITE: Share = Share {
    access: Modes::WRITE,
    deny: Modes::NONE,
};

fn delegate(
    file: &mut FileShare,
    client: ClientId,
    kind: DelegationKind,
    number: u32,
) -> Result<Stateid, ShareError>
    requires newest { IsAboveLent number file.old.delegations }
    ensures numbers { IsAboveLent (number + 1) file.new.delegations }
{
    match file.delegate(client, kind, number) {
        Err(ShareError::Memory) => file.delegate(client, kind, number),
        answer => answer,
    }
}

fn conflicts_of(
    file: &FileShare,
    client: ClientId,
    share: Share,
) -> Result<Vec<Delegation>, AllocError> {
    match file.conflicts_of(client, share) {
        Err(_) => file.conflicts_of(client, share),
        found => found,
    }
}

/// Two clients are lent the file for reading: both delegations are in the way of a third client that would write, and
/// of the first client's writing that of the second alone; nothing is in the way of reading. So a delegation for
/// writing isn't given, and tells of both.
#[test]
fn lends_to_two_readers(rt: HostRuntime) -> Result<(), Fail> {
    let mut file = FileShare::new(rt.alloc(), OwnerSeed::new(&rt)?);
    lend_in_turn(&rt, &mut file)
}

fn lend_in_turn(rt: &impl Abort, file: &mut FileShare) -> Result<(), Fail>
    requires new { IsAboveLent 7 file.old.delegations }
{
    let stateid = delegate(file, FIRST, DelegationKind::Read, 7)?;
    assert!(rt; stateid.seqid == 1 && stateid.client == FIRST && stateid.number == 7);
    assert_eq!(rt; delegate(file, SECOND, DelegationKind::Read, 8)?.number, 8);
    let found = conflicts_of(file, THIRD, WRITE)?;
    assert!(rt; found.len() == 2 && found[0].number == 7 && found[1].number == 8);
    let found = conflicts_of(file, FIRST, WRITE)?;
    assert!(rt; found.len() == 1 && found[0].number == 8);
    assert_eq!(rt; conflicts_of(file, THIRD, READ)?.len(), 0);
    match delegate(file, THIRD, DelegationKind::Write, 9) {
        Err(ShareError::Held(held)) => assert_eq!(rt; held.len(), 2),
        _ => assert!(rt; false),
    }
    Ok(())
}
