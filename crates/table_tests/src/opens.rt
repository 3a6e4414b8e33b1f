//! Opens of a file, and what they deny.

ghost use Rattle.std.specs.Prelude.{ℕ, ◌+◌};
ghost use Rattle.nfs_share.specs.Opens.{IsAbove};

use crate::names::name_of;
use nfs_forms::{ClientId, OpenOwner, Stateid};
use nfs_rows::OwnerSeed;
use nfs_share::{FileShare, Modes, Share, ShareError};
use std::alloc::{AllocError, Global};
use std::process::Abort;
use std::test::Fail;

const CLIENT: ClientId = ClientId {
    epoch: 1,
    number: 1,
};

const READ: Share = Share {
    access: Modes::READ,
    deny: Modes::NONE,
};

const WRITE: Share = Share {
    access: Modes::WRITE,
    deny: Modes::NONE,
};

const BOTH_ALONE: Share = Share {
    access: Modes::BOTH,
    deny: Modes::WRITE,
};

fn owner(alloc: Global, name: &[u8]) -> Result<OpenOwner, AllocError> {
    let name = match name_of(alloc, name) {
        Err(_) => name_of(alloc, name),
        copy => copy,
    };
    Ok(OpenOwner {
        client: CLIENT,
        name: name?,
    })
}

fn try_open(
    alloc: Global,
    file: &mut FileShare,
    name: &[u8],
    share: Share,
    number: u32,
) -> Result<Stateid, ShareError>
    requires newest { IsAbove number file.old.opens }
    ensures numbers { IsAbove (number + 1) file.new.opens }
{
    match file.try_open(owner(alloc, name)?, share, number) {
        Err(ShareError::Memory) => file.try_open(owner(alloc, name)?, share, number),
        answer => answer,
    }
}

fn downgrade(file: &mut FileShare, number: u32, share: Share) -> Result<Stateid, ShareError>
    ensures numbers { (above : ℕ) → IsAbove above file.old.opens → IsAbove above file.new.opens }
{
    file.downgrade(number, share)
}

/// Owner `a` opens the file to read it, and then also to write it alone, so that owner `b` has to wait for it to
/// downgrade that open to the first.
#[test]
fn opens_and_downgrades(rt: HostRuntime) -> Result<(), Fail> {
    let mut file = FileShare::new(rt.alloc(), OwnerSeed::new(&rt)?);
    downgrades_in_turn(&rt, rt.alloc(), &mut file)
}

fn downgrades_in_turn(rt: &impl Abort, alloc: Global, file: &mut FileShare) -> Result<(), Fail>
    requires new { IsAbove 7 file.old.opens }
{
    try_open(alloc, file, b"a", READ, 7)?;
    assert!(rt; !file.denies(Modes::BOTH));
    let stateid = try_open(alloc, file, b"a", BOTH_ALONE, 8)?;
    assert!(rt; stateid.seqid == 2 && stateid.client == CLIENT && stateid.number == 7);
    assert!(rt; file.share_of(&owner(alloc, b"a")?) == Some(BOTH_ALONE));
    assert!(rt; file.denies(Modes::WRITE) && !file.denies(Modes::READ));
    assert!(rt;
        matches!(
            try_open(alloc, file, b"b", WRITE, 9),
            Err(ShareError::Denied)
        )
    );
    assert!(rt; matches!(downgrade(file, 7, WRITE), Err(ShareError::Invalid)));
    assert_eq!(rt; downgrade(file, 7, READ)?.seqid, 3);
    assert!(rt; file.share_of(&owner(alloc, b"a")?) == Some(READ));
    assert_eq!(rt; try_open(alloc, file, b"b", WRITE, 10)?.number, 10);
    Ok(())
}
