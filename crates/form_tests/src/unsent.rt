//! What a result can have, and the server never sends.

use crate::encoding::is_encoded_as;
use nfs_forms::ChangeInfo;
use nfs_operations::{getattr, lock, lookup, setclientid};
use std::test::Fail;

/// NFS4ERR_CLID_INUSE (10017) brings an address in the result of SETCLIENTID alone, and NFS4ERR_DENIED (10010) a lock
/// in those of LOCK and LOCKT alone.
#[test]
fn statuses_of_other_operations_bring_nothing(rt: HostRuntime) -> Result<(), Fail> {
    let alloc = rt.alloc();
    assert!(rt; is_encoded_as(alloc, &getattr::Outcome::ClidInUse(()), &[10017])?);
    assert!(rt; is_encoded_as(alloc, &lock::Outcome::ClidInUse(()), &[10017])?);
    assert!(rt; is_encoded_as(alloc, &lookup::Outcome::Denied(()), &[10010])?);
    assert!(rt; is_encoded_as(alloc, &setclientid::Outcome::Denied(()), &[10010])?);
    Ok(())
}

/// The change of a directory, of which the server's have none.
#[test]
fn directories_change(rt: HostRuntime) -> Result<(), Fail> {
    let change = ChangeInfo {
        atomic: true,
        before: 1,
        after: 0x2_0000_0003,
    };
    assert!(rt; is_encoded_as(rt.alloc(), &change, &[1, 0, 1, 2, 3])?);
    Ok(())
}
