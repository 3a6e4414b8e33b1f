//! Delegations in the result of OPEN.

use crate::encoding::{is_encoded_as, is_unreadable};
use nfs_forms::{ClientId, OpenDelegation, Stateid};
use std::test::Fail;

const STATEID: Stateid = Stateid {
    seqid: 5,
    client: ClientId {
        epoch: 1,
        number: 2,
    },
    number: 7,
};

#[test]
fn delegations(rt: HostRuntime) -> Result<(), Fail> {
    let alloc = rt.alloc();
    assert!(rt; is_encoded_as(alloc, &OpenDelegation::None, &[0])?);
    let read = OpenDelegation::Read(STATEID);
    assert!(rt; is_encoded_as(alloc, &read, &[1, 5, 1, 2, 7, 0, 0, 0, 0, 0])?);
    let write = OpenDelegation::Write(STATEID);
    assert!(rt; is_encoded_as(alloc, &write, &[2, 5, 1, 2, 7, 0, 1, 0, 65_536, 0, 0, 0, 0])?);
    Ok(())
}

#[test]
fn other_delegations_are_unreadable(rt: HostRuntime) -> Result<(), Fail> {
    let alloc = rt.alloc();
    assert!(rt; is_unreadable::<OpenDelegation>(alloc, &[1, 5, 1, 2, 7, 1, 0, 0, 0, 0])?);
    assert!(rt; is_unreadable::<OpenDelegation>(alloc, &[1, 5, 1, 2, 7, 0, 0, 0, 1, 0])?);
    assert!(rt; is_unreadable::<OpenDelegation>(alloc, &[3, 5, 1, 2, 7, 0, 0, 0, 0, 0])?);
    Ok(())
}
