//! The arguments and results of COMMIT, READDIR and SETATTR.

use crate::encoding::{is_encoded_as, is_unreadable};
use nfs_forms::{Bitmap, ClientId, Fattr, Refusal, Stateid, Status, Values, Verifier};
use nfs_operations::commit::{self, Commit};
use nfs_operations::readdir::{self, DirectoryEntry, Listing, Readdir, ReaddirOk};
use nfs_operations::setattr::{self, AttributesSet, Setattr, SetattrResult};
use std::alloc::{AllocError, Global};
use std::test::Fail;
use xdr::Bytes;

const VERIFIER: Verifier = Verifier([0, 0, 0, 1, 0, 0, 0, 2]);

#[test]
fn commits(rt: HostRuntime) -> Result<(), Fail> {
    let alloc = rt.alloc();
    let commit = Commit {
        offset: 0x2_0000_0003,
        count: 10,
    };
    assert!(rt; is_encoded_as(alloc, &commit, &[2, 3, 10])?);
    let answer = commit::Outcome::Done(VERIFIER);
    assert!(rt; is_encoded_as(alloc, &answer, &[0, 1, 2])?);
    let answer = commit::Outcome::Refused(Refusal::IsDir);
    assert!(rt; is_encoded_as(alloc, &answer, &[21])?);
    Ok(())
}

#[test]
fn asks_for_entries(rt: HostRuntime) -> Result<(), Fail> {
    let alloc = rt.alloc();
    let readdir = Readdir {
        cookie: 0x2_0000_0003,
        verifier: VERIFIER,
        dircount: 16,
        maxcount: 4096,
        mask: Bitmap::copy_of(alloc, &[0x0010_0012, 2])?,
    };
    let words = [2, 3, 1, 2, 16, 4096, 2, 0x0010_0012, 2];
    assert!(rt; is_encoded_as(alloc, &readdir, &words)?);
    Ok(())
}

#[test]
fn has_no_entries(rt: HostRuntime) -> Result<(), Fail> {
    let alloc = rt.alloc();
    let answer = readdir::Outcome::Done(ReaddirOk {
        verifier: VERIFIER,
        entries: Listing::new(Vec::new(alloc))?,
        eof: true,
    });
    assert!(rt; is_encoded_as(alloc, &answer, &[0, 1, 2, 0, 1])?);
    Ok(())
}

/// `a` with its fileid (20), and `longer` without attributes.
fn two_entries(alloc: Global) -> Result<Listing, AllocError> {
    let mut entries = Vec::new(alloc);
    entries.push(DirectoryEntry {
        cookie: 3,
        name: Bytes::copy_of(alloc, b"a")?,
        attributes: Fattr {
            mask: Bitmap::copy_of(alloc, &[0x0010_0000])?,
            values: Values::copy_of(alloc, &[0, 0, 0, 0, 0, 0, 0, 2])?,
        },
    })?;
    entries.push(DirectoryEntry {
        cookie: 0x1_0000_0000,
        name: Bytes::copy_of(alloc, b"longer")?,
        attributes: Fattr {
            mask: Bitmap::copy_of(alloc, &[])?,
            values: Values::copy_of(alloc, &[])?,
        },
    })?;
    Listing::new(entries)
}

#[test]
fn has_two_entries(rt: HostRuntime) -> Result<(), Fail> {
    let alloc = rt.alloc();
    let answer = readdir::Outcome::Done(ReaddirOk {
        verifier: VERIFIER,
        entries: two_entries(alloc)?,
        eof: false,
    });
    let words = [
        0,
        1,
        2, // NFS4_OK, and the verifier
        1,
        0,
        3,
        1,
        0x61000000,
        1,
        0x0010_0000,
        8,
        0,
        2, // an entry behind a TRUE
        1,
        1,
        0,
        6,
        0x6c6f6e67,
        0x65720000,
        0,
        0, // and one more
        0,
        0, // no further entry here, but in the directory
    ];
    assert!(rt; is_encoded_as(alloc, &answer, &words)?);
    Ok(())
}

/// A list goes on until a FALSE, and has nothing but bools in front of its entries.
#[test]
fn lists_have_an_end(rt: HostRuntime) -> Result<(), Fail> {
    let alloc = rt.alloc();
    assert!(rt; is_unreadable::<Listing>(alloc, &[])?);
    assert!(rt; is_unreadable::<Listing>(alloc, &[2])?);
    assert!(rt; is_unreadable::<Listing>(alloc, &[1, 0, 3, 1, 0x61000000, 0, 0])?);
    assert!(rt; is_unreadable::<Listing>(alloc, &[1, 0, 3, 1, 0x61000000, 0, 0, 2])?);
    assert!(rt; is_unreadable::<Listing>(alloc, &[1, 0, 3, 1, 0x61000000, 0])?);
    Ok(())
}

#[test]
fn sets_attributes(rt: HostRuntime) -> Result<(), Fail> {
    let alloc = rt.alloc();
    let setattr = Setattr {
        stateid: Stateid {
            seqid: 5,
            client: ClientId {
                epoch: 1,
                number: 2,
            },
            number: 7,
        },
        attributes: Fattr {
            mask: Bitmap::copy_of(alloc, &[16, 0x0040_0000])?,
            values: Values::copy_of(alloc, &[0, 0, 0, 0, 0, 0, 0, 9, 0, 0, 0, 0])?,
        },
    };
    let words = [5, 1, 2, 7, 2, 16, 0x0040_0000, 12, 0, 9, 0];
    assert!(rt; is_encoded_as(alloc, &setattr, &words)?);
    Ok(())
}

/// A bitmap follows each status. That of a refusal is empty here, and can be another one.
#[test]
fn says_what_was_set(rt: HostRuntime) -> Result<(), Fail> {
    let alloc = rt.alloc();
    let set = SetattrResult {
        status: Status::Ok,
        attributes: AttributesSet::new(Bitmap::copy_of(alloc, &[16, 0x0040_0000])?),
    };
    assert!(rt; is_encoded_as(alloc, &set, &[0, 2, 16, 0x0040_0000])?);
    let refused = SetattrResult::refused(Refusal::Rofs);
    assert!(rt; is_encoded_as(alloc, &refused, &[30, 0])?);
    let refused = SetattrResult {
        status: Status::Refused(Refusal::AttrNotSupp),
        attributes: AttributesSet::new(Bitmap::copy_of(alloc, &[0, 0, 1])?),
    };
    assert!(rt; is_encoded_as(alloc, &refused, &[10032, 3, 0, 0, 1])?);
    assert!(rt; is_unreadable::<setattr::Outcome>(alloc, &[0])?);
    assert!(rt; is_unreadable::<setattr::Outcome>(alloc, &[30, 1])?);
    Ok(())
}
