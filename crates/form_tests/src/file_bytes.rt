//! The bytes of files, in the arguments and results of READ and WRITE.

ghost use Rattle.std.specs.Prelude.{◌+◌, ◌<◌, ◌^◌, length};

use crate::encoding::{is_encoded_as, is_unreadable};
use nfs_forms::{ClientId, StableHow, Stateid, Verifier};
use nfs_operations::read::{self, Read, ReadOk};
use nfs_operations::write::{self, Write, WriteOk};
use std::alloc::{AllocError, Global};
use std::test::Fail;
use xdr::{ByteParts, SharedBytes};

const STATEID: Stateid = Stateid {
    seqid: 5,
    client: ClientId {
        epoch: 1,
        number: 2,
    },
    number: 7,
};

#[test]
fn reads(rt: HostRuntime) -> Result<(), Fail> {
    let alloc = rt.alloc();
    let read = Read {
        stateid: STATEID,
        offset: 0x2_0000_0003,
        count: 10,
    };
    assert!(rt; is_encoded_as(alloc, &read, &[5, 1, 2, 7, 2, 3, 10])?);
    let bytes = ByteParts::copy_of(alloc, b"hello")?;
    let answer = read::Outcome::Done(ReadOk { eof: true, bytes });
    assert!(rt; is_encoded_as(alloc, &answer, &[0, 1, 5, 0x68656c6c, 0x6f000000])?);
    Ok(())
}

#[test]
fn writes(rt: HostRuntime) -> Result<(), Fail> {
    let alloc = rt.alloc();
    let write = Write {
        stateid: STATEID,
        offset: 0x2_0000_0003,
        stable: StableHow::FileSync,
        bytes: SharedBytes::copy_of(alloc, b"hello")?,
    };
    let words = [5, 1, 2, 7, 2, 3, 2, 5, 0x68656c6c, 0x6f000000];
    assert!(rt; is_encoded_as(alloc, &write, &words)?);
    Ok(())
}

/// The server answers FILE_SYNC4 (2) alone, whatever it is asked for.
#[test]
fn less_is_committed(rt: HostRuntime) -> Result<(), Fail> {
    let answer = write::Outcome::Done(WriteOk {
        count: 5,
        committed: StableHow::DataSync,
        verifier: Verifier([0, 0, 0, 1, 0, 0, 0, 2]),
    });
    assert!(rt; is_encoded_as(rt.alloc(), &answer, &[0, 5, 1, 1, 2])?);
    assert!(rt; is_encoded_as(rt.alloc(), &StableHow::Unstable, &[0])?);
    assert!(rt; is_unreadable::<StableHow>(rt.alloc(), &[3])?);
    Ok(())
}

/// The form has no limit, though no file of the server has so many bytes.
#[test]
fn more_bytes_are_read_than_a_file_has(rt: HostRuntime) -> Result<(), Fail> {
    let alloc = rt.alloc();
    let mut words = Vec::from_elem(alloc, 0u32, 17_502)?;
    words[1] = 70_000;
    let answer = ReadOk {
        eof: false,
        bytes: ByteParts::of_one(SharedBytes::new(Vec::from_elem(alloc, 0u8, 70_000)?)?),
    };
    assert!(rt; is_encoded_as(alloc, &answer, words.as_slice())?);
    Ok(())
}

// These bytes, in two parts.
fn in_parts(alloc: Global, first: &[u8], second: &[u8]) -> Result<ByteParts, AllocError>
    requires { length first.now + length second.now < 2 ^ 32 }
{
    let mut rest = Vec::new(alloc);
    rest.push(SharedBytes::copy_of(alloc, second)?)?;
    let len = first.len() + second.len();
    ByteParts::new(len, SharedBytes::copy_of(alloc, first)?, rest)
}

/// Neither equality nor the form asks in which parts the bytes lie.
#[test]
fn parts_are_joined(rt: HostRuntime) -> Result<(), Fail> {
    let alloc = rt.alloc();
    let (parts, others) = (
        in_parts(alloc, b"he", b"llo")?,
        in_parts(alloc, b"hell", b"o")?,
    );
    let whole = ByteParts::copy_of(alloc, b"hello")?;
    assert!(rt; parts == others);
    assert!(rt; parts == whole);
    assert!(rt; whole == parts);
    assert!(rt; in_parts(alloc, b"he", b"lla")? != whole);
    assert!(rt; is_encoded_as(alloc, &parts, &[5, 0x68656c6c, 0x6f000000])?);
    Ok(())
}
