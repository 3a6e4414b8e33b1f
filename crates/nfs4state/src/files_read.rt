//! The bytes of the files that the command line names, read no further than they can be of use.

use crate::told::tell;
use nfs_program::Fault;
use std::fs::File;
use std::io::{self, Read};

// The most bytes that a tree's file may have: 8 MiB.
const TREE_LIMIT: u64 = 8_388_608;

// How many bytes tell whether a file is a journal, and the first four of them in each edition.
const FRONT_LEN: u64 = 8;

const JOURNAL_LETTERS: &[u8] = b"NFSJ";

/// The bytes of a tree's file. Why it can't be read is told by a line.
pub(crate) fn read_tree_file(rt: &HostRuntime, path: &str) -> Result<Vec<u8>, Fault> {
    let bytes = told(rt, path, read_up_to(rt, path, TREE_LIMIT + 1))?;
    if bytes.len() as u64 > TREE_LIMIT {
        tell(rt, path, "a tree's file has at most 8 MiB");
        return Err(Fault::FileNotRead);
    }
    Ok(bytes)
}

/// The bytes of a journal's file, or the first eight if these begin no journal. Why it can't be read is told by a line.
pub(crate) fn read_journal_file(rt: &HostRuntime, path: &str) -> Result<Vec<u8>, Fault> {
    told(rt, path, read_behind_front(rt, path))
}

fn read_up_to(rt: &HostRuntime, path: &str, limit: u64) -> io::Result<Vec<u8>> {
    let mut bytes = Vec::new(rt.alloc());
    File::open(rt, path)?.take(limit).read_to_end(&mut bytes)?;
    Ok(bytes)
}

fn read_behind_front(rt: &HostRuntime, path: &str) -> io::Result<Vec<u8>> {
    let mut bytes = Vec::new(rt.alloc());
    let mut front = File::open(rt, path)?.take(FRONT_LEN);
    front.read_to_end(&mut bytes)?;
    if bytes.as_slice().starts_with(JOURNAL_LETTERS) {
        front.into_inner().read_to_end(&mut bytes)?;
    }
    Ok(bytes)
}

fn told(rt: &HostRuntime, path: &str, bytes: io::Result<Vec<u8>>) -> Result<Vec<u8>, Fault> {
    match bytes {
        Ok(bytes) => Ok(bytes),
        Err(error) if error.kind() == io::ErrorKind::OutOfMemory => Err(Fault::NoMemory),
        Err(error) => {
            tell(rt, path, error);
            Err(Fault::FileNotRead)
        }
    }
}
