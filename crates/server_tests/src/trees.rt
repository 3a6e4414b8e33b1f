//! What no answer of the program shows yet of a tree: the bytes of a file, and the attributes of a file that was
//! written to.

use nfs_tree::{DEFAULT_TREE, Profile, Subject, Tree};
use std::alloc::{AllocError, Global};
use std::test::Fail;

/// The words, big-endian.
fn bytes_of(alloc: Global, words: &[u32]) -> Result<Vec<u8>, AllocError> {
    let mut bytes = Vec::new(alloc);
    for word in words {
        bytes.extend_from_slice(&word.to_be_bytes())?;
    }
    Ok(bytes)
}

/// Whether these are the values of the attributes in this mask of a node of the default tree, where it has been written
/// twice, has 7 bytes, and the lease is 90.
fn has_attributes(alloc: Global, node: u32, mask: u32, values: &[u32]) -> Result<bool, Fail> {
    let tree = Tree::from_toml(alloc, DEFAULT_TREE)?;
    if node >= tree.len() {
        return Ok(false);
    }
    let subject = Subject {
        node,
        is_directory: tree.is_directory(node),
        change: 2,
        size: 7,
        lease: 90,
        nodes: tree.len(),
        profile: Profile::Plain,
    };
    let attributes = subject.attributes(alloc, &[mask])?;
    let is_mask = attributes.mask.as_slice() == [mask & 0x0018_0fff].as_slice();
    Ok(is_mask && attributes.values.as_slice() == bytes_of(alloc, values)?.as_slice())
}

/// The text of a file; and changes and sizes of a file that was written to, of which a directory has none.
/// `test_program.py` has the other attributes of each node.
#[test]
fn nodes_have_attributes(rt: HostRuntime) -> Result<(), Fail> {
    let tree = Tree::from_toml(rt.alloc(), DEFAULT_TREE)?;
    let text: Option<&[u8]> = Some(b"hello");
    assert!(rt; tree.text(1) == text);
    assert!(rt; has_attributes(rt.alloc(), 1, 0x1a, &[1, 0, 2, 0, 7])?);
    assert!(rt; has_attributes(rt.alloc(), 3, 0x1a, &[2, 0, 0, 0, 0])?);
    let all = [
        1,
        0x0018_0fff,
        1,
        0,
        0,
        2,
        0,
        7,
        0,
        0,
        0,
        0,
        1,
        0,
        0,
        1,
        90,
        0,
        8,
        0x6e66_6831,
        1,
        0,
        2,
    ];
    assert!(rt; has_attributes(rt.alloc(), 1, u32::MAX, &all)?);
    let all_of_d = [
        1,
        0x0018_0fff,
        2,
        0,
        0,
        0,
        0,
        0,
        0,
        0,
        0,
        0,
        1,
        0,
        0,
        1,
        90,
        0,
        8,
        0x6e66_6831,
        3,
        0,
        4,
    ];
    assert!(rt; has_attributes(rt.alloc(), 3, u32::MAX, &all_of_d)?);
    Ok(())
}
