//! The sequence id of a stateid, after as many changes as no row makes.

use nfs_forms::{ClientId, Stateid};

/// Zero is left out (RFC 7530, section 9.1.4.2).
#[test]
fn seqid_one_follows_the_last(rt: HostRuntime) {
    let client = ClientId {
        epoch: 1,
        number: 2,
    };
    let last = Stateid {
        seqid: 4_294_967_295,
        client,
        number: 7,
    };
    let want = Stateid {
        seqid: 1,
        client,
        number: 7,
    };
    assert!(rt; last.next() == want);
}
