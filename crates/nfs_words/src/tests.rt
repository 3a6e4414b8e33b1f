//! The words themselves, of which no call's contract speaks.

use crate::WordLeases;
use nfs_leases::{Closing, LeaseState, Renewal};
use nfs_state::Moment;
use std::test::Fail;

// Client 1 is opened at 100 and ends, and client 257 is opened at 300 in its slot. A worker who saw client 1 open
// before it ended renews it afterwards, and is told so; the word stays.
#[test]
fn slot_is_given_again(rt: HostRuntime) -> Result<(), Fail> {
    let (words, mut seats, mut keeper) = WordLeases::new(rt.alloc(), 90, 1)?;
    let opened = Moment::new(100).unwrap();
    words.open(&mut keeper, 1, opened);
    assert_eq!(rt; words.table.shared.peek(1), 101);
    let seen = words.look(&mut seats[0], 1);
    assert!(rt; matches!(seen, LeaseState::Open(_)));
    let closing = words.close(&mut keeper, 1, opened, Moment::new(191).unwrap());
    assert!(rt; matches!(closing, Closing::Closed));
    assert_eq!(rt; words.table.shared.peek(1), 1_099_511_627_775);
    words.open(&mut keeper, 257, Moment::new(300).unwrap());
    assert_eq!(rt; words.table.shared.peek(1), 1_099_511_628_077);
    let late = words.renew(&mut seats[0], 1, Moment::new(250).unwrap());
    assert!(rt; matches!(late, Renewal::Closed));
    assert_eq!(rt; words.table.shared.peek(1), 1_099_511_628_077);
    Ok(())
}
