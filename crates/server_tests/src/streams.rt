//! Records of a stream, cut here and there, where a piece may be refused for want of memory.

use nfs_rpc::{RecordError, Records};
use std::process::Abort;

fn feed_if_few(rt: &impl Abort, records: &mut Records, piece: &[u8]) -> Result<(), RecordError> {
    assert!(rt; records.fed() + piece.len() as u64 <= 1 << 40);
    records.feed(piece)
}

/// Feeds a piece, and once more where memory was refused, which must have left all as it was.
fn feed(rt: &impl Abort, records: &mut Records, piece: &[u8]) -> Result<(), RecordError> {
    let (rest, kept, fed) = (records.rest(), records.kept(), records.fed());
    let answer = feed_if_few(rt, records, piece);
    if answer != Err(RecordError::Memory) {
        return answer;
    }
    assert_eq!(rt; (records.rest(), records.kept()), (rest, kept));
    assert_eq!(rt; records.fed(), fed);
    assert!(rt; !records.is_too_long());
    feed_if_few(rt, records, piece)
}

fn feed_all(rt: &impl Abort, records: &mut Records, pieces: &[&[u8]]) {
    for piece in pieces {
        assert_eq!(rt; feed(rt, records, piece), Ok(()));
    }
}

fn assert_next(rt: &impl Abort, records: &mut Records, want: &[u8]) {
    match records.next() {
        Some(message) => assert_eq!(rt; message.as_slice(), want),
        None => panic!(rt; "a record is missing"),
    }
}

fn assert_no_next(rt: &impl Abort, records: &mut Records) {
    assert!(rt; records.next().is_none());
}

/// Three records, cut here and there. `test_allocations_crates.py` runs this test with each of its allocations refused
/// in turn: a piece that is refused changes nothing, and is taken when it comes again.
#[test]
fn takes_records_cut_here_and_there(rt: HostRuntime) {
    let mut records = Records::new(rt.alloc());
    let pieces: [&[u8]; 4] = [
        &[0x80, 0, 0, 1, 1, 0, 0, 0, 1],
        &[2, 0x80, 0, 0],
        &[1, 3, 0x80, 0, 0, 2, 4],
        &[5],
    ];
    feed_all(&rt, &mut records, &pieces);
    assert_next(&rt, &mut records, &[1]);
    assert_next(&rt, &mut records, &[2, 3]);
    assert_next(&rt, &mut records, &[4, 5]);
    assert_no_next(&rt, &mut records);
}
