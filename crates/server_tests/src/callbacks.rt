//! What is made of a client's reply to a callback, and of the beginnings of it.

use nfs_rpc::{CallbackReply, read_cb_reply};

// The reply with xid 5, accepted with an empty verifier, and SUCCESS; then status OK, an empty tag, and one result, of
// CB_RECALL with status OK.
const REPLY: [u8; 44] = [
    0, 0, 0, 5, 0, 0, 0, 1, 0, 0, 0, 0, 0, 0, 0, 0, 0, 0, 0, 0, 0, 0, 0, 0, 0, 0, 0, 0, 0, 0, 0, 0,
    0, 0, 0, 1, 0, 0, 0, 4, 0, 0, 0, 0,
];

/// To a recall nothing but the whole reply says anything; to CB_NULL what stands up to SUCCESS is enough.
#[test]
fn reads_replies_that_are_cut(rt: HostRuntime) {
    for len in 0..REPLY.len() {
        let reply = &REPLY[..len];
        assert!(rt; read_cb_reply(reply, 5, true) == CallbackReply::Unreadable);
        let is_read = read_cb_reply(reply, 5, false) == CallbackReply::Accepted;
        assert!(rt; is_read == (len >= 24));
    }
    assert!(rt; read_cb_reply(&REPLY, 5, true) == CallbackReply::Accepted);
}
