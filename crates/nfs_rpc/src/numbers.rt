//! States the numbers of RPC and NFS in this crate as a law, so that a wrong constant fails the proof.

ghost use Rattle.std.specs.Prelude.{◌≡◌, ◌^◌};

use crate::auth_sys::{GID_LIMIT, MACHINE_NAME_LIMIT};
use crate::callback_call::{CALLBACK_VERSION, CB_COMPOUND, CB_NULL, OP_CB_RECALL};
use crate::credential::{AUTH_NONE, AUTH_SYS, BODY_LIMIT};
use crate::records::{HEADER_LEN, LAST_FRAGMENT, RECORD_LIMIT};
use crate::reply::{
    ACCEPTED_GARBAGE_ARGS, ACCEPTED_LEN, ACCEPTED_PROC_UNAVAIL, ACCEPTED_PROG_MISMATCH,
    ACCEPTED_PROG_UNAVAIL, ACCEPTED_SUCCESS, ACCEPTED_SYSTEM_ERR, AUTH_BADCRED, DENIED_AUTH_ERROR,
    DENIED_RPC_MISMATCH, MESSAGE_REPLY, REPLY_ACCEPTED, REPLY_DENIED, SHORT_REPLY_LEN,
};
use crate::rpc_call::{
    MESSAGE_CALL, NFS_PROGRAM, NFS_VERSION, PROC_COMPOUND, PROC_NULL, RPC_VERSION,
};

/// The numbers in the layouts and checks: those of calls, credentials and replies (RFC 5531, sections 8, 9 and appendix
/// A), of NFSv4 (RFC 7531, section 3), of the headers of fragments (RFC 5531, section 11), and this server's limit on
/// the length of a record.
pub fn numbers_of_messages()
    ensures calls { (MESSAGE_CALL ≡ 0) × (RPC_VERSION ≡ 2) × (NFS_PROGRAM ≡ 100003)
        × (NFS_VERSION ≡ 4) × (PROC_NULL ≡ 0) × (PROC_COMPOUND ≡ 1) }
    ensures credentials { (AUTH_NONE ≡ 0) × (AUTH_SYS ≡ 1) × (BODY_LIMIT ≡ 400)
        × (MACHINE_NAME_LIMIT ≡ 255) × (GID_LIMIT ≡ 16) }
    ensures accepted { (ACCEPTED_SUCCESS ≡ 0) × (ACCEPTED_PROG_UNAVAIL ≡ 1)
        × (ACCEPTED_PROG_MISMATCH ≡ 2) × (ACCEPTED_PROC_UNAVAIL ≡ 3)
        × (ACCEPTED_GARBAGE_ARGS ≡ 4) × (ACCEPTED_SYSTEM_ERR ≡ 5) }
    ensures lengths { (ACCEPTED_LEN ≡ 24) × (SHORT_REPLY_LEN ≡ 32) }
    ensures replies { (MESSAGE_REPLY ≡ 1) × (REPLY_ACCEPTED ≡ 0) × (REPLY_DENIED ≡ 1) }
    ensures denied { (DENIED_RPC_MISMATCH ≡ 0) × (DENIED_AUTH_ERROR ≡ 1) × (AUTH_BADCRED ≡ 1) }
    ensures callbacks { (CALLBACK_VERSION ≡ 1) × (CB_NULL ≡ 0) × (CB_COMPOUND ≡ 1)
        × (OP_CB_RECALL ≡ 4) }
    ensures records { (HEADER_LEN ≡ 4) × (LAST_FRAGMENT ≡ 2 ^ 31) × (RECORD_LIMIT ≡ 262144) }
{}
