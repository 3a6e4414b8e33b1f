//! Reads what a client replied to a callback, without taking memory.

ghost use Rattle.std.specs.Prelude.{◌≡◌};
ghost use Rattle.nfs_rpc.specs.CallbackReply.{IsTakenAs, versions};
ghost use Rattle.nfs_rpc.specs.ReadingCallbackReplies.{accepted_at, accepted_head, cb_compound_at, denied_at, refused_at, reply_at, reply_start};
ghost use Rattle.xdr.specs.Reading.{Answers};

use crate::callback_call::OP_CB_RECALL;
use crate::credential::read_opaque_auth;
use crate::reply::{
    ACCEPTED_GARBAGE_ARGS, ACCEPTED_PROC_UNAVAIL, ACCEPTED_PROG_MISMATCH, ACCEPTED_PROG_UNAVAIL,
    ACCEPTED_SUCCESS, ACCEPTED_SYSTEM_ERR, DENIED_AUTH_ERROR, DENIED_RPC_MISMATCH, MESSAGE_REPLY,
    REPLY_ACCEPTED, REPLY_DENIED,
};
use nfs_xdr::Status;
use xdr::{NO_LIMIT, WireError, read_constant, read_opaque, read_u32};

/// What a client says to a callback.
#[derive(Clone, Copy, PartialEq, Eq)]
pub enum CallbackReply {
    /// The call was carried out: SUCCESS, and for a CB_COMPOUND also status OK.
    Accepted,
    /// Any other reply to the call.
    Refused,
    /// No reply to the call, or one that can't be read.
    Unreadable,
}

/// What this record says to the callback with this xid: a CB_COMPOUND of one CB_RECALL, or a CB_NULL. Bytes after the
/// reply are ignored. No memory is taken.
pub fn read_cb_reply(message: &[u8], xid: u32, compound: bool) -> CallbackReply
    ensures { IsTakenAs compound xid message.now result }
{
    match read_reply(message, xid, compound) {
        Ok(true) => CallbackReply::Accepted,
        Ok(false) => CallbackReply::Refused,
        Err(_) => CallbackReply::Unreadable,
    }
}

// Whether the reply to the call with this xid accepts it.
fn read_reply(message: &[u8], xid: u32, compound: bool) -> Result<bool, WireError>
    ensures { Answers (λ accepts. accepts) result (reply_at compound xid message.now) }
{
    let (stat, rest) = read_start(message, xid)?;
    match stat {
        REPLY_ACCEPTED => read_accepted(rest, compound),
        REPLY_DENIED => read_denied(rest),
        _ => Err(WireError::Short),
    }
}

// The reply_stat of a reply to the call with this xid.
fn read_start(message: &[u8], xid: u32) -> Result<(u32, &[u8]), WireError>
    ensures { Answers (λ x. ((tt, (tt, x.0)), x.1.now)) result ((reply_start xid).at message.now) }
{
    let (_, rest) = read_constant(message, xid)?;
    let (_, rest) = read_constant(rest, MESSAGE_REPLY)?;
    read_u32(rest)
}

// The rest of an accepted reply.
fn read_accepted(bytes: &[u8], compound: bool) -> Result<bool, WireError>
    ensures { Answers (λ accepts. accepts) result (accepted_at compound bytes.now) }
{
    let (_, rest) = read_opaque_auth(bytes)?;
    let (state, rest) = read_u32(rest)?;
    match state {
        ACCEPTED_SUCCESS if compound => read_cb_compound(rest),
        ACCEPTED_SUCCESS => Ok(true),
        ACCEPTED_PROG_MISMATCH => read_versions(rest),
        ACCEPTED_PROG_UNAVAIL
        | ACCEPTED_PROC_UNAVAIL
        | ACCEPTED_GARBAGE_ARGS
        | ACCEPTED_SYSTEM_ERR => Ok(false),
        _ => Err(WireError::Short),
    }
}

// The rest of a denied reply.
fn read_denied(bytes: &[u8]) -> Result<bool, WireError>
    ensures { Answers (λ accepts. accepts) result (denied_at bytes.now) }
{
    let (state, rest) = read_u32(bytes)?;
    match state {
        DENIED_RPC_MISMATCH => read_versions(rest),
        DENIED_AUTH_ERROR => {
            read_u32(rest)?;
            Ok(false)
        }
        _ => Err(WireError::Short),
    }
}

// A refusal that names the lowest and the highest version that the client serves.
fn read_versions(bytes: &[u8]) -> Result<bool, WireError>
    ensures { Answers (λ accepts. accepts) result (refused_at versions bytes.now) }
{
    let (_, rest) = read_u32(bytes)?;
    read_u32(rest)?;
    Ok(false)
}

// The result of CB_COMPOUND: a status, a tag, and the results of its operations, of which only the first is read.
fn read_cb_compound(bytes: &[u8]) -> Result<bool, WireError>
    ensures { Answers (λ accepts. accepts) result (cb_compound_at bytes.now) }
{
    let (status, rest) = read_u32(bytes)?;
    let (_, rest) = read_opaque(rest, NO_LIMIT)?;
    let (count, rest) = read_u32(rest)?;
    let is_ok = status == Status::Ok.number();
    if count == 0 {
        return Ok(is_ok);
    }
    let (_, rest) = read_constant(rest, OP_CB_RECALL)?;
    read_u32(rest)?;
    Ok(is_ok)
}
