//! What a reply says of the call: that it reached the client, or why it didn't.
ghost use Rattle.std.specs.Prelude.{◌≡◌, Bool, Err, IfErr, IfOk};
ghost use Rattle.nfs_callbacks.specs.Faults.{Anything, IsAnswer, Says, accepted_fault, accepted_head, denied_fault, denied_head, status_fault};
ghost use Rattle.nfs_rpc.specs.CallbackReply.{IsAccepted, IsDenied, IsTakenAs};
ghost use Rattle.nfs_rpc.specs.declared.callback_reply.CallbackReply.TheVariants as replies;
ghost use Rattle.xdr.specs.Reading.{number_at};

use crate::Fault;
use nfs_rpc::{
    ACCEPTED_GARBAGE_ARGS, ACCEPTED_PROC_UNAVAIL, ACCEPTED_PROG_MISMATCH, ACCEPTED_PROG_UNAVAIL,
    ACCEPTED_SUCCESS, ACCEPTED_SYSTEM_ERR, BODY_LIMIT, CallbackReply, DENIED_AUTH_ERROR,
    DENIED_RPC_MISMATCH, MESSAGE_REPLY, REPLY_ACCEPTED, REPLY_DENIED, read_cb_reply,
};
use xdr::{WireError, read_constant, read_opaque, read_u32};

/// What this record says to the call with this xid.
pub(crate) fn read_answer(message: &[u8], xid: u32, is_compound: bool) -> Result<(), Fault>
    ensures { IsAnswer is_compound xid message.now result }
{
    match read_cb_reply(message, xid, is_compound) {
        CallbackReply::Accepted => Ok(()),
        CallbackReply::Refused => Err(refusal(message, xid)),
        CallbackReply::Unreadable => Err(unreadable(message, xid)),
    }
}

// Why a call was refused.
fn refusal(message: &[u8], xid: u32) -> Fault
    ensures { (compound : Bool) → IsTakenAs compound xid message.now replies.Refused
        → Says compound xid message.now result }
{
    match read_accepted(message, xid) {
        Ok((state, rest)) => fault_of_accepted(state, rest),
        Err(_) => match read_denied(message, xid) {
            Ok(state) => fault_of_denied(state),
            Err(_) => Fault::Unreadable,
        },
    }
}

// The accept_stat of an accepted reply to the call with this xid, and the bytes after it.
fn read_accepted(message: &[u8], xid: u32) -> Result<(u32, &[u8]), WireError>
    ensures ok { IfOk result
        (λ read. IsAccepted xid read.0 (λ rest. rest ≡ read.1.now) message.now) }
    ensures err { IfErr result (λ error. (accepted_head xid).at message.now ≡ Err error) }
{
    let (_, rest) = read_constant(message, xid)?;
    let (_, rest) = read_constant(rest, MESSAGE_REPLY)?;
    let (_, rest) = read_constant(rest, REPLY_ACCEPTED)?;
    let (_flavor, rest) = read_u32(rest)?;
    let (_body, rest) = read_opaque(rest, BODY_LIMIT)?;
    let (state, rest) = read_u32(rest)?;
    Ok((state, rest))
}

// The reject_stat of a denied reply to the call with this xid.
fn read_denied(message: &[u8], xid: u32) -> Result<u32, WireError>
    ensures ok { IfOk result (λ state. IsDenied xid state Anything message.now) }
    ensures err { IfErr result (λ error. (denied_head xid).at message.now ≡ Err error) }
{
    let (_, rest) = read_constant(message, xid)?;
    let (_, rest) = read_constant(rest, MESSAGE_REPLY)?;
    let (_, rest) = read_constant(rest, REPLY_DENIED)?;
    let (state, _) = read_u32(rest)?;
    Ok(state)
}

// What an accepted reply of this accept_stat says, with these bytes after it.
fn fault_of_accepted(state: u32, rest: &[u8]) -> Fault
    ensures { result ≡ accepted_fault state rest.now }
{
    match state {
        ACCEPTED_SUCCESS => fault_of_status(rest),
        ACCEPTED_PROG_UNAVAIL => Fault::ProgUnavail,
        ACCEPTED_PROG_MISMATCH => Fault::ProgMismatch,
        ACCEPTED_PROC_UNAVAIL => Fault::ProcUnavail,
        ACCEPTED_GARBAGE_ARGS => Fault::GarbageArgs,
        ACCEPTED_SYSTEM_ERR => Fault::SystemError,
        _ => Fault::Unreadable,
    }
}

// What a reply SUCCESS says whose results are these bytes.
fn fault_of_status(results: &[u8]) -> Fault
    ensures { result ≡ status_fault (number_at 4 results.now) }
{
    match read_u32(results) {
        Ok((status, _)) => Fault::Status(status),
        Err(_) => Fault::Unreadable,
    }
}

// What a denied reply of this reject_stat says.
fn fault_of_denied(state: u32) -> Fault
    ensures { result ≡ denied_fault state }
{
    match state {
        DENIED_RPC_MISMATCH => Fault::RpcMismatch,
        DENIED_AUTH_ERROR => Fault::AuthError,
        _ => Fault::Unreadable,
    }
}

// What a record says that is no reply to the call with this xid, or can't be read.
fn unreadable(message: &[u8], xid: u32) -> Fault
    ensures { (compound : Bool) → IsTakenAs compound xid message.now replies.Unreadable
        → Says compound xid message.now result }
{
    match read_u32(message) {
        Ok((other, _)) if other == xid => Fault::Unreadable,
        Ok(_) => Fault::OtherXid,
        Err(_) => Fault::Unreadable,
    }
}
