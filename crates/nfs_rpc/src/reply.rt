//! Replies to calls, and their bytes.

ghost use Rattle.std.specs.Prelude.{[]};
ghost use Rattle.nfs_rpc.specs.Reply.{IsWritable, accepted_reply, denied_reply, no_verifier, written_accepted, written_reply};
ghost use Rattle.nfs_xdr.specs.Compound.{compound_result};
ghost use Rattle.xdr.specs.Form.{◌and◌};
ghost use Rattle.xdr.specs.Writing.{Writes};

use crate::credential::AUTH_NONE;
use crate::rpc_call::{NFS_VERSION, RPC_VERSION};
use nfs_xdr::{OpResult, Status, write_results};
use xdr::{Bytes, Sequence, Wire, WireError, write_five, write_four, write_two};

/// The message type of a reply (RFC 5531, section 9; msg_type).
pub const MESSAGE_REPLY: u32 = 1;

/// Whether a call is accepted or denied (reply_stat).
pub const REPLY_ACCEPTED: u32 = 0;

pub const REPLY_DENIED: u32 = 1;

/// The states of an accepted reply (RFC 5531, section 9; accept_stat).
pub const ACCEPTED_SUCCESS: u32 = 0;

pub const ACCEPTED_PROG_UNAVAIL: u32 = 1;

pub const ACCEPTED_PROG_MISMATCH: u32 = 2;

pub const ACCEPTED_PROC_UNAVAIL: u32 = 3;

pub const ACCEPTED_GARBAGE_ARGS: u32 = 4;

pub const ACCEPTED_SYSTEM_ERR: u32 = 5;

/// The states of a denied reply (reject_stat).
pub const DENIED_RPC_MISMATCH: u32 = 0;

pub const DENIED_AUTH_ERROR: u32 = 1;

/// Why the credential of a denied call isn't accepted (auth_stat).
pub const AUTH_BADCRED: u32 = 1;

/// The length of an accepted reply up to and including its state, in bytes.
pub const ACCEPTED_LEN: usize = 24;

/// The greatest length of a reply that needs no service, in bytes.
pub const SHORT_REPLY_LEN: usize = 32;

/// The result of a COMPOUND.
#[derive(Drop)]
pub struct CompoundReply {
    pub status: Status,
    /// The tag of the call.
    pub tag: Bytes,
    pub results: Sequence<OpResult>,
}

/// The reply to a call.
#[derive(Drop)]
pub enum Reply {
    /// SUCCESS, the reply to NULL.
    Null,
    /// SUCCESS with the result, the reply to COMPOUND.
    Compound(CompoundReply),
    /// PROG_UNAVAIL: the call is for another program.
    ProgUnavail,
    /// PROG_MISMATCH: the call is for another version of the program.
    ProgMismatch,
    /// PROC_UNAVAIL: there is no such procedure.
    ProcUnavail,
    /// GARBAGE_ARGS: the arguments can't be read.
    GarbageArgs,
    /// SYSTEM_ERR: memory ran out.
    SystemError,
    /// RPC_MISMATCH: the call uses another version of RPC.
    RpcMismatch,
    /// AUTH_ERROR: the credential isn't accepted or can't be read.
    AuthError,
}

/// Writes the reply to the call with this xid at the end, or nothing. TooLong only if a length in it is more than four
/// bytes can hold.
pub fn write_reply(out: &mut Vec<u8>, xid: u32, reply: &Reply) -> Result<(), WireError>
    ensures { Writes out.old out.new result
        (written_reply xid reply.now) (IsWritable xid reply.now) }
{
    match reply {
        Reply::Null => write_accepted(out, xid, ACCEPTED_SUCCESS),
        Reply::Compound(compound) => write_compound(out, xid, compound),
        Reply::ProgUnavail => write_accepted(out, xid, ACCEPTED_PROG_UNAVAIL),
        Reply::ProgMismatch => write_prog_mismatch(out, xid),
        Reply::ProcUnavail => write_accepted(out, xid, ACCEPTED_PROC_UNAVAIL),
        Reply::GarbageArgs => write_accepted(out, xid, ACCEPTED_GARBAGE_ARGS),
        Reply::SystemError => write_accepted(out, xid, ACCEPTED_SYSTEM_ERR),
        Reply::RpcMismatch => write_denied(
            out,
            xid,
            DENIED_RPC_MISMATCH,
            &(RPC_VERSION, RPC_VERSION),
        ),
        Reply::AuthError => write_denied(out, xid, DENIED_AUTH_ERROR, &AUTH_BADCRED),
    }
}

fn write_compound(out: &mut Vec<u8>, xid: u32, reply: &CompoundReply) -> Result<(), WireError>
    ensures { Writes out.old out.new result
        (written_reply xid (Reply.Compound reply.now)) (IsWritable xid (Reply.Compound reply.now)) }
{
    let start = out.len();
    write_accepted(out, xid, ACCEPTED_SUCCESS)?;
    match write_results(out, reply.status, &reply.tag, &reply.results) {
        Ok(()) => Ok(()),
        Err(error) => {
            out.truncate(start);
            Err(error)
        }
    }
}

fn write_prog_mismatch(out: &mut Vec<u8>, xid: u32) -> Result<(), WireError>
    ensures { Writes out.old out.new result
        (written_reply xid Reply.ProgMismatch) (IsWritable xid Reply.ProgMismatch) }
{
    let start = out.len();
    write_accepted(out, xid, ACCEPTED_PROG_MISMATCH)?;
    match write_two(out, &NFS_VERSION, &NFS_VERSION) {
        Ok(()) => Ok(()),
        Err(error) => {
            out.truncate(start);
            Err(error)
        }
    }
}

// Writes a denied reply, and the data that depends on its state.
fn write_denied<A: Wire>(
    out: &mut Vec<u8>,
    xid: u32,
    state: u32,
    reason: &A,
) -> Result<(), WireError>
    ensures { Writes out.old out.new result
        ((denied_reply state and A.form).encoding (xid, reason.now))
        ((denied_reply state and A.form).Fits (xid, reason.now)) }
{
    let start = out.len();
    write_four(out, &xid, &MESSAGE_REPLY, &REPLY_DENIED, &state)?;
    match reason.write(out) {
        Ok(()) => Ok(()),
        Err(error) => {
            out.truncate(start);
            Err(error)
        }
    }
}

// Writes an accepted reply up to the data that depends on its state. Its verifier has the flavor AUTH_NONE and no body.
#[tactic(auto, unfolding(xdr::specs::Writing::written_opaque, xdr::specs::Writing::written_number))]
fn write_accepted(out: &mut Vec<u8>, xid: u32, state: u32) -> Result<(), WireError>
    ensures { Writes out.old out.new result
        (written_accepted xid state) ((accepted_reply state).Fits (xid, no_verifier)) }
{
    write_five(
        out,
        &xid,
        &MESSAGE_REPLY,
        &REPLY_ACCEPTED,
        &(AUTH_NONE, 0u32),
        &state,
    )
}
