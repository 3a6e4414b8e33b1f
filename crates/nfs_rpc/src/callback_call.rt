//! Writes the calls of a client's callback program, from the record's header to the credential.

ghost use Rattle.std.specs.Prelude.{◌≡◌, ◌+◌, ◌^◌, ◌<◌, ◌≤◌, ◌++◌, length, take, drop, vec_capacity, OnErr, Err};
ghost use Rattle.nfs_rpc.specs.CallbackCall.{callback_header, credential_of, null_call};
ghost use Rattle.nfs_rpc.specs.Credential.{opaque_auth};
ghost use Rattle.nfs_rpc.specs.Reply.{no_verifier, written_record};
ghost use Rattle.nfs_rpc.specs.RpcCall.{header};
ghost use Rattle.xdr.specs.Form.{◌and◌};
ghost use Rattle.xdr.specs.Writing.{Writes};

use crate::credential::{AUTH_NONE, AUTH_SYS};
use crate::records::{HEADER_LEN, LAST_FRAGMENT};
use crate::rpc_call::{MESSAGE_CALL, RPC_VERSION};
use byteorder::{BigEndian, ByteOrder};
use nfs_xdr::Principal;
use xdr::{WireError, write_five, write_two, write_u32};

/// The version of a client's callback program (RFC 7531, NFS4_CALLBACK).
pub const CALLBACK_VERSION: u32 = 1;

/// The procedures of the program (RFC 7530, section 17).
pub const CB_NULL: u32 = 0;

pub const CB_COMPOUND: u32 = 1;

/// The operation of CB_COMPOUND that recalls a delegation (RFC 7531, nfs_cb_opnum4).
pub const OP_CB_RECALL: u32 = 4;

// The length of an AUTH_SYS body that names a user, and no machine and no groups, in bytes.
const USER_LEN: u32 = 20;

/// Writes the call of a client's CB_NULL at the end, as a record of one fragment, or nothing. Only memory can be
/// missing.
#[tactic(auto, unfolding(xdr::specs::Writing::written_number))]
pub fn write_null_call(out: &mut Vec<u8>, xid: u32, program: u32) -> Result<(), WireError>
    ensures call { Writes out.old out.new result
        (written_record (header.encoding (null_call xid program)))
        (header.Fits (null_call xid program)) }
    ensures memory { OnErr result (result ≡ Err WireError.Memory) }
{
    let start = out.len();
    // Space for the fragment's header, which is written once the length is known.
    write_u32(out, 0)?;
    match write_callback_header(out, xid, program, CB_NULL, Principal::AuthNone) {
        Ok(()) => {
            end_record(out, start);
            Ok(())
        }
        Err(error) => {
            out.truncate(start);
            Err(error)
        }
    }
}

// Writes the header of a fragment into the four bytes kept for it at `start`. With the message after them it is then a
// record of one fragment (RFC 5531, section 11).
#[tactic(auto, unfolding(xdr::specs::Writing::written_number))]
pub(crate) fn end_record(out: &mut Vec<u8>, start: usize)
    requires kept { start + 4 ≤ length out.old.items }
    requires short { length out.old.items < start + 4 + 2 ^ 31 }
    ensures record { out.new.items
        ≡ take start out.old.items ++ written_record (drop (start + 4) out.old.items) }
    ensures room { vec_capacity out.new ≡ vec_capacity out.old }
{
    let len = (out.len() - start - HEADER_LEN) as u32;
    BigEndian::write_u32(&mut out[start..], LAST_FRAGMENT + len);
}

// Writes the header of a call to a client with this principal.
#[tactic(auto, unfolding(crate::specs::RpcCall::start, crate::specs::RpcCall::body))]
pub(crate) fn write_callback_header(
    out: &mut Vec<u8>,
    xid: u32,
    program: u32,
    procedure: u32,
    principal: Principal,
) -> Result<(), WireError>
    ensures call { Writes out.old out.new result
        (header.encoding (callback_header xid program procedure principal))
        (header.Fits (callback_header xid program procedure principal)) }
    ensures memory { OnErr result (result ≡ Err WireError.Memory) }
{
    let start = out.len();
    let version = (CALLBACK_VERSION, procedure);
    write_five(out, &xid, &MESSAGE_CALL, &RPC_VERSION, &program, &version)?;
    match write_auths(out, principal) {
        Ok(()) => Ok(()),
        Err(error) => {
            out.truncate(start);
            Err(error)
        }
    }
}

// Writes the credential, and an empty verifier.
fn write_auths(out: &mut Vec<u8>, principal: Principal) -> Result<(), WireError>
    ensures auths { Writes out.old out.new result
        ((opaque_auth and opaque_auth).encoding (credential_of principal, no_verifier))
        ((opaque_auth and opaque_auth).Fits (credential_of principal, no_verifier)) }
    ensures memory { OnErr result (result ≡ Err WireError.Memory) }
{
    match principal {
        Principal::AuthNone => write_no_user(out),
        Principal::AuthSys(uid) => write_user(out, uid),
    }
}

// A credential and a verifier that are both empty.
#[tactic(auto, unfolding(xdr::specs::Writing::written_opaque, xdr::specs::Writing::written_number))]
fn write_no_user(out: &mut Vec<u8>) -> Result<(), WireError>
    ensures auths { Writes out.old out.new result
        ((opaque_auth and opaque_auth).encoding (credential_of Principal.AuthNone, no_verifier))
        ((opaque_auth and opaque_auth).Fits (credential_of Principal.AuthNone, no_verifier)) }
    ensures memory { OnErr result (result ≡ Err WireError.Memory) }
{
    write_two(out, &(AUTH_NONE, 0u32), &(AUTH_NONE, 0u32))
}

// A credential of AUTH_SYS with this user, and an empty verifier.
#[tactic(auto, unfolding(crate::specs::AuthSys::auth_sys, xdr::specs::Writing::written_opaque, xdr::specs::Writing::written_number))]
fn write_user(out: &mut Vec<u8>, uid: u32) -> Result<(), WireError>
    ensures auths { Writes out.old out.new result
        ((opaque_auth and opaque_auth).encoding
        (credential_of (Principal.AuthSys uid), no_verifier))
        ((opaque_auth and opaque_auth).Fits (credential_of (Principal.AuthSys uid), no_verifier)) }
    ensures memory { OnErr result (result ≡ Err WireError.Memory) }
{
    let no_machine = (0u32, 0u32);
    let no_groups = (0u32, 0u32);
    let verifier = (AUTH_NONE, 0u32);
    write_five(
        out,
        &(AUTH_SYS, USER_LEN),
        &no_machine,
        &uid,
        &no_groups,
        &verifier,
    )
}
