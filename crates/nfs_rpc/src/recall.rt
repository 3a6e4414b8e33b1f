//! Recalls of delegations: what a recall needs, and its CB_COMPOUND as a record.

ghost use Rattle.std.specs.Prelude.{◌≡◌, [], false, OnErr, Err};
ghost use Rattle.nfs_rpc.specs.CallbackCall.{recall_args, recall_call, recall_form, recall_head, recall_list, recall_operation, recall_target};
ghost use Rattle.nfs_rpc.specs.Reply.{written_record};
ghost use Rattle.xdr.specs.Writing.{Writes};

use crate::callback_call::{CB_COMPOUND, OP_CB_RECALL, end_record, write_callback_header};
use nfs_xdr::{Callback, FILE_HANDLE_LIMIT, FileHandle, Principal, Stateid};
use xdr::{WireError, write_five, write_three, write_u32};

/// The recall of a delegation (RFC 7530, section 10.4.4): which one, and how its client is called back.
#[derive(Clone, Drop)]
pub struct Recall {
    /// How the client is called back.
    pub callback: Callback,
    /// The client, whose flavor the call's credential has.
    pub principal: Principal,
    /// The delegation.
    pub stateid: Stateid,
    /// The delegated file.
    pub handle: FileHandle,
}

/// Writes the CB_COMPOUND that recalls the delegation at the end, as a record of one fragment, or nothing. Only memory
/// can be missing.
#[tactic(auto, unfolding(xdr::specs::Writing::written_number))]
pub fn write_recall_call(out: &mut Vec<u8>, xid: u32, recall: &Recall) -> Result<(), WireError>
    ensures call { Writes out.old out.new result
        (written_record (recall_form.encoding (recall_call xid recall.now)))
        (recall_form.Fits (recall_call xid recall.now)) }
    ensures memory { OnErr result (result ≡ Err WireError.Memory) }
{
    let start = out.len();
    // Space for the fragment's header, which is written once the length is known.
    write_u32(out, 0)?;
    match write_recall_message(out, xid, recall) {
        Ok(()) => {
            end_record(out, start);
            Ok(())
        }
        Err(error) => {
            out.truncate(start);
            Err(error)
        }
    }
}

// Writes the message of the call.
fn write_recall_message(out: &mut Vec<u8>, xid: u32, recall: &Recall) -> Result<(), WireError>
    ensures message { Writes out.old out.new result
        (recall_form.encoding (recall_call xid recall.now))
        (recall_form.Fits (recall_call xid recall.now)) }
    ensures memory { OnErr result (result ≡ Err WireError.Memory) }
{
    let start = out.len();
    let program = recall.callback.program;
    write_callback_header(out, xid, program, CB_COMPOUND, recall.principal)?;
    match write_recall_args(out, recall) {
        Ok(()) => Ok(()),
        Err(error) => {
            out.truncate(start);
            Err(error)
        }
    }
}

// Writes the arguments of the CB_COMPOUND.
fn write_recall_args(out: &mut Vec<u8>, recall: &Recall) -> Result<(), WireError>
    ensures args { Writes out.old out.new result
        (recall_args.encoding (recall_head recall.now, recall_target recall.now))
        (recall_args.Fits (recall_head recall.now, recall_target recall.now)) }
    ensures memory { OnErr result (result ≡ Err WireError.Memory) }
{
    let start = out.len();
    write_recall_list(out, recall.callback.ident)?;
    match write_target(out, recall.stateid, &recall.handle) {
        Ok(()) => Ok(()),
        Err(error) => {
            out.truncate(start);
            Err(error)
        }
    }
}

// Writes an empty tag, the minor version, the callback_ident, and the beginning of a list with one CB_RECALL.
#[tactic(auto, unfolding(xdr::specs::Writing::written_opaque, xdr::specs::Writing::written_number))]
fn write_recall_list(out: &mut Vec<u8>, ident: u32) -> Result<(), WireError>
    ensures list { Writes out.old out.new result
        (recall_list.encoding ([], (0, (ident, (tt, tt)))))
        (recall_list.Fits ([], (0, (ident, (tt, tt))))) }
    ensures memory { OnErr result (result ≡ Err WireError.Memory) }
{
    write_five(out, &0u32, &0u32, &ident, &1u32, &OP_CB_RECALL)
}

// Writes the delegation and its file, which nobody truncates.
#[tactic(auto, unfolding(nfs_forms::specs::Stateid::stateid, nfs_forms::specs::ClientId::client_id))]
fn write_target(out: &mut Vec<u8>, stateid: Stateid, handle: &FileHandle) -> Result<(), WireError>
    ensures target { Writes out.old out.new result
        (recall_operation.encoding (stateid, (false, handle.now)))
        (recall_operation.Fits (stateid, (false, handle.now))) }
    ensures memory { OnErr result (result ≡ Err WireError.Memory) }
{
    // A filehandle is never too long for its form.
    let len = handle.as_slice().len();
    prove!(len <= FILE_HANDLE_LIMIT);
    write_three(out, &stateid, &false, handle)
}
