//! The journal's file, written at the end of a run.

ghost use Rattle.std.specs.Prelude.{◌≡◌, ◌+◌, ◌-◌, ◌^◌, ◌<◌, ◌≤◌, [], Some, vec_capacity, IfOk, IfSome, IsErrOf, OnErr, OnOk};
ghost use Rattle.nfs_journal.specs.File as forms;
ghost use Rattle.nfs_server.specs.Device.{IsCut, IsWritten, device_of_sink};
ghost use Rattle.nfs_program.specs.Once.{IsFiled, IsFiledBy};
ghost use Rattle.nfs_program.specs.Pieces.{HasPlace, HasRoomForFile, HasRoomForFileOf, HavePlace};
ghost use Rattle.nfs_program.specs.declared.fault.Fault.{Fault};
ghost use Rattle.nfs_state.specs.EntryForm.{entry};
ghost use Rattle.nfs_tree.specs.NodeForm.{node};
ghost use Rattle.xdr.specs.Form.{◌and◌, many};
ghost use Rattle.xdr.specs.Layout.{NO_LIMIT};
ghost use Rattle.xdr.specs.declared.wire_error.WireError.TheVariants as errors;

use crate::Fault;
use crate::pieces::{make_place, make_places, put, put_many};
use nfs_core::Journal;
use nfs_journal::Opening;
use nfs_server::{DeviceFailed, Sink, write_to};
use nfs_tree::Node;
use std::alloc::{AllocError, Global};
use xdr::WireError;

/// The length of the memory by which a journal's file is written. Behind the bytes that wait there is room for the
/// longest entry that there can be: what a record can bring, and the longest answer.
pub const BUFFER_LEN: usize = 524_288;

/// The memory by which the file of a journal is written, if there is a sink for it: to be had before a run, so that
/// none has to be had at its end.
pub fn file_buffer<J>(alloc: Global, file: &Option<J>) -> Result<Vec<u8>, AllocError>
    ensures { IfSome file.now (λ sink. IfOk result (λ buffer. BUFFER_LEN ≤ vec_capacity buffer)) }
{
    match file {
        None => Ok(Vec::new(alloc)),
        Some(_) => Vec::with_capacity(alloc, BUFFER_LEN),
    }
}

/// Writes the file of the journal, if there is a sink for it, by the memory of this buffer, whose bytes are lost, and
/// which grows where it has no room for a part of the file. Returns why the file wasn't written, if it should have
/// been: for want of memory only where there is a part that the buffer had no room for.
pub fn file_journal<J: Sink>(
    buffer: &mut Vec<u8>,
    journal: &Journal,
    file: &mut Option<J>,
) -> Option<Fault>
    requires writes { IfSome file.old (λ sink. J.failures sink < 2 ^ 64 - 1) }
    ensures filed { IsFiled (device_of_sink J.takes J.fails) J.failures file.old file.new
        journal.now.history result }
    ensures memory { result ≡ Some Fault.NoMemory
        → ¬ (HasRoomForFileOf (vec_capacity buffer.old) journal.now.history) }
{
    match file {
        None => None,
        Some(file) => write_file(buffer, journal, file),
    }
}

#[tactic(auto, unfolding(nfs_journal::specs::File::file))]
fn write_file<J: Sink>(buffer: &mut Vec<u8>, journal: &Journal, file: &mut J) -> Option<Fault>
    requires writes { J.failures file.old < 2 ^ 64 - 1 }
    ensures filed { IsFiledBy (device_of_sink J.takes J.fails) J.failures file.old file.new
        journal.now.history result }
    ensures memory { result ≡ Some Fault.NoMemory
        → ¬ (HasRoomForFileOf (vec_capacity buffer.old) journal.now.history) }
{
    let opening = Opening::of(journal);
    let nodes = journal.tree().nodes();
    match make_room(buffer, &opening, nodes, journal) {
        Err(WireError::Memory) => return Some(Fault::NoMemory),
        Err(_) => return Some(Fault::FileNotWritten),
        Ok(()) => {}
    }
    buffer.clear();
    match put_file(file, buffer, &opening, nodes, journal) {
        Err(DeviceFailed) => Some(Fault::FileNotWritten),
        Ok(()) => None,
    }
}

// Looks whether all of the file fits its form, and makes room in the buffer for each part of it.
fn make_room(
    buffer: &mut Vec<u8>,
    opening: &Opening,
    nodes: &[Node],
    journal: &Journal,
) -> Result<(), WireError>
    ensures ok { OnOk result (HasPlace forms.opening (vec_capacity buffer.new) opening.now
        × HavePlace node (vec_capacity buffer.new) nodes.now
        × HavePlace entry (vec_capacity buffer.new) journal.now.history.entries) }
    ensures memory { IsErrOf result errors.Memory → ¬ (HasRoomForFile (vec_capacity buffer.old)
        (record { opening = opening.now; nodes = nodes.now; entries = journal.now.history.entries })) }
    ensures long { IsErrOf result errors.TooLong
        → ¬ ((forms.opening and many NO_LIMIT node and many NO_LIMIT entry).Fits
        (opening.now, (nodes.now, journal.now.history.entries))) }
    ensures short { IsErrOf result errors.Short → ⊥ }
{
    make_place(buffer, opening)?;
    make_places(buffer, &nodes)?;
    make_places(buffer, journal)
}

// Writes the parts of the file, each of which the buffer has room for.
fn put_file<J: Sink>(
    file: &mut J,
    buffer: &mut Vec<u8>,
    opening: &Opening,
    nodes: &[Node],
    journal: &Journal,
) -> Result<(), DeviceFailed>
    requires writes { J.failures file.old < 2 ^ 64 - 1 }
    requires empty { buffer.old.items ≡ [] }
    requires opening { HasPlace forms.opening (vec_capacity buffer.old) opening.now }
    requires nodes { HavePlace node (vec_capacity buffer.old) nodes.now }
    requires entries { HavePlace entry (vec_capacity buffer.old) journal.now.history.entries }
    ensures ok { OnOk result (IsWritten (device_of_sink J.takes J.fails) file.old
        ((forms.opening and many NO_LIMIT node and many NO_LIMIT entry).encoding
        (opening.now, (nodes.now, journal.now.history.entries))) file.new) }
    ensures err { OnErr result (IsCut (device_of_sink J.takes J.fails) file.old
        ((forms.opening and many NO_LIMIT node and many NO_LIMIT entry).encoding
        (opening.now, (nodes.now, journal.now.history.entries))) file.new) }
    ensures kept { OnOk result (J.failures file.new ≡ J.failures file.old) }
    ensures failed { OnErr result (J.failures file.new ≡ J.failures file.old + 1) }
{
    put(file, buffer, opening)?;
    put_many(file, buffer, &nodes)?;
    put_many(file, buffer, journal)?;
    write_to(file, buffer.as_slice())
}
