//! Serves a connection from its first byte to its last: read, answer, write.

ghost use Rattle.std.specs.Prelude.{◌≡◌, ◌+◌, ◌-◌, ◌^◌, ◌<◌, ◌≤◌, ◌↔◌, ◌⊎◌, false, [], length, IfOk, OnOk, OnErr, IsErrOf};
ghost use Rattle.std.specs.List.{AllByRecursion};
ghost use Rattle.nfs_server.specs.Connection.{HasCourse, scene};
ghost use Rattle.nfs_server.specs.Device.{IsCut, IsWritten, device_of_sink};
ghost use Rattle.nfs_server.specs.Exchange.{rules};
ghost use Rattle.nfs_server.specs.Serves.{exported};
ghost use Rattle.nfs_tree.specs.Exports.{export_seen};
ghost use Rattle.nfs_server.specs.Serving.{IsServed};
ghost use Rattle.nfs_rpc.specs.Records.{IsStream, TakesPiece};

use crate::duplex::Pair;
use crate::replies::{GATHER_LIMIT, Replies};
use crate::{Buffers, Clock, Counted, DeviceFailed, Duplex, ServeError, Service, Sink};
use nfs_rpc::{RECORD_LIMIT, RecordError, Records};
use nfs_tree::{Export, Tree};
use std::alloc::{AllocError, Global};
use std::io;

/// The greatest number of bytes in the input of a connection.
pub const STREAM_LIMIT: u64 = 1 << 40;

/// The greatest number of bytes that one read asks a device for.
pub(crate) const PIECE_LEN: usize = 65_536;

/// Serves a connection over one device until its input ends, and returns how many bytes came after the last whole
/// record.
///
/// The records that a read completes are answered in their order, and their replies are written before the next read.
/// The service is asked the questions of a record's call at the moment that the clock shows for it. The error is `Read`
/// or `Write` exactly if a read or a write failed, `TooLong` if a header announces a record above `RECORD_LIMIT`,
/// `TooMuch` if more than `STREAM_LIMIT` bytes came, and `Memory` if memory ran out: before the first read, for what
/// was read, or for a reply; then nothing of that record's call was run. What was done before an error remains done,
/// and its replies were written, except those in which a write failed.
pub fn serve_duplex<D: Duplex, S: Service, C: Clock>(
    alloc: Global,
    device: &mut D,
    service: &mut S,
    tree: &Tree,
    clock: &mut C,
) -> Result<usize, ServeError>
    requires reads { D.read_failures device.old < 2 ^ 64 - 1 }
    requires writes { D.write_failures device.old < 2 ^ 64 - 1 }
    requires serves { (S.serves service.old).nodes ≡ tree.now.nodes }
    ensures serves { S.serves service.new ≡ S.serves service.old }
    ensures course { HasCourse D.device
        (rules (exported tree.now (S.serves service.old)) S.gives S.alike C.tells)
        (scene device.old service.old clock.old) result (scene device.new service.new clock.new) }
    ensures read_failed { IsErrOf result ServeError.Read
        ↔ D.read_failures device.old < D.read_failures device.new }
    ensures write_failed { IsErrOf result ServeError.Write
        ↔ D.write_failures device.old < D.write_failures device.new }
{
    let mut buffers = make_buffers(alloc)?;
    buffers.serve(device, service, tree, clock)
}

// The buffers of a connection that has its own.
fn make_buffers(alloc: Global) -> Result<Buffers, ServeError>
    ensures memory { OnErr result (result ≡ Err ServeError.Memory) }
{
    Buffers::new(alloc).map_err(|_| ServeError::Memory)
}

/// Serves a connection so, with this buffer for the bytes of one read, and these replies, of which none waits.
pub(crate) fn serve_turns<D: Duplex, S: Service, C: Clock>(
    replies: &mut Replies,
    buffer: &mut [u8],
    device: &mut D,
    service: &mut S,
    export: &Export<'_>,
    clock: &mut C,
) -> Result<usize, ServeError>
    requires room { length buffer.old ≡ PIECE_LEN }
    requires idle { replies.old.gathered.items ≡ [] }
    requires none { replies.old.pending.items ≡ [] }
    requires written { replies.old.answered.items ≡ [] }
    requires reads { D.read_failures device.old < 2 ^ 64 - 1 }
    requires writes { D.write_failures device.old < 2 ^ 64 - 1 }
    requires serves { S.serves service.old ≡ export_seen export.now }
    ensures room { length buffer.new ≡ PIECE_LEN }
    ensures serves { S.serves service.new ≡ export_seen export.now }
    ensures course { HasCourse D.device (rules (export_seen export.now) S.gives S.alike C.tells)
        (scene device.old service.old clock.old) result (scene device.new service.new clock.new) }
    ensures read_failed { IsErrOf result ServeError.Read
        ↔ D.read_failures device.old < D.read_failures device.new }
    ensures write_failed { IsErrOf result ServeError.Write
        ↔ D.write_failures device.old < D.write_failures device.new }
{
    let mut records = Records::new(replies.alloc());
    loop {
        let count = match device.read(buffer) {
            Ok(0) => return Ok(records.rest()),
            Ok(count) => count,
            Err(DeviceFailed) => return Err(ServeError::Read),
        };
        if count as u64 > STREAM_LIMIT - records.fed() {
            return Err(ServeError::TooMuch);
        }
        feed(&mut records, &buffer[..count])?;
        serve_ready(&mut records, replies, device, service, export, clock)?;
        if records.is_too_long() {
            return Err(ServeError::TooLong);
        }
    }
}

// Adds the next piece to the stream. If a record is too long now, `Records::is_too_long` says so afterwards.
fn feed(records: &mut Records, piece: &[u8]) -> Result<(), ServeError>
    requires room { records.old.fed + length piece.now ≤ 2 ^ 40 }
    requires goes { records.old.is_too_long ≡ false }
    ensures ok { OnOk result (TakesPiece records.old records.new piece.now) }
    ensures err { OnErr result (records.new ≡ records.old) }
    ensures memory { OnErr result (result ≡ Err ServeError.Memory) }
    ensures sound { IsStream records.new }
{
    match records.feed(piece) {
        Ok(()) | Err(RecordError::TooLong) => Ok(()),
        Err(RecordError::Memory) => Err(ServeError::Memory),
    }
}

// Answers the whole records in their order, and writes their replies.
fn serve_ready<D: Duplex, S: Service, C: Clock>(
    records: &mut Records,
    replies: &mut Replies,
    device: &mut D,
    service: &mut S,
    export: &Export<'_>,
    clock: &mut C,
) -> Result<(), ServeError>
    requires limits { AllByRecursion (λ message. length message ≤ RECORD_LIMIT) records.old.ready }
    requires idle { replies.old.gathered.items ≡ [] }
    requires none { replies.old.pending.items ≡ [] }
    requires written { replies.old.answered.items ≡ [] }
    requires writes { D.write_failures device.old < 2 ^ 64 - 1 }
    requires serves { S.serves service.old ≡ export_seen export.now }
    ensures serves { S.serves service.new ≡ export_seen export.now }
    ensures served { IsServed D.device (rules (export_seen export.now) S.gives S.alike C.tells)
        (scene device.old service.old clock.old) records.old.ready result
        (scene device.new service.new clock.new) }
    ensures taken { OnOk result (records.new ≡ record records.old { ready = [] }) }
    ensures idle { OnOk result (replies.new.gathered.items ≡ []) }
    ensures none { OnOk result (replies.new.pending.items ≡ []) }
    ensures written { OnOk result (replies.new.answered.items ≡ []) }
    ensures reads { D.read_failures device.new ≡ D.read_failures device.old }
    ensures ok { OnOk result (D.write_failures device.new ≡ D.write_failures device.old) }
    ensures write_failed { IsErrOf result ServeError.Write
        ↔ D.write_failures device.old < D.write_failures device.new }
    ensures errors { OnErr result
        (IsErrOf result ServeError.Write ⊎ IsErrOf result ServeError.Memory) }
{
    loop {
        match replies.answer_some(records, service, export, clock) {
            Ok(true) => {}
            Ok(false) => return send(device, replies),
            Err(AllocError) => {
                send(device, replies)?;
                return Err(ServeError::Memory);
            }
        }
        if replies.as_slice().len() > GATHER_LIMIT {
            send(device, replies)?;
        }
    }
}

// Writes the waiting replies, and removes them from the buffer.
fn send<D: Duplex>(device: &mut D, replies: &mut Replies) -> Result<(), ServeError>
    requires room { D.write_failures device.old < 2 ^ 64 - 1 }
    ensures ok { OnOk result (IsWritten D.device device.old replies.old.gathered.items device.new) }
    ensures err { OnErr result (IsCut D.device device.old replies.old.gathered.items device.new) }
    ensures write { OnErr result (result ≡ Err ServeError.Write) }
    ensures idle { OnOk result (replies.new.gathered.items ≡ []) }
    ensures pending { replies.new.pending.items ≡ replies.old.pending.items }
    ensures answered { replies.new.answered.items ≡ replies.old.answered.items }
    ensures reads { D.read_failures device.new ≡ D.read_failures device.old }
    ensures kept { OnOk result (D.write_failures device.new ≡ D.write_failures device.old) }
    ensures failed { OnErr result (D.write_failures device.old < D.write_failures device.new) }
{
    write_all(device, replies.as_slice()).map_err(|_| ServeError::Write)?;
    replies.clear();
    Ok(())
}

/// Writes all of the bytes to the sink.
pub fn write_to<W: Sink>(sink: &mut W, bytes: &[u8]) -> Result<(), DeviceFailed>
    requires room { W.failures sink.old < 2 ^ 64 - 1 }
    ensures ok { OnOk result
        (IsWritten (device_of_sink W.takes W.fails) sink.old bytes.now sink.new) }
    ensures err { OnErr result
        (IsCut (device_of_sink W.takes W.fails) sink.old bytes.now sink.new) }
    ensures kept { OnOk result (W.failures sink.new ≡ W.failures sink.old) }
    ensures failed { OnErr result (W.failures sink.new ≡ W.failures sink.old + 1) }
{
    let mut none = Counted::new(io::empty());
    let mut pair = Pair {
        source: &mut none,
        sink,
    };
    write_all(&mut pair, bytes)
}

// Writes all of the bytes.
fn write_all<D: Duplex>(device: &mut D, bytes: &[u8]) -> Result<(), DeviceFailed>
    requires room { D.write_failures device.old < 2 ^ 64 - 1 }
    ensures ok { OnOk result (IsWritten D.device device.old bytes.now device.new) }
    ensures err { OnErr result (IsCut D.device device.old bytes.now device.new) }
    ensures reads { D.read_failures device.new ≡ D.read_failures device.old }
    ensures kept { OnOk result (D.write_failures device.new ≡ D.write_failures device.old) }
    ensures failed { OnErr result (D.write_failures device.new ≡ D.write_failures device.old + 1) }
{
    let mut rest = bytes;
    while !rest.is_empty() {
        let taken = device.write(rest)?;
        let (_, beyond) = rest.split_at(taken);
        rest = beyond;
    }
    Ok(())
}
