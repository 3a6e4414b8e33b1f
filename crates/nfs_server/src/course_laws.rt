//! Laws that hold for every course of a connection, for the questions of a service, and for what is written to a
//! device.
ghost use Rattle.std.specs.Prelude.{◌≡◌, ℕ, List, Option};
ghost use Rattle.nfs_server.specs.CourseLaws.{AddsWritten, GainsEntries, HasBytes, IsOneText, TellsBytes};
ghost use Rattle.nfs_server.specs.Device.{device_of_sink};
ghost use Rattle.nfs_server.specs.Entries.{QuestionsAreEntries};
ghost use Rattle.nfs_server.specs.Sides.{device_of};
ghost use Rattle.nfs_server.specs.Exchange.{rules};
ghost use Rattle.nfs_tree.specs.Exports.{Exported};

use crate::{Clock, Counted, Duplex, Lent, Service, Sides, Sink, Source};
use nfs_rpc::split_goes_on;
use std::io::{Read, Write};

/// The law that the records of a connection, answered turn by turn, are those of the whole text that was read, and that
/// the records of the last read continue them.
pub fn turns_are_of_one_text<D: Duplex, R: Source, W: Sink, S: Service, C: Clock>()
    ensures together { (export : Exported) → IsOneText D.device (rules export S.gives S.alike C.tells) }
    ensures apart { (export : Exported) → IsOneText (device_of R.gives R.fails W.takes W.fails)
        (rules export S.gives S.alike C.tells) }
{
    split_goes_on();
}

/// The law that a connection takes what it reads from the front of the bytes that its device has, and adds what it
/// writes after the bytes that were written before, if these bytes are known: of any device that tells them, as do two
/// devices of std as one, and of two devices of std apart.
pub fn bytes_of_a_connection<D: Duplex, R: Read, W: Write, S: Service, C: Clock>()
    ensures together { (export : Exported) (remaining contents : D → Option (List ℕ))
        → TellsBytes D.device remaining contents
        → HasBytes D.device (rules export S.gives S.alike C.tells) remaining contents }
    ensures sides { TellsBytes ⟦<Sides<Counted<R>, Counted<W>> as Duplex>⟧.device
        (λ sides. R.remaining sides.source.device) (λ sides. W.contents sides.sink.device) }
    ensures apart { (export : Exported) → HasBytes
        (device_of ⟦<Counted<R> as Source>⟧.gives ⟦<Counted<R> as Source>⟧.fails
        ⟦<Counted<W> as Sink>⟧.takes ⟦<Counted<W> as Sink>⟧.fails)
        (rules export S.gives S.alike C.tells)
        (λ sides. R.remaining sides.source.device) (λ sides. W.contents sides.sink.device) }
{}

/// The law that what is written to a device of std is added after the bytes that were written before, if these are
/// known: all of it, or a beginning that isn't all where a write failed.
pub fn bytes_of_writes<W: Write>()
    ensures { AddsWritten
        (device_of_sink ⟦<Counted<W> as Sink>⟧.takes ⟦<Counted<W> as Sink>⟧.fails)
        (λ sink. W.contents sink.device) }
{}

/// The law that, if the service is a core, its journal gains an entry for each operation that it was asked in a
/// connection and that wasn't answered NFS4ERR_RESOURCE, in order, and no others.
pub fn journal_of_a_connection<D: Duplex, R: Source, W: Sink, C: Clock>()
    ensures together { (export : Exported) → GainsEntries D.device
        (rules export ⟦<Lent as Service>⟧.gives ⟦<Lent as Service>⟧.alike C.tells) }
    ensures apart { (export : Exported) → GainsEntries (device_of R.gives R.fails W.takes W.fails)
        (rules export ⟦<Lent as Service>⟧.gives ⟦<Lent as Service>⟧.alike C.tells) }
{}

/// The law that the entries that a core's journal gains are the operations that it was asked, with their answers and in
/// order, except those that were answered `NFS4ERR_RESOURCE`.
pub fn questions_are_entries()
    ensures { QuestionsAreEntries }
{}
