//! The form of a journal's file: its opening, the nodes, and the entries.

ghost use Rattle.std.specs.List.{All, flat_map};
ghost use Rattle.nfs_state.specs.EntryForm.{entry};
ghost use Rattle.nfs_journal.specs.File as forms;
ghost use Rattle.nfs_tree.specs.NodeForm.{node};
ghost use Rattle.xdr.specs.Form.{◌and◌, many};
ghost use Rattle.xdr.specs.Layout.{NO_LIMIT};
ghost use Rattle.xdr.specs.Writing.{Writes};

use crate::Opening;
use nfs_state::{Entry, Journal};
use nfs_tree::Node;
use std::alloc::Global;
use xdr::{Sequence, Wire, WireError, write_many, write_three};

/// What the file of a journal has.
#[derive(Drop)]
pub struct File {
    pub opening: Opening,
    /// The nodes beside the root, in the order of their numbers.
    pub nodes: Sequence<Node>,
    pub entries: Sequence<Entry>,
}

impl Wire for File {
    ghost form = { forms.file };

    #[tactic(auto, unfolding(crate::specs::File::file))]
    fn read(alloc: Global, bytes: &[u8]) -> Result<(File, &[u8]), WireError> {
        let (opening, rest) = Opening::read(alloc, bytes)?;
        let (nodes, rest) = Sequence::<Node>::read(alloc, rest)?;
        let (entries, rest) = Sequence::<Entry>::read(alloc, rest)?;
        let file = File {
            opening,
            nodes,
            entries,
        };
        Ok((file, rest))
    }

    #[tactic(auto, unfolding(crate::specs::File::file))]
    fn write(&self, out: &mut Vec<u8>) -> Result<(), WireError> {
        write_three(out, &self.opening, &self.nodes, &self.entries)
    }
}

/// Writes the file with this opening, and the nodes and entries of this journal, at the end, or nothing.
#[tactic(auto, unfolding(crate::specs::File::file))]
pub(crate) fn write_parts(
    out: &mut Vec<u8>,
    opening: &Opening,
    journal: &Journal,
) -> Result<(), WireError>
    ensures { Writes out.old out.new result
        (forms.file.encoding (record {
          opening = opening.now;
          nodes = journal.now.history.nodes;
          entries = journal.now.history.entries;
        }))
        (forms.file.Fits (record {
          opening = opening.now;
          nodes = journal.now.history.nodes;
          entries = journal.now.history.entries;
        })) }
{
    let start = out.len();
    opening.write(out)?;
    match write_lists(out, journal) {
        Ok(()) => Ok(()),
        Err(error) => {
            out.truncate(start);
            Err(error)
        }
    }
}

// Writes the nodes and the entries at the end, or nothing.
fn write_lists(out: &mut Vec<u8>, journal: &Journal) -> Result<(), WireError>
    ensures { Writes out.old out.new result
        ((many NO_LIMIT node and many NO_LIMIT entry).encoding
        (journal.now.history.nodes, journal.now.history.entries))
        ((many NO_LIMIT node and many NO_LIMIT entry).Fits
        (journal.now.history.nodes, journal.now.history.entries)) }
{
    let start = out.len();
    write_many(out, journal.tree().nodes(), xdr::NO_LIMIT)?;
    match write_entries(out, journal) {
        Ok(()) => Ok(()),
        Err(error) => {
            out.truncate(start);
            Err(error)
        }
    }
}

// Writes the count of the entries, and the entries, at the end, or nothing.
fn write_entries(out: &mut Vec<u8>, journal: &Journal) -> Result<(), WireError>
    ensures { Writes out.old out.new result
        ((many NO_LIMIT entry).encoding journal.now.history.entries)
        ((many NO_LIMIT entry).Fits journal.now.history.entries) }
{
    let Ok(count) = u32::try_from(journal.len()) else {
        return Err(WireError::TooLong);
    };
    let start = out.len();
    count.write(out)?;
    match write_each(out, journal) {
        Ok(()) => Ok(()),
        Err(error) => {
            out.truncate(start);
            Err(error)
        }
    }
}

// Writes the entries at the end, one after the other, or nothing.
fn write_each(out: &mut Vec<u8>, journal: &Journal) -> Result<(), WireError>
    ensures { Writes out.old out.new result (flat_map entry.encoding journal.now.history.entries)
        (All entry.Fits journal.now.history.entries) }
{
    let start = out.len();
    for number in 0..journal.len() {
        let Some(entry) = journal.entry(number) else {
            unreachable!()
        };
        if let Err(error) = entry.write(out) {
            out.truncate(start);
            return Err(error);
        }
    }
    Ok(())
}
