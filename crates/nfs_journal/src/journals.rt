//! Writes a journal as the bytes of its file, and reads it from them.

ghost use Rattle.std.specs.Prelude.{◌≡◌, not};
ghost use Rattle.std.specs.List.{list_all};
ghost use Rattle.nfs_journal.specs.Journals.{Accepts, Reads, WritesFile, are_of_edition, is_entry, is_forget};

use crate::exact::read_exact;
use crate::file::write_parts;
use crate::{AuditError, File, FiledJournal, Opening};
use nfs_state::{Entry, Journal, LEASE_MAX, LEASE_MIN};
use nfs_tree::{Profile, Tree};
use std::alloc::Global;
use xdr::WireError;

/// Writes the file of the journal at the end, or nothing. Format if the journal has no form as bytes: an operation has
/// a list of 2^32 or more.
pub fn write_journal(out: &mut Vec<u8>, journal: &Journal) -> Result<(), AuditError>
    ensures { WritesFile out.old out.new result journal.now.history }
{
    match write_parts(out, &Opening::of(journal), journal) {
        Ok(()) => Ok(()),
        Err(WireError::Memory) => Err(AuditError::Memory),
        Err(_) => Err(AuditError::Format),
    }
}

/// The journal whose file these bytes are. Format if they are the file of none.
pub fn read_journal(alloc: Global, bytes: &[u8]) -> Result<FiledJournal, AuditError>
    ensures { Reads result bytes.now }
{
    match read_exact::<File>(alloc, bytes) {
        Ok(file) => journal_of(file),
        Err(WireError::Memory) => Err(AuditError::Memory),
        Err(_) => Err(AuditError::Format),
    }
}

// The journal that has what the file has; Format if that is none.
fn journal_of(file: File) -> Result<FiledJournal, AuditError>
    ensures { Accepts result file }
{
    let File {
        opening,
        nodes,
        entries,
    } = file;
    let start = opening.start();
    if start.lease < LEASE_MIN || start.lease > LEASE_MAX {
        return Err(AuditError::Format);
    }
    let Ok(tree) = Tree::from_nodes(nodes.into_vec(), start.policy) else {
        return Err(AuditError::Format);
    };
    if !are_entries(start.policy.profile, tree.len(), entries.as_slice()) {
        return Err(AuditError::Format);
    }
    if !are_of_edition(opening, entries.as_slice()) {
        return Err(AuditError::Format);
    }
    Ok(FiledJournal {
        opening,
        tree,
        entries: entries.into_vec(),
    })
}

// Whether these are entries that a journal can have of this profile, whose tree has so many nodes.
fn are_entries(profile: Profile, nodes: u32, entries: &[Entry]) -> bool
    ensures { result ≡ list_all (is_entry profile nodes) entries.now }
{
    entries.iter().all(|e| is_entry(profile, nodes, e))
}

fn is_entry(profile: Profile, nodes: u32, entry: &Entry) -> bool
    ensures { result ≡ is_entry profile nodes entry.now }
{
    match entry {
        Entry::Call(call) => call.request.can_be_asked(profile, nodes),
        Entry::Expire(_) | Entry::Revoke(_) | Entry::Path(_) | Entry::Forget(_) => true,
    }
}

// Whether the entries are such as a file of this edition may have: before the third no owner was forgotten.
fn are_of_edition(opening: Opening, entries: &[Entry]) -> bool
    ensures { result ≡ are_of_edition opening entries.now }
{
    match opening {
        Opening::Second(_) => have_no_forget(entries),
        Opening::Clients(_) | Opening::Third(_) => true,
    }
}

// Whether none of the entries is the end of what is kept for an owner.
fn have_no_forget(entries: &[Entry]) -> bool
    ensures { result ≡ list_all (λ e. not (is_forget e)) entries.now }
{
    entries.iter().all(|e| is_no_forget(e))
}

fn is_no_forget(entry: &Entry) -> bool
    ensures { result ≡ not (is_forget entry.now) }
{
    !matches!(entry, Entry::Forget(_))
}
