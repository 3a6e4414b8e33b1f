//! A file's bytes, size and change attribute, as READ, WRITE and SETATTR use them.

ghost use Rattle.std.specs.Prelude.{◌≡◌, ◌↔◌, ◌<◌, ◌≤◌, ◌+◌, ◌-◌, ◌^◌, ◌==◌, IfOk, IsOk, IsTrue, OnOk, Some, [], length, take};
ghost use Rattle.nfs_tree.specs.declared.tree.TheConstants.{TEXT_LIMIT};
ghost use Rattle.nfs_state.specs.FileChange.{ComesWith, change_seen, end_of};
ghost use Rattle.nfs_state.specs.Files.{after_change, after_cut, after_write, first_file, read_of};
ghost use Rattle.nfs_state.specs.Pages.{AreFilledUp, zero_page};

use crate::file_change::{FileChange, FileChangeRef};
use crate::pages::Pages;
use nfs_tree::TEXT_LIMIT;
use std::alloc::{AllocError, Global};
use std::marker::Model;
use xdr::{ByteParts, SharedBytes};

/// A file as it is now (RFC 7530, section 5.8.1). Contracts also see the change for which there is room.
#[derive(Drop)]
pub struct StoredFile {
    node: u32,
    // The file's bytes, and zeros behind them.
    pages: Pages,
    size: usize,
    change: u64,
    ready: Option<ReadyChange>,
}

// A change for which there is room, and the pages that come with it.
#[derive(Drop)]
struct ReadyChange {
    change: FileChange,
    pages: Pages,
}

impl Model for StoredFile {
    ghost use Rattle.std.specs.Prelude.{◌≡◌, ◌≤◌, IfSome, length, option_map, take};
    ghost use Rattle.nfs_state.specs.FileChange.{ComesWith};
    ghost use Rattle.nfs_state.specs.Files.{RoomyFile};
    ghost use Rattle.nfs_state.specs.Pages.{AreFilledUp};

    ghost Value = { RoomyFile };

    ghost view = { λ f. record {
      file = record { node = f.node; bytes = take f.size f.pages; change = f.change };
      ready = option_map (λ w. w.change) f.ready;
    } };

    ghost invariant = { λ f. (f.size ≤ length f.pages)
        × AreFilledUp (take f.size f.pages) f.pages
        × IfSome f.ready (λ w. ComesWith f.pages w.change w.pages) };
}

impl StoredFile {
    /// The file of a node with this text, before any client changes it.
    pub(crate) fn new(
        alloc: Global,
        zeros: &SharedBytes,
        node: u32,
        text: &[u8],
    ) -> Result<StoredFile, AllocError>
        requires { zeros.now ≡ zero_page }
        ensures { IfOk result (λ f. f.file ≡ first_file node text.now) }
    {
        Ok(StoredFile {
            node,
            pages: pages_of(alloc, zeros, text)?,
            size: text.len(),
            change: 0,
            ready: None,
        })
    }

    /// Whether the file is that of this node in the tree.
    pub fn is_of(&self, node: u32) -> bool
        ensures { result ≡ (self.now.file.node == node) }
    {
        self.node == node
    }

    /// How often the file was changed (the attribute change).
    pub fn change(&self) -> u64
        ensures { result ≡ self.now.file.change }
    {
        self.change
    }

    /// How many bytes the file has.
    pub fn size(&self) -> u64
        ensures { result ≡ length self.now.file.bytes }
    {
        self.size as u64
    }

    /// READ (RFC 7530, section 16.23): whether nothing comes after what it gives, and at most so many bytes from the
    /// offset on, and never more than `TEXT_LIMIT`.
    pub(crate) fn read(
        &self,
        alloc: Global,
        zeros: &SharedBytes,
        offset: u64,
        count: u32,
    ) -> Result<(bool, ByteParts), AllocError>
        ensures { IfOk result (λ given. (given.0, given.1)
            ≡ read_of self.now.file.bytes offset count) }
    {
        if offset >= self.size as u64 {
            return Ok((true, no_bytes(zeros)?));
        }
        let offset = offset as usize;
        let left = self.size - offset;
        let len = (count as usize).min(TEXT_LIMIT).min(left);
        Ok((len == left, self.pages.parts(alloc, offset, len)?))
    }

    // Whether there is room for this change.
    fn is_ready(&self, change: FileChangeRef<'_>) -> bool
        ensures { IsTrue result ↔ (self.now.ready ≡ Some (change_seen change.entry)) }
    {
        match &self.ready {
            Some(ready) => ready.change.is(change),
            None => false,
        }
    }

    /// Makes room for the change: the pages that come with it, and zeros behind the file where it gets longer.
    pub(crate) fn reserve(
        &mut self,
        zeros: &SharedBytes,
        change: FileChangeRef<'_>,
    ) -> Result<(), AllocError>
        requires zeros { zeros.now ≡ zero_page }
        requires limit { end_of (change_seen change) ≤ TEXT_LIMIT }
        ensures same { self.new.file ≡ self.old.file }
        ensures room { OnOk result (self.new.ready ≡ Some (change_seen change.entry)) }
        ensures ready { self.old.ready ≡ Some (change_seen change.entry) → IsOk result }
    {
        if self.is_ready(change) {
            return Ok(());
        }
        self.ready = None;
        self.ready = Some(prepare(&mut self.pages, zeros, self.size, change)?);
        Ok(())
    }

    /// Makes the change, for which there has to be room. It takes no memory.
    pub(crate) fn make(&mut self, change: FileChangeRef<'_>)
        requires limit { end_of (change_seen change) ≤ TEXT_LIMIT }
        requires room { self.old.ready ≡ Some (change_seen change) }
        requires changes { self.old.file.change < 2 ^ 64 - 1 }
        ensures { self.new.file ≡ after_change (change_seen change.entry) self.old.file }
    {
        match change {
            FileChangeRef::Writes { offset, block } => self.write(offset, block),
            FileChangeRef::Cuts { size } => self.cut(size),
        }
    }

    // WRITE of the block at this offset (RFC 7530, section 16.36), for which there has to be room.
    fn write(&mut self, offset: usize, block: &SharedBytes)
        requires limit { offset + length block.now ≤ TEXT_LIMIT }
        requires room { self.old.ready ≡ Some (FileChange.Writes offset block.now) }
        requires changes { self.old.file.change < 2 ^ 64 - 1 }
        ensures { self.new.file ≡ after_write offset block.now self.old.file }
    {
        // There is room.
        let ready = self.ready.take().unwrap();
        self.pages.replace(offset, ready.pages);
        self.size = self.size.max(offset + block.as_slice().len());
        self.change += 1;
    }

    // Sets the size (RFC 7530, section 16.32), for which there has to be room.
    fn cut(&mut self, size: usize)
        requires room { self.old.ready ≡ Some (FileChange.Cuts size) }
        requires changes { self.old.file.change < 2 ^ 64 - 1 }
        ensures { self.new.file ≡ after_cut size self.old.file }
    {
        // There is room.
        let ready = self.ready.take().unwrap();
        self.pages.end_with(size, ready.pages);
        self.size = size;
        self.change += 1;
    }
}

/// No bytes, which takes no memory: it is a part of the zeros.
pub(crate) fn no_bytes(zeros: &SharedBytes) -> Result<ByteParts, AllocError>
    ensures { IfOk result (λ bytes. bytes ≡ []) }
{
    Ok(ByteParts::of_one(zeros.part(0, 0)?))
}

// The text in pages, and zeros behind it.
fn pages_of(alloc: Global, zeros: &SharedBytes, text: &[u8]) -> Result<Pages, AllocError>
    requires { zeros.now ≡ zero_page }
    ensures { IfOk result (λ pages. AreFilledUp text.now pages) }
{
    let text = SharedBytes::copy_of(alloc, text)?;
    let mut pages = Pages::new(alloc);
    pages.grow(zeros, text.as_slice().len())?;
    let first = pages.after(0, &text)?;
    pages.replace(0, first);
    Ok(pages)
}

// Makes the pages that come with a change of a file that uses so many bytes, and adds zeros where it gets longer.
fn prepare(
    pages: &mut Pages,
    zeros: &SharedBytes,
    used: usize,
    change: FileChangeRef<'_>,
) -> Result<ReadyChange, AllocError>
    requires zeros { zeros.now ≡ zero_page }
    requires used { (used ≤ length pages.old) × AreFilledUp (take used pages.old) pages.old }
    requires limit { end_of (change_seen change) ≤ TEXT_LIMIT }
    ensures zeros { AreFilledUp pages.old pages.new }
    ensures change { IfOk result (λ ready. ready.change ≡ change_seen change.entry) }
    ensures pages { IfOk result (λ ready.
        ComesWith pages.new (change_seen change.entry) ready.pages) }
{
    pages.grow(zeros, change.end())?;
    let made = match change {
        FileChangeRef::Writes { offset, block } => pages.after(offset, block)?,
        FileChangeRef::Cuts { size } => pages.end_at(zeros, used, size)?,
    };
    Ok(ReadyChange {
        change: change.to_owned()?,
        pages: made,
    })
}
