//! The files of the tree as they are now.

ghost use Rattle.std.specs.Prelude.{◌≡◌, ◌≤◌, ◌+◌, [], IfOk, IsOk, OnOk, find, length, map, option_map, if◌then◌else◌, ◌==◌, ◌<◌, ◌^◌, ◌-◌, ◌≢◌};
ghost use Rattle.std.specs.Option.{option_copied};
ghost use Rattle.nfs_state.specs.FileChange.{change_seen, end_of};
ghost use Rattle.nfs_state.specs.Files.{CanChange, HasFileRoom, HasRoomIn, after_change, bytes_of, file_of, files_in, read_of, with_bytes, with_size};
ghost use Rattle.nfs_state.specs.Pages.{zero_page};
ghost use Rattle.nfs_state.specs.State.{initial_files};
ghost use Rattle.nfs_tree.specs.declared.tree.TheConstants.{TEXT_LIMIT};

use crate::StoredFile;
use crate::file_change::{FileChange, FileChangeRef};
use crate::pages::zero_page;
use crate::stored_file::no_bytes;
use nfs_tree::Tree;
use std::alloc::{AllocError, Global};
use std::marker::Model;
use xdr::{ByteParts, SharedBytes};

/// The files as they are now, in the order of their nodes' numbers.
#[derive(Drop)]
pub struct StoredFiles {
    files: Vec<StoredFile>,
    // A page of zeros, which all gaps share.
    zeros: SharedBytes,
}

impl Model for StoredFiles {
    ghost use Rattle.std.specs.Prelude.{◌≡◌, List};
    ghost use Rattle.nfs_state.specs.Files.{RoomyFile};
    ghost use Rattle.nfs_state.specs.Pages.{zero_page};
    ghost use Rattle.nfs_state.specs.State.{initial_files};

    ghost Value = { List RoomyFile };

    ghost view = { λ f. f.files.items };

    ghost invariant = { λ f. f.zeros ≡ zero_page };
}

impl StoredFiles {
    /// The files of the tree, with the texts that the tree gives them.
    pub(crate) fn of_tree(alloc: Global, tree: &Tree) -> Result<StoredFiles, AllocError>
        ensures { IfOk result (λ f. files_in f ≡ initial_files tree.now.nodes) }
    {
        let zeros = zero_page(alloc)?;
        let files = files_of(alloc, &zeros, tree)?;
        Ok(StoredFiles { files, zeros })
    }

    /// The file of a node, if the node is a file.
    pub fn find(&self, node: u32) -> Option<&StoredFile>
        ensures { option_map (λ f. f.file) (option_copied result)
            ≡ file_of (files_in self.now) node }
    {
        self.roomy_file(node)
    }

    // The file of a node, if the node is a file; contracts also see how much room it has.
    fn roomy_file(&self, node: u32) -> Option<&StoredFile>
        ensures { option_copied result ≡ find (λ f. f.file.node == node) self.now }
    {
        self.files.iter().find(|file| file.is_of(node))
    }

    /// READ of the node's file (RFC 7530, section 16.23): whether nothing comes after what it gives, and at most so
    /// many bytes from the offset on, and never more than `TEXT_LIMIT`. A directory has no bytes.
    pub fn read(
        &self,
        alloc: Global,
        node: u32,
        offset: u64,
        count: u32,
    ) -> Result<(bool, ByteParts), AllocError>
        ensures { IfOk result (λ given. (given.0, given.1)
            ≡ read_of (bytes_of (file_of (files_in self.now) node)) offset count) }
    {
        match self.find(node) {
            Some(file) => file.read(alloc, &self.zeros, offset, count),
            None => Ok((true, no_bytes(&self.zeros)?)),
        }
    }

    /// Makes room for the change of the node's file.
    pub(crate) fn reserve(&mut self, node: u32, change: FileChangeRef<'_>) -> Result<(), AllocError>
        requires limit { end_of (change_seen change) ≤ TEXT_LIMIT }
        ensures same { files_in self.new ≡ files_in self.old }
        ensures room { OnOk result (HasFileRoom node (change_seen change.entry) self.new) }
        ensures ready { HasFileRoom node (change_seen change.entry) self.old → IsOk result }
    {
        reserve_in(&mut self.files, &self.zeros, node, change)
    }

    /// WRITE of the block at this offset of the node's file (RFC 7530, section 16.36), for which there has to be room.
    /// Zeros fill a gap before it. It takes no memory.
    pub(crate) fn write(&mut self, node: u32, offset: u64, block: &SharedBytes)
        requires limit { offset + length block.now ≤ TEXT_LIMIT }
        requires room { HasFileRoom node (FileChange.Writes offset block.now) self.old }
        requires changes { CanChange (files_in self.old) }
        ensures { files_in self.new ≡ with_bytes node offset block.now (files_in self.old) }
    {
        if !block.as_slice().is_empty() {
            write_in(&mut self.files, node, offset as usize, block);
        }
    }

    /// Sets the size of the node's file (RFC 7530, section 16.32), for which there has to be room: the bytes behind it
    /// are gone, and zeros come where there are fewer. It takes no memory.
    pub(crate) fn cut(&mut self, node: u32, size: u64)
        requires limit { size ≤ TEXT_LIMIT }
        requires room { HasFileRoom node (FileChange.Cuts size) self.old }
        requires changes { CanChange (files_in self.old) }
        ensures { files_in self.new ≡ with_size node size (files_in self.old) }
    {
        let size = size as usize;
        change_in(&mut self.files, node, FileChangeRef::Cuts { size });
    }
}

// The files of the tree, with the texts that the tree gives them.
fn files_of(alloc: Global, zeros: &SharedBytes, tree: &Tree) -> Result<Vec<StoredFile>, AllocError>
    requires { zeros.now ≡ zero_page }
    ensures { IfOk result (λ files. files_in files.items ≡ initial_files tree.now.nodes) }
{
    let mut files = Vec::new(alloc);
    for node in 0..tree.len() {
        if let Some(text) = tree.text(node) {
            files.push(StoredFile::new(alloc, zeros, node, text)?)?;
        }
    }
    Ok(files)
}

fn reserve_in(
    files: &mut [StoredFile],
    zeros: &SharedBytes,
    node: u32,
    change: FileChangeRef<'_>,
) -> Result<(), AllocError>
    requires zeros { zeros.now ≡ zero_page }
    requires limit { end_of (change_seen change) ≤ TEXT_LIMIT }
    ensures same { files_in files.new ≡ files_in files.old }
    ensures room { OnOk result (HasFileRoom node (change_seen change.entry) files.new) }
    ensures ready { HasFileRoom node (change_seen change.entry) files.old → IsOk result }
{
    for file in files.iter_mut() {
        reserve_one(file, zeros, node, change)?;
    }
    Ok(())
}

fn reserve_one(
    file: &mut StoredFile,
    zeros: &SharedBytes,
    node: u32,
    change: FileChangeRef<'_>,
) -> Result<(), AllocError>
    requires zeros { zeros.now ≡ zero_page }
    requires limit { end_of (change_seen change) ≤ TEXT_LIMIT }
    ensures same { file.new.file ≡ file.old.file }
    ensures room { OnOk result (HasRoomIn node (change_seen change.entry) file.new) }
    ensures ready { HasRoomIn node (change_seen change.entry) file.old → IsOk result }
{
    if file.is_of(node) {
        file.reserve(zeros, change)?;
    }
    Ok(())
}

fn write_in(files: &mut [StoredFile], node: u32, offset: usize, block: &SharedBytes)
    requires some { block.now ≢ [] }
    requires limit { offset + length block.now ≤ TEXT_LIMIT }
    requires room { HasFileRoom node (FileChange.Writes offset block.now) files.old }
    requires changes { CanChange (files_in files.old) }
    ensures { files_in files.new ≡ with_bytes node offset block.now (files_in files.old) }
{
    change_in(files, node, FileChangeRef::Writes { offset, block });
}

fn change_in(files: &mut [StoredFile], node: u32, change: FileChangeRef<'_>)
    requires limit { end_of (change_seen change) ≤ TEXT_LIMIT }
    requires room { HasFileRoom node (change_seen change) files.old }
    requires changes { CanChange (files_in files.old) }
    ensures { files_in files.new
        ≡ map (λ f. if f.node == node then after_change (change_seen change.entry) f else f)
        (files_in files.old) }
{
    for file in files.iter_mut() {
        change_one(file, node, change);
    }
}

fn change_one(file: &mut StoredFile, node: u32, change: FileChangeRef<'_>)
    requires limit { end_of (change_seen change) ≤ TEXT_LIMIT }
    requires room { HasRoomIn node (change_seen change) file.old }
    requires changes { file.old.file.change < 2 ^ 64 - 1 }
    ensures { file.new.file ≡ (if file.old.file.node == node
        then after_change (change_seen change.entry) file.old.file else file.old.file) }
{
    if file.is_of(node) {
        file.make(change);
    }
}
