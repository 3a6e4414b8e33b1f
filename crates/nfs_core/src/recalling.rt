//! The recalls that an entry makes.

ghost use Rattle.std.specs.Prelude.{◌≡◌, ◌++◌, [], IfOk, IsOk, OnOk};
ghost use Rattle.std.specs.Option.{option_to_list};
ghost use Rattle.nfs_core.specs.Recalls.{CallsNothingBack, is_called_back, recall_for, recall_to, recalls_by, recalls_for};
ghost use Rattle.nfs_state.specs.Room.{state_of};

use nfs_forms::FileHandle;
use nfs_owners::{ClientState, Clients};
use nfs_rpc::Recall;
use nfs_share::{Delegation, FileUse};
use nfs_state::{Change, Store};
use nfs_tree::Tree;
use std::alloc::{AllocError, Global};

/// The recalls that the change makes in what is stored.
pub(crate) fn recalls_by(
    alloc: Global,
    store: &Store,
    change: &Change,
) -> Result<Vec<Recall>, AllocError>
    ensures recalls { IfOk result (λ recalls.
        recalls.items ≡ recalls_by change.now (state_of store.now.tables)) }
    ensures none { CallsNothingBack change.now → IfOk result (λ recalls. recalls.items ≡ []) }
    ensures ready { CallsNothingBack change.now → IsOk result }
{
    match change {
        Change::Recalls { node, file_use, .. } => recalls_for(alloc, store, *node, *file_use),
        _ => Ok(Vec::new(alloc)),
    }
}

// The recalls for this use of the node's file.
fn recalls_for(
    alloc: Global,
    store: &Store,
    node: u32,
    file_use: FileUse,
) -> Result<Vec<Recall>, AllocError>
    ensures { IfOk result (λ recalls.
        recalls.items ≡ recalls_for node file_use (state_of store.now.tables)) }
{
    let mut recalls = Vec::new(alloc);
    for lent in store.tables.opens.delegations_of(node) {
        push_some(
            &mut recalls,
            recall_for(alloc, node, file_use, &store.tables.clients, lent)?,
        )?;
    }
    Ok(recalls)
}

fn push_some(recalls: &mut Vec<Recall>, recall: Option<Recall>) -> Result<(), AllocError>
    ensures { OnOk result (recalls.new.items ≡ recalls.old.items ++ option_to_list recall) }
{
    if let Some(recall) = recall {
        recalls.push(recall)?;
    }
    Ok(())
}

// The recall of the delegation, where it is called back for this use, and its client is live.
fn recall_for(
    alloc: Global,
    node: u32,
    file_use: FileUse,
    clients: &Clients,
    lent: &Delegation,
) -> Result<Option<Recall>, AllocError>
    ensures { IfOk result (λ recall.
        recall ≡ recall_for node file_use clients.now.registry lent.now) }
{
    if !is_called_back(file_use, lent) {
        return Ok(None);
    }
    match clients.of(lent.client) {
        Some(client) => Ok(Some(recall_to(alloc, node, lent, client)?)),
        None => Ok(None),
    }
}

// Whether the delegation is in the way of this use of the file, and wasn't called back before.
fn is_called_back(file_use: FileUse, lent: &Delegation) -> bool
    ensures { result ≡ is_called_back file_use lent.now }
{
    lent.conflicts(file_use) && lent.recalled.is_none()
}

// The recall of a delegation of the node's file, as its client's record says how to call it back.
fn recall_to(
    alloc: Global,
    node: u32,
    lent: &Delegation,
    client: &ClientState,
) -> Result<Recall, AllocError>
    ensures { IfOk result (λ recall. recall ≡ recall_to node lent.now client.now) }
{
    Ok(Recall {
        callback: client.callback.as_callback().clone()?,
        principal: client.principal,
        stateid: lent.stateid(),
        handle: FileHandle::copy_of(alloc, &Tree::handle_of(node))?,
    })
}
