//! SETATTR: sets a file's size, by a stateid that allows it.

ghost use Rattle.std.specs.Prelude.{◌≡◌};
ghost use Rattle.nfs_rules.specs.Deciding.{Decides};
ghost use Rattle.nfs_rules.specs.operations.Setattr.{rule, set, size_for, wish_of};
ghost use Rattle.nfs_state.specs.Room.{state_of};

use crate::decision::Decision;
use crate::transfer::{Transfer, file_for};
use crate::wish::Wish;
use nfs_forms::Status;
use nfs_operations::setattr::{AttributesSet, Setattr, SetattrResult};
use nfs_state::{Change, Effect, Request, Shortage, Store, Tables};
use nfs_tree::{Settable, TEXT_LIMIT};
use nfs_xdr::{Fattr, Op, OpResult, Refusal};
use std::alloc::Global;

/// Decides a SETATTR: its answer, and its change or what it calls back.
pub(super) fn decide(
    alloc: Global,
    store: &Store,
    request: &Request,
    args: &Setattr,
) -> Result<Decision, Shortage>
    ensures { Decides (λ d. d ≡ rule store.now.journal.history (state_of store.now.tables)
        request.now args.now) (state_of store.now.tables) (Op.Setattr args.now) result }
{
    let wish = match wish_of(request.filehandle, &args.attributes) {
        Err(refusal) => return Ok(Transfer::Resize.refusal(refusal)),
        Ok(wish) => wish,
    };
    if !wish.asks() {
        return Ok(set(alloc, wish.asked, Change::Nothing));
    }
    let node = match file_for(store, Transfer::Resize, request, args.stateid) {
        Err(decision) => return Ok(decision),
        Ok(node) => node,
    };
    let size = size_for(&store.tables, node, wish.size);
    if size > TEXT_LIMIT as u64 {
        return Ok(Transfer::Resize.refusal(Refusal::FBig));
    }
    Ok(set(alloc, wish.asked, Change::Cuts { node, size }))
}

// What is wished for, or the first refusal.
fn wish_of(filehandle: Option<u32>, attributes: &Fattr) -> Result<Wish, Refusal>
    ensures { result ≡ wish_of filehandle attributes.now }
{
    filehandle.ok_or(Refusal::NoFileHandle)?;
    let asked = Settable::of(attributes.mask.as_slice())?;
    let size = asked.size_of(attributes.values.as_slice())?;
    Ok(Wish { asked, size })
}

// All that was asked for is set.
fn set(alloc: Global, asked: Settable, change: Change) -> Decision
    ensures { result ≡ set asked change }
{
    Decision {
        answer: OpResult::Setattr(SetattrResult {
            status: Status::Ok,
            attributes: AttributesSet::new(asked.mask(alloc)),
        }),
        effect: Effect::change_alone(change),
    }
}

// The size that the node's file gets: where only its time is set, the one that it has.
fn size_for(tables: &Tables, node: u32, size: Option<u64>) -> u64
    ensures { result ≡ size_for (state_of tables.now) node size }
{
    match size {
        Some(size) => size,
        None => {
            let (_change, size) = tables.change_and_size(node);
            size
        }
    }
}
