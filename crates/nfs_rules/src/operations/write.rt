//! WRITE: puts bytes into a file, by a stateid that allows it.

ghost use Rattle.std.specs.Prelude.{◌≡◌, ◌+◌, ◌<◌, ◌^◌, IfOk, length, nat_lt};
ghost use Rattle.nfs_tree.specs.declared.tree.TheConstants.{TEXT_LIMIT};
ghost use Rattle.nfs_rules.specs.Deciding.{Decides};
ghost use Rattle.nfs_rules.specs.operations.Write.{answer_of, change_by, rule};
ghost use Rattle.nfs_state.specs.Room.{state_of};

use crate::decision::Decision;
use crate::transfer::{Transfer, file_for};
use nfs_forms::StableHow;
use nfs_operations::write::{Write, WriteOk};
use nfs_state::{Change, Effect, Journal, Request, Shortage, Store};
use nfs_tree::{TEXT_LIMIT, write_verifier};
use nfs_xdr::{Answer, Op, OpResult, Refusal};
use std::alloc::AllocError;

/// Decides a WRITE: its answer, and its change or what it calls back.
pub(super) fn decide(store: &Store, request: &Request, args: &Write) -> Result<Decision, Shortage>
    ensures { Decides (λ d. d ≡ rule store.now.journal.history (state_of store.now.tables)
        request.now args.now) (state_of store.now.tables) (Op.Write args.now) result }
{
    let node = match file_for(store, Transfer::Write, request, args.stateid) {
        Err(decision) => return Ok(decision),
        Ok(node) => node,
    };
    if is_too_long(args) {
        return Ok(Transfer::Write.refusal(Refusal::FBig));
    }
    let change = change_by(args, node)?;
    Ok(Decision {
        answer: OpResult::Write(Answer::Done(answer_of(&store.journal, args))),
        effect: Effect::change_alone(change),
    })
}

// The bytes come into the node's file at the offset; without bytes nothing changes.
fn change_by(args: &Write, node: u32) -> Result<Change, AllocError>
    ensures { IfOk result (λ change. change ≡ change_by args.now node) }
{
    if args.bytes.as_slice().is_empty() {
        return Ok(Change::Nothing);
    }
    Ok(Change::Writes {
        node,
        offset: args.offset,
        bytes: args.bytes.clone()?,
    })
}

// Whether the bytes would end beyond the limit of a file.
fn is_too_long(args: &Write) -> bool
    ensures { result ≡ nat_lt TEXT_LIMIT (args.now.offset + length args.now.bytes) }
{
    let len = args.bytes.as_slice().len();
    len > TEXT_LIMIT || args.offset > (TEXT_LIMIT - len) as u64
}

// All bytes are written, and are on stable storage as far as this server has one.
fn answer_of(journal: &Journal, args: &Write) -> WriteOk
    requires { length args.now.bytes < 2 ^ 32 }
    ensures { result ≡ answer_of journal.now.history args.now }
{
    WriteOk {
        count: args.bytes.as_slice().len() as u32,
        committed: StableHow::FileSync,
        verifier: write_verifier(journal.epoch()),
    }
}
