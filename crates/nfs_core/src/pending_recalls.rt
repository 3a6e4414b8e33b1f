//! The recalls that entries made and the sender hasn't taken yet.

ghost use Rattle.std.specs.Prelude.{◌≡◌, ◌+◌, ◌≤◌, ◌++◌, ◌∷◌, [], IfNone, IfSome, IsOk, OnOk, length};
ghost use Rattle.nfs_core.specs.Recalls.{left_of, no_recalls, with_more};

use nfs_forms::{Address, Callback, ClientId, FileHandle};
use nfs_rpc::Recall;
use nfs_xdr::{Principal, Stateid};
use std::alloc::{AllocError, Global};
use std::marker::Model;
use std::mem;
use xdr::Bytes;

/// The recalls that a journal made, of which some were taken, the first ones first.
#[derive(Drop)]
pub(crate) struct PendingRecalls {
    alloc: Global,
    // In the place of one that was taken stands one that takes no memory.
    recalls: Vec<Recall>,
    taken: usize,
}

impl Model for PendingRecalls {
    ghost use Rattle.std.specs.Prelude.{◌≤◌, ◌-◌, drop, length, vec_capacity, vec_len};
    ghost use Rattle.nfs_core.specs.Recalls.{RoomyRecalls};

    ghost Value = { RoomyRecalls };

    ghost view = { λ r. record {
      taken = r.taken;
      pending = drop r.taken r.recalls.items;
      room = vec_capacity r.recalls - vec_len r.recalls;
    } };

    ghost invariant = { λ r. r.taken ≤ length r.recalls.items };
}

impl PendingRecalls {
    /// No recalls, of which none was taken.
    pub(crate) fn new(alloc: Global) -> PendingRecalls
        ensures { left_of result ≡ no_recalls }
    {
        PendingRecalls {
            alloc,
            recalls: Vec::new(alloc),
            taken: 0,
        }
    }

    /// The recalls that weren't taken, in order.
    pub(crate) fn pending(&self) -> &[Recall]
        ensures { result.now ≡ self.now.pending }
    {
        &self.recalls[self.taken..]
    }

    /// Makes room for as many more. For none it takes no memory.
    pub(crate) fn reserve(&mut self, count: usize) -> Result<(), AllocError>
        ensures same { left_of self.new ≡ left_of self.old }
        ensures room { OnOk result (count ≤ self.new.room) }
        ensures ready { count ≡ 0 → IsOk result }
    {
        self.recalls.reserve(count)
    }

    /// Adds these at the end, for which there is room.
    pub(crate) fn append_reserved(&mut self, more: Vec<Recall>)
        requires { length more.items ≤ self.old.room }
        ensures { left_of self.new ≡ with_more more.items (left_of self.old) }
    {
        let mut more = more;
        self.recalls.append(&mut more).unwrap();
    }

    /// Takes out the first of those that weren't taken. It takes no memory.
    pub(crate) fn take(&mut self) -> Option<Recall>
        ensures none { IfNone result ((self.old.pending ≡ []) × (self.new ≡ self.old)) }
        ensures first { IfSome result (λ r. self.old.pending ≡ r ∷ self.new.pending) }
        ensures taken { IfSome result (λ r. self.new.taken ≡ self.old.taken + 1) }
    {
        if self.taken >= self.recalls.len() {
            return None;
        }
        let blank = blank(self.alloc);
        let recall = mem::replace(&mut self.recalls[self.taken], blank);
        self.taken += 1;
        Some(recall)
    }
}

// What stands in the place of a recall that was taken.
fn blank(alloc: Global) -> Recall {
    let client = ClientId {
        epoch: 0,
        number: 0,
    };
    Recall {
        callback: Callback {
            program: 0,
            address: Address {
                netid: Bytes::new(Vec::new(alloc)),
                addr: Bytes::new(Vec::new(alloc)),
            },
            ident: 0,
        },
        principal: Principal::AuthNone,
        stateid: Stateid {
            seqid: 0,
            client,
            number: 0,
        },
        handle: FileHandle::copy_of(alloc, &[]).unwrap(),
    }
}
