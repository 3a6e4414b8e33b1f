//! The queue by which recalls go from whoever holds the lock to the thread that sends them.
ghost use Rattle.std.specs.Prelude.{◌≡◌, ◌+◌, ◌≤◌, [], IfErr, IfOk, IfNone, IfSome, OnErr, OnOk, length};
ghost use mathlib.Core.List.{IsPrefix};
ghost use Rattle.nfs_shared.specs.Passes.{with_recall};
ghost use Rattle.nfs_shared.specs.declared.recall_queue.TheConstants.{CAPACITY};

use crossbeam_queue::protocol::{Join, Lesson, Outcome, Protocol, Split};
use crossbeam_queue::{Pass, RuledArrayQueue};
use nfs_core::Recall;
use std::alloc::{AllocError, Global};
use std::collections::LinkedList;
use std::marker::Model;
use std::sync::Wait;

/// How many recalls the queue has room for.
pub const CAPACITY: usize = 1_024;

// What a pass may do, and what it knows of what was put and of what was taken: of what it does itself, all. No value of
// it is made.
pub struct Log {
    pub puts: bool,
    pub takes: bool,
    pub put: LinkedList<Recall>,
    pub taken: LinkedList<Recall>,
    // What was known of either by the one that doesn't do it, where two passes became one.
    pub told_put: LinkedList<Recall>,
    pub told_taken: LinkedList<Recall>,
}

pub struct InOrder;

impl Protocol<Recall, Log> for InOrder {
    ghost use Rattle.std.specs.Prelude.{true, []};
    ghost use Rattle.nfs_shared.specs.RecallOrder.{log, Relayed};

    ghost holds = { Relayed };

    ghost first = { log true true [] [] };
}

// One pass puts, and another takes. Both know what was known.
pub struct Roles;

impl Split<Log> for Roles {
    ghost use Rattle.nfs_shared.specs.RecallOrder.{putter, taker};

    ghost left = { λ v. putter v.put v.taken };

    ghost right = { λ v. taker v.put v.taken };
}

impl Join<Log> for Roles {
    ghost use Rattle.nfs_shared.specs.RecallOrder.{idle, united};

    ghost both = { united };

    ghost spent = { idle };
}

// All that a pass may do goes to a new one.
pub struct HandedOn;

impl Split<Log> for HandedOn {
    ghost use Rattle.nfs_shared.specs.RecallOrder.{idle};

    ghost left = { λ v. idle };

    ghost right = { λ v. v };
}

pub struct Puts;

impl Outcome<Recall, Log> for Puts {
    ghost use Rattle.std.specs.Prelude.{◌≡◌, ◌++◌, ◌∷◌, []};
    ghost use Rattle.nfs_shared.specs.RecallOrder.{putter};

    ghost then = { λ v x w. w ≡ putter (v.put ++ x ∷ []) v.taken };
}

// Who puts learns that it put as many as the queue holds beside those that it knows to be taken, or more.
impl Lesson<Recall, Log> for Puts {
    ghost use Rattle.std.specs.Prelude.{◌+◌, ◌≤◌, length};

    ghost fact = { λ v items. length items + length v.taken ≤ length v.put };
}

pub struct Takes;

impl Outcome<Recall, Log> for Takes {
    ghost use Rattle.std.specs.Prelude.{◌≡◌, ◌++◌, ◌∷◌, []};
    ghost use Rattle.nfs_shared.specs.RecallOrder.{taker};

    ghost then = { λ v x w. w ≡ taker v.put (v.taken ++ x ∷ []) };
}

// Who takes learns that what it knows to be put begins what it took and what is left.
impl Lesson<Recall, Log> for Takes {
    ghost use Rattle.std.specs.Prelude.{◌++◌};
    ghost use mathlib.Core.List.{IsPrefix};

    ghost fact = { λ v items. IsPrefix v.put (v.taken ++ items) };
}

// Who may do both learns that what was put is what was taken and what is left, and that either begins with what was
// told of it.
pub struct Total;

impl Lesson<Recall, Log> for Total {
    ghost use Rattle.std.specs.Prelude.{◌≡◌, ◌++◌};
    ghost use mathlib.Core.List.{IsPrefix};

    ghost fact = { λ v items. (v.put ≡ v.taken ++ items)
        × IsPrefix v.told_put v.put × IsPrefix v.told_taken v.taken };
}

type Line = RuledArrayQueue<Recall, Log, InOrder>;

type Token = Pass<Recall, Log>;

/// A queue of recalls, with room for `CAPACITY`. Contracts see its name.
#[derive(Drop)]
pub struct RecallQueue {
    line: Line,
}

impl Model for RecallQueue {
    ghost use Rattle.std.specs.Prelude.{◌≡◌};
    ghost use Rattle.atomic_table.specs.Seated.{TableId};
    ghost use Rattle.crossbeam_queue.specs.Passes.{ruled_capacity};
    ghost use Rattle.nfs_shared.specs.declared.recall_queue.TheConstants.{CAPACITY};

    ghost Value = { TableId };

    ghost view = { λ q. q.line.table.shared.table_id };

    ghost invariant = { λ q. ruled_capacity q.line ≡ CAPACITY };
}

/// The right to put, which the locked value has. Contracts see the queue's name, what was put, in order, and what is
/// known to be taken.
#[derive(Drop)]
pub struct PutPass {
    token: Token,
}

impl Model for PutPass {
    ghost use Rattle.nfs_shared.specs.Passes.{PassView, log_of, IsPutter};

    ghost Value = { PassView };

    ghost view = { λ p. record {
      queue = p.token.table_id;
      recalls = (log_of p.token).put;
      known = (log_of p.token).taken;
    } };

    ghost invariant = { λ p. IsPutter p.token };
}

/// The right to take. Contracts see the queue's name, what was taken, in order, and what is known to be put.
#[derive(Drop)]
pub struct TakePass {
    token: Token,
}

impl Model for TakePass {
    ghost use Rattle.nfs_shared.specs.Passes.{PassView, log_of, IsTaker};

    ghost Value = { PassView };

    ghost view = { λ p. record {
      queue = p.token.table_id;
      recalls = (log_of p.token).taken;
      known = (log_of p.token).put;
    } };

    ghost invariant = { λ p. IsTaker p.token };
}

impl RecallQueue {
    /// An empty queue, with the right to put and the right to take.
    pub fn new(alloc: Global) -> Result<(RecallQueue, PutPass, TakePass), AllocError>
        ensures put { IfOk result (λ r. r.1 ≡ record { queue = r.0; recalls = []; known = [] }) }
        ensures take { IfOk result (λ r. r.2 ≡ record { queue = r.0; recalls = []; known = [] }) }
    {
        let (line, mut put) = Line::ruled(alloc, CAPACITY)?;
        let take = line.another::<Roles>(&mut put);
        Ok((
            RecallQueue { line },
            PutPass { token: put },
            TakePass { token: take },
        ))
    }

    /// Puts a recall at the end. It comes back only if as many were put as the queue has room for, beside those that
    /// are known to be taken. It takes no memory.
    pub fn put<R: Wait>(&self, rt: &R, pass: &mut PutPass, recall: Recall) -> Result<(), Recall>
        requires queue { pass.old.queue ≡ self.now }
        ensures ok { OnOk result (pass.new ≡ with_recall recall pass.old) }
        ensures back { IfErr result (λ r. (r ≡ recall) × (pass.new ≡ pass.old)) }
        ensures full { OnErr result (CAPACITY + length pass.old.known ≤ length pass.old.recalls) }
    {
        self.line.push_as::<Puts, R>(rt, &mut pass.token, recall)
    }

    /// Takes out the first recall, or none, which it does only if all that is known to be put was taken. It takes no
    /// memory.
    pub fn take<R: Wait>(&self, rt: &R, pass: &mut TakePass) -> Option<Recall>
        requires queue { pass.old.queue ≡ self.now }
        ensures some { IfSome result (λ r. pass.new ≡ with_recall r pass.old) }
        ensures none { IfNone result (pass.new ≡ pass.old) }
        ensures empty { IfNone result (IsPrefix pass.old.known pass.old.recalls) }
    {
        self.line.pop_as::<Takes, R>(rt, &mut pass.token)
    }

    /// What was taken begins what was put. Each pass knows then all that the other one did; what it knew before begins
    /// that.
    pub fn meet(&self, put: &mut PutPass, take: &mut TakePass)
        requires put { put.old.queue ≡ self.now }
        requires take { take.old.queue ≡ self.now }
        ensures put { put.new ≡ record put.old { known = take.old.recalls } }
        ensures take { take.new ≡ record take.old { known = put.old.recalls } }
        ensures begins { IsPrefix take.old.recalls put.old.recalls }
        ensures known_put { IsPrefix take.old.known put.old.recalls }
        ensures known_taken { IsPrefix put.old.known take.old.recalls }
    {
        let taker = self.line.another::<HandedOn>(&mut take.token);
        self.line.absorb::<Roles>(&mut put.token, taker);
        self.line.learn_as::<Total>(&mut put.token);
        take.token = self.line.another::<Roles>(&mut put.token);
    }
}
