//! The calls to a client, and what becomes of each.
ghost use Rattle.std.specs.Prelude.{◌≡◌, ◌≤◌, IfErr, IfNone, IfSome, None, OnErr, OnOk, Some};
ghost use Rattle.std.specs.Option.{option_copied};
ghost use Rattle.std.specs.VecDeque.{deque_capacity, deque_len};
ghost use Rattle.nfs_callbacks.specs.Lines.{current_in, empty, ended, first_in, joined, owed_in, standing_of, state_of, turned, without_null};
ghost use Rattle.nfs_callbacks.specs.Steps.{GoesOnOrRests};

use crate::errand::Errand;
use crate::exchange::{Exchange, Progress};
use crate::{Fault, Network};
use std::alloc::{AllocFailed, Global};
use std::collections::VecDeque;
use std::mem;
use std::time::Duration;

/// What the line of a client waits for.
#[derive(Clone, Copy, PartialEq, Eq)]
pub(crate) enum LineState {
    /// The line waits for nothing: no call is to be made.
    Empty,
    /// The line waits for its turn, to begin its first call.
    Ready,
    /// The next round, to try again: the system refused it a socket.
    Refused,
    /// The connection of its call.
    UnderWay,
    /// The next look, to go on with its call.
    Stalled,
    /// The next round, to mark the client's path.
    Owing,
}

// What the line of a client does.
#[derive(Drop)]
enum Stage {
    Idle,
    // The system refused it a socket since the last round.
    Refused,
    // A call is under way.
    Calling(Errand, Exchange),
    // A call is over, and the path is still to be marked as up, or as down for this reason.
    Owing(Errand, Result<(), Fault>),
}

/// What a line does next.
#[derive(Drop)]
pub(crate) enum Turn {
    /// The first call that waits is under way, by this exchange.
    Begins(Exchange),
    /// The first call that waits is over, and didn't reach the client for this reason.
    Fails(Fault),
    /// The first call that waits is cancelled.
    Drops,
    /// The system refused it a socket.
    Refuses,
    /// What the line did is over.
    Clears,
}

/// The calls to a client: the call under way, and those that wait, in the order in which they came. A CB_NULL waits
/// only if no recall does.
#[derive(Drop)]
pub(crate) struct Line {
    queue: VecDeque<Errand>,
    stage: Stage,
}

impl Line {
    pub(crate) fn new(alloc: Global) -> Line
        ensures { standing_of result ≡ empty }
    {
        Line {
            queue: VecDeque::new(alloc),
            stage: Stage::Idle,
        }
    }

    pub(crate) fn state(&self) -> LineState
        ensures { result ≡ state_of (standing_of self.now) }
    {
        match &self.stage {
            Stage::Calling(_, exchange) if exchange.is_stalled() => LineState::Stalled,
            Stage::Calling(_, _) => LineState::UnderWay,
            Stage::Owing(_, _) => LineState::Owing,
            Stage::Refused => LineState::Refused,
            Stage::Idle if self.queue.is_empty() => LineState::Empty,
            Stage::Idle => LineState::Ready,
        }
    }

    /// Puts a call at the end. A CB_NULL that waits is given up for it: a recall tells as much of the path.
    pub(crate) fn push(&mut self, errand: Errand) -> Result<(), AllocFailed<Errand>>
        ensures ok { OnOk result (standing_of self.new ≡ joined errand (standing_of self.old)) }
        ensures err { OnErr result (standing_of self.new ≡ standing_of self.old) }
        ensures back { IfErr result (λ failed. failed.value ≡ errand) }
    {
        if self.queue.reserve(1).is_err() {
            return Err(AllocFailed { value: errand });
        }
        self.drop_null();
        self.queue.push_back_reserved(errand);
        Ok(())
    }

    // Takes out a CB_NULL that is the first of those that wait.
    fn drop_null(&mut self)
        ensures waiting { self.new.queue.items ≡ without_null self.old.queue.items }
        ensures len { deque_len self.new.queue ≤ deque_len self.old.queue }
        ensures capacity { deque_capacity self.new.queue ≡ deque_capacity self.old.queue }
        ensures stage { self.new.stage ≡ self.old.stage }
    {
        if let Some(Errand::Null(_)) = self.queue.front() {
            self.queue.pop_front();
        }
    }

    /// The first call of those that wait.
    pub(crate) fn first(&self) -> Option<&Errand>
        ensures { option_copied result ≡ first_in self.now.queue.items }
    {
        self.queue.front()
    }

    /// The call that is under way.
    pub(crate) fn current(&self) -> Option<&Errand>
        ensures { option_copied result ≡ current_in self.now.stage }
    {
        match &self.stage {
            Stage::Calling(errand, _) => Some(errand),
            _ => None,
        }
    }

    /// The call after which the path is still to be marked, and whether it reached the client.
    pub(crate) fn owed(&self) -> Option<(&Errand, Result<(), Fault>)>
        ensures some { IfSome result (λ owed. owed_in self.now.stage ≡ Some (owed.0.now, owed.1)) }
        ensures none { IfNone result (owed_in self.now.stage ≡ None) }
    {
        match &self.stage {
            Stage::Owing(errand, reached) => Some((errand, *reached)),
            _ => None,
        }
    }

    /// Does this next.
    pub(crate) fn turn(&mut self, turn: Turn)
        ensures { standing_of self.new ≡ turned turn (standing_of self.old) }
    {
        self.stage = match turn {
            Turn::Begins(exchange) => match self.queue.pop_front() {
                Some(errand) => Stage::Calling(errand, exchange),
                None => Stage::Idle,
            },
            Turn::Fails(fault) => match self.queue.pop_front() {
                Some(errand) => Stage::Owing(errand, Err(fault)),
                None => Stage::Idle,
            },
            Turn::Drops => {
                self.queue.pop_front();
                Stage::Idle
            }
            Turn::Refuses if self.queue.is_empty() => Stage::Idle,
            Turn::Refuses => Stage::Refused,
            Turn::Clears => Stage::Idle,
        };
    }

    /// Whether the call under way goes on for now, though its client has another callback.
    pub(crate) fn use_check(&mut self) -> bool
        ensures { standing_of self.new ≡ standing_of self.old }
    {
        match &mut self.stage {
            Stage::Calling(_, exchange) => exchange.use_check(),
            _ => false,
        }
    }

    /// Whether notice is to be taken now that the call under way has had no reply yet.
    pub(crate) fn use_notice(&mut self, now: Duration) -> bool
        ensures { standing_of self.new ≡ standing_of self.old }
    {
        match &mut self.stage {
            Stage::Calling(_, exchange) => exchange.use_notice(now),
            _ => false,
        }
    }

    /// Goes on with the call under way, and closes its connection if it is over.
    pub(crate) fn advance<D: Network>(&mut self, client: u32, net: &mut D)
        ensures { GoesOnOrRests D.carries client net.old (standing_of self.old) net.new
            (standing_of self.new) }
    {
        let Stage::Calling(_, exchange) = &mut self.stage else {
            return;
        };
        let Progress::Ended(reached) = exchange.advance(client, net) else {
            return;
        };
        net.close(client);
        self.end(reached);
    }

    // The call that is under way is over, and has reached the client or not.
    fn end(&mut self, reached: Result<(), Fault>)
        ensures { standing_of self.new ≡ ended reached (standing_of self.old) }
    {
        self.stage = match mem::replace(&mut self.stage, Stage::Idle) {
            Stage::Calling(errand, _exchange) => Stage::Owing(errand, reached),
            stage => stage,
        };
    }
}
