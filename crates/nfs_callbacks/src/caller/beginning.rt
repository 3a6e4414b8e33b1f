//! How calls are begun: in the order of the clients' numbers, as long as the system gives sockets for them.
ghost use Rattle.nfs_callbacks.specs.Callers.{Does};
ghost use Rattle.nfs_callbacks.specs.Steps.{rules};

use super::{Caller, UNDER_WAY_LIMIT};
use crate::exchange::Exchange;
use crate::flow::ConnectError;
use crate::line::{LineState, Turn};
use crate::{CallbackSource, Network};

// How many calls a look begins at most, those that are over at once included.
const BEGIN_LIMIT: usize = 1_024;

// What came of the beginning of a call.
#[derive(Clone, Copy, PartialEq, Eq)]
enum Beginning {
    UnderWay,
    // The call was over at once.
    Over,
    // The system refused the call a socket.
    Refused,
}

impl<S: CallbackSource, D: Network> Caller<S, D> {
    // Begins calls, first that of the client after the last client whose call was begun, until the system refuses a
    // socket.
    pub(super) fn begin(&mut self)
        ensures { Does (rules S.answers D.carries) self.old self.new }
    {
        let mut room = UNDER_WAY_LIMIT.saturating_sub(self.under_way());
        'begun: for _ in 0..BEGIN_LIMIT {
            let Some(rest) = self.begin_next(room) else {
                return;
            };
            room = rest;
        }
        self.is_behind = true;
    }

    // Begins the next client's first call, if so many may still be under way. It returns how many may be then, if
    // another may follow.
    fn begin_next(&mut self, room: usize) -> Option<usize>
        ensures { Does (rules S.answers D.carries) self.old self.new }
    {
        if !self.can_begin {
            return None;
        }
        let client = self.lines.next(self.last.begun, LineState::Ready)?;
        if !self.make_room(room) {
            return None;
        }
        self.last.begun = client;
        match self.begin_first(client) {
            Beginning::UnderWay => Some(room.saturating_sub(1)),
            Beginning::Over => Some(room.max(1)),
            Beginning::Refused => {
                self.can_begin = false;
                None
            }
        }
    }

    // Whether another call may be under way. If not, a call is cancelled whose client isn't live any more.
    fn make_room(&mut self, room: usize) -> bool
        ensures { Does (rules S.answers D.carries) self.old self.new }
    {
        if room > 0 {
            return true;
        }
        self.give_place()
    }

    // Begins the client's first call, if it is still due.
    fn begin_first(&mut self, client: u32) -> Beginning
        ensures { Does (rules S.answers D.carries) self.old self.new }
    {
        let LineState::Ready = self.lines.state(client) else {
            return Beginning::Over;
        };
        let Some(errand) = self.lines.first(client) else {
            return Beginning::Over;
        };
        if !errand.is_due(client, &mut self.source) {
            self.lines.turn(client, Turn::Drops);
            return Beginning::Over;
        }
        match Exchange::begin(
            self.alloc,
            &mut self.net,
            client,
            errand,
            self.xid,
            self.last_round,
        ) {
            Ok(exchange) => {
                self.lines.turn(client, Turn::Begins(exchange));
                self.xid = self.xid.wrapping_add(1);
                Beginning::UnderWay
            }
            Err(ConnectError::Refused) => {
                self.lines.turn(client, Turn::Refuses);
                Beginning::Refused
            }
            Err(ConnectError::Fault(fault)) => {
                self.lines.turn(client, Turn::Fails(fault));
                self.settle(client);
                Beginning::Over
            }
        }
    }

    // Cancels the first call under way whose client isn't live any more, after the client that was asked about last,
    // and returns whether there was such a call. It marks nothing.
    fn give_place(&mut self) -> bool
        ensures { Does (rules S.answers D.carries) self.old self.new }
    {
        'asked: for _ in 0..self.asks_left {
            let Some(client) = self.lines.next_called(self.last.asked) else {
                return false;
            };
            self.last.asked = client;
            self.asks_left = self.asks_left.saturating_sub(1);
            if self.cancel_dead(client) {
                return true;
            }
        }
        false
    }

    // Cancels the client's call, if the client isn't live any more. It returns whether it did.
    fn cancel_dead(&mut self, client: u32) -> bool
        ensures { Does (rules S.answers D.carries) self.old self.new }
    {
        if self.lines.current(client).is_none() {
            return false;
        }
        if self.source.is_live(client) {
            return false;
        }
        self.stop(client);
        true
    }

    // How many calls are under way.
    fn under_way(&self) -> usize {
        let stalled = self.lines.count(LineState::Stalled);
        self.lines
            .count(LineState::UnderWay)
            .saturating_add(stalled)
    }
}
