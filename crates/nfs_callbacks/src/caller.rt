//! The caller, which owns the calls to all clients, and does in looks what can be done at once.
ghost use Rattle.std.specs.Prelude.{◌≡◌};
ghost use Rattle.nfs_callbacks.specs.Callers.{Does, idle, scene_of, stopped};
ghost use Rattle.nfs_callbacks.specs.Network.{Closes};
ghost use Rattle.nfs_callbacks.specs.Steps.{rules};

use crate::errand::Errand;
use crate::line::{LineState, Turn};
use crate::lines::Lines;
use crate::probe::{MarkError, Probe};
use crate::{CallbackSource, Network};
use nfs_rpc::Recall;
use std::alloc::Global;
use std::time::{Clock, Duration};

mod beginning;

// How many calls are under way at once at most.
const UNDER_WAY_LIMIT: usize = 512;

// How many recalls a look takes at most.
const TAKE_LIMIT: usize = 65_536;

// After how many recalls in a look more may wait in the queue: as many as the source hands over without the lock.
const MANY_RECALLS: usize = 1_024;

// The most clients whose paths a round asks for.
const PROBE_LIMIT: usize = 64;

// The most calls of which one round asks whether they are still due; and, if others wait, the most of which it asks
// whether their clients are live.
const CHECK_LIMIT: usize = 64;

/// Sends clients their callbacks: CB_RECALL for delegations, and CB_NULL if nothing is known of the client's path. It
/// does so in looks, which wait only until a connection is ready, and no longer than they are told.
#[derive(Drop)]
pub struct Caller<S, D> {
    alloc: Global,
    source: S,
    net: D,
    lines: Lines,
    // A recall that was taken from the source, for which there was no memory yet.
    hand: Option<Recall>,
    // The number of the next call.
    xid: u32,
    last: LastClients,
    // About how many more clients it may be asked in this round whether they are live.
    asks_left: usize,
    // Whether paths can still be marked in this run, as far as is known.
    can_mark: bool,
    // Whether calls may be begun before the next round: since the last round the system has refused no socket.
    can_begin: bool,
    // Whether the caller has more to do at once.
    is_behind: bool,
    // When calls were checked last, by the monotonic clock.
    last_round: Duration,
}

// For which client each of these was done last: it goes on with the client after that.
#[derive(Clone, Copy)]
struct LastClients {
    begun: u32,
    probed: u32,
    checked: u32,
    asked: u32,
}

impl<S: CallbackSource, D: Network> Caller<S, D> {
    /// A caller that has nothing to do yet.
    pub fn new(alloc: Global, source: S, net: D) -> Caller<S, D>
        ensures { scene_of result ≡ idle source net }
    {
        Caller {
            alloc,
            source,
            net,
            lines: Lines::new(alloc),
            hand: None,
            xid: 1,
            last: LastClients {
                begun: 0,
                probed: 0,
                checked: 0,
                asked: 0,
            },
            asks_left: CHECK_LIMIT,
            can_mark: true,
            can_begin: true,
            is_behind: false,
            last_round: Duration::ZERO,
        }
    }

    /// A look: waits until a connection is ready, but no longer than `wait`, and does all that can be done at once.
    /// Once in such a time comes a round: calls are checked, paths are probed, and what was refused is tried again.
    pub fn look<C: Clock>(&mut self, clock: &C, wait: Duration)
        ensures { Does (rules S.answers D.carries) self.old self.new }
    {
        self.wait(wait);
        self.advance_stalled();
        self.advance_ready();
        self.is_behind = self.take_recalls() >= MANY_RECALLS;
        self.round(clock, wait);
        self.begin();
    }

    /// The source, as a test changes it.
    pub fn source_mut(&mut self) -> &mut S
        ensures { result.now ≡ self.old.source }
    {
        &mut self.source
    }

    /// Gives the source and the network back.
    pub fn into_parts(self) -> (S, D)
        ensures source { result.0 ≡ self.source }
        ensures network { result.1 ≡ self.net }
    {
        let Caller {
            alloc: _,
            source,
            net,
            lines: _,
            hand: _,
            xid: _,
            last: _,
            asks_left: _,
            can_mark: _,
            can_begin: _,
            is_behind: _,
            last_round: _,
        } = self;
        (source, net)
    }

    // Waits until a connection is ready, unless there is more to do at once.
    fn wait(&mut self, wait: Duration)
        ensures { Does (rules S.answers D.carries) self.old self.new }
    {
        let most = if self.is_behind { Duration::ZERO } else { wait };
        self.net.wait(most);
    }

    // Does what is done once in a while, if it is time.
    fn round<C: Clock>(&mut self, clock: &C, wait: Duration)
        ensures { Does (rules S.answers D.carries) self.old self.new }
    {
        if !self.is_round(clock, wait) {
            return;
        }
        self.retry_refused();
        self.settle_owed();
        self.check();
        self.probe();
        // What was refused, or asked often enough, may be tried again.
        self.asks_left = CHECK_LIMIT;
        self.can_begin = true;
    }

    // Whether it is time for another round, so long after the last. If the clock can't be read, it is.
    fn is_round<C: Clock>(&mut self, clock: &C, wait: Duration) -> bool
        ensures { scene_of self.new ≡ scene_of self.old }
    {
        let Ok(now) = clock.monotonic() else {
            return true;
        };
        if now.saturating_sub(self.last_round) < wait {
            return false;
        }
        self.last_round = now;
        true
    }

    // Goes on with the calls whose connections are ready.
    fn advance_ready(&mut self)
        ensures { Does (rules S.answers D.carries) self.old self.new }
    {
        'ready: for _ in 0..UNDER_WAY_LIMIT {
            let Some(client) = self.net.ready() else {
                return;
            };
            self.advance(client);
        }
    }

    // Goes on with the calls that are stalled.
    fn advance_stalled(&mut self)
        ensures { Does (rules S.answers D.carries) self.old self.new }
    {
        let mut last = 0;
        'stalled: for _ in 0..self.lines.count(LineState::Stalled) {
            let Some(client) = self.lines.next(last, LineState::Stalled) else {
                return;
            };
            last = client;
            self.advance(client);
        }
    }

    // Goes on with the client's call. If the call is over, the client's path is marked.
    fn advance(&mut self, client: u32)
        ensures { Does (rules S.answers D.carries) self.old self.new }
    {
        self.go_on(client);
        self.settle(client);
    }

    fn go_on(&mut self, client: u32)
        ensures { Does (rules S.answers D.carries) self.old self.new }
    {
        self.lines.advance(client, &mut self.net);
    }

    // Makes the marks again that couldn't be made.
    fn settle_owed(&mut self)
        ensures { Does (rules S.answers D.carries) self.old self.new }
    {
        let mut last = 0;
        'owing: for _ in 0..self.lines.count(LineState::Owing) {
            let Some(client) = self.lines.next(last, LineState::Owing) else {
                return;
            };
            last = client;
            self.settle(client);
        }
    }

    // Marks the client's path after a call that is over. A call that isn't due any more marks nothing, as a recall
    // whose delegation is gone. If memory is refused for the mark, it is made again in the next round.
    fn settle(&mut self, client: u32)
        ensures { Does (rules S.answers D.carries) self.old self.new }
    {
        let Some((errand, reached)) = self.lines.owed(client) else {
            return;
        };
        if !errand.is_due(client, &mut self.source) {
            self.lines.turn(client, Turn::Clears);
            return;
        }
        match self.source.mark(client, errand.callback(), reached) {
            Ok(()) => self.lines.turn(client, Turn::Clears),
            Err(MarkError::Later) => {}
            Err(MarkError::Never) => {
                self.can_mark = false;
                self.lines.turn(client, Turn::Clears);
            }
        }
    }

    // Takes recalls as long as there is memory to keep each, and tells how many. None is taken before that in `hand`
    // is put.
    fn take_recalls(&mut self) -> usize
        ensures { Does (rules S.answers D.carries) self.old self.new }
    {
        'taken: for count in 0..TAKE_LIMIT {
            if !self.take() {
                return count;
            }
            if !self.file() {
                return 0;
            }
        }
        TAKE_LIMIT
    }

    // Takes a recall, if `hand` has none. It returns whether it has one then.
    fn take(&mut self) -> bool
        ensures { Does (rules S.answers D.carries) self.old self.new }
    {
        if self.hand.is_some() {
            return true;
        }
        let Some(recall) = self.source.take() else {
            return false;
        };
        self.hand.replace(recall);
        true
    }

    // Puts the recall in `hand` at the end of its client's line. It returns whether there was memory.
    fn file(&mut self) -> bool
        ensures { Does (rules S.answers D.carries) self.old self.new }
    {
        let Some(recall) = self.hand.take() else {
            return true;
        };
        let client = recall.stateid.client.number;
        match self.lines.push(client, Errand::Recall(recall)) {
            Ok(()) => true,
            Err(Errand::Recall(recall)) => {
                self.hand = Some(recall);
                false
            }
            Err(Errand::Null(_)) => unreachable!(),
        }
    }

    // The lines that the system refused a socket may have their turn again.
    fn retry_refused(&mut self)
        ensures { Does (rules S.answers D.carries) self.old self.new }
    {
        let mut last = 0;
        'refused: for _ in 0..self.lines.count(LineState::Refused) {
            let Some(client) = self.lines.next(last, LineState::Refused) else {
                return;
            };
            last = client;
            self.lines.turn(client, Turn::Clears);
        }
    }

    // Has a CB_NULL sent to each client if nothing is known of its path.
    fn probe(&mut self)
        ensures { Does (rules S.answers D.carries) self.old self.new }
    {
        if self.hand.is_some() || !self.can_mark {
            return;
        }
        'probed: for _ in 0..PROBE_LIMIT {
            if !self.probe_next() {
                return;
            }
        }
    }

    // Has a CB_NULL sent to the next such client. It returns whether there was one, and memory.
    fn probe_next(&mut self) -> bool
        ensures { Does (rules S.answers D.carries) self.old self.new }
    {
        let Ok(found) = self.source.probe(self.last.probed) else {
            return false;
        };
        let Some(Probe { client, callback }) = found else {
            self.last.probed = 0;
            return false;
        };
        let LineState::Empty = self.lines.state(client) else {
            self.last.probed = client;
            return true;
        };
        if self.lines.push(client, Errand::Null(callback)).is_err() {
            return false;
        }
        self.last.probed = client;
        true
    }

    // Cancels calls under way that aren't due any more. In each round so many are checked, after those of the last
    // round.
    fn check(&mut self)
        ensures { Does (rules S.answers D.carries) self.old self.new }
    {
        let count = self.lines.count(LineState::UnderWay).min(CHECK_LIMIT);
        'checked: for _ in 0..count {
            let Some(client) = self.lines.next(self.last.checked, LineState::UnderWay) else {
                return;
            };
            self.last.checked = client;
            self.check_one(client);
            self.notice(client);
        }
    }

    fn check_one(&mut self, client: u32)
        ensures { Does (rules S.answers D.carries) self.old self.new }
    {
        let Some(errand) = self.lines.current(client) else {
            return;
        };
        if !errand.is_due(client, &mut self.source) {
            self.stop(client);
            return;
        }
        if errand.is_current(client, &mut self.source) {
            return;
        }
        if !self.lines.use_check(client) {
            self.stop(client);
        }
    }

    // Tells the state, once a call, that the client hasn't replied for long.
    fn notice(&mut self, client: u32)
        ensures { Does (rules S.answers D.carries) self.old self.new }
    {
        if !self.lines.use_notice(client, self.last_round) {
            return;
        }
        let Some(errand) = self.lines.current(client) else {
            return;
        };
        self.source.notice(client, errand.callback());
    }

    // Cancels the client's call.
    fn stop(&mut self, client: u32)
        ensures source { self.new.source ≡ self.old.source }
        ensures closes { D.carries self.old.net (Closes client) self.new.net }
        ensures scene { scene_of self.new ≡ stopped client self.new.net (scene_of self.old) }
    {
        self.net.close(client);
        self.lines.turn(client, Turn::Clears);
    }
}
