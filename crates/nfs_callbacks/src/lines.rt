//! The calls to all clients, and whose turn is next.
ghost use Rattle.std.specs.BTreeMap.Range.{IsFromStart};
ghost use Rattle.std.specs.Ordering.{nat_cmp};
ghost use Rattle.std.specs.Option.{option_copied};
ghost use Rattle.std.specs.Prelude.{◌≡◌, ◌≢◌, ◌≤◌, ℕ, IfErr, IfNone, IfSome, IsSome, None, OnErr, OnOk, Some};
ghost use Rattle.nfs_callbacks.specs.Lines.{IsNextIn, IsNowhere, changed, current_in, empty, first_in, joined, lines_of, owed_in, state_of, turned};
ghost use Rattle.nfs_callbacks.specs.Steps.{GoesOnOrRests};
ghost use Rattle.nfs_callbacks.specs.declared.line.LineState.TheVariants as states;

use crate::errand::Errand;
use crate::line::{Line, LineState, Turn};
use crate::{Fault, Network};
use std::alloc::{AllocError, Global};
use std::collections::BTreeMap;
use std::ops::Bound;
use std::time::Duration;

/// The calls to all clients, by the clients' numbers.
#[derive(Drop)]
pub(crate) struct Lines {
    alloc: Global,
    lines: BTreeMap<u32, Line, Global>,
}

impl Lines {
    pub(crate) fn new(alloc: Global) -> Lines
        ensures { (client : ℕ) → lines_of result client ≡ empty }
    {
        Lines {
            alloc,
            lines: BTreeMap::new(alloc),
        }
    }

    /// Puts a call at the end of its client's line. If memory is refused, it comes back, and no line has changed.
    pub(crate) fn push(&mut self, client: u32, errand: Errand) -> Result<(), Errand>
        ensures ok { OnOk result (lines_of self.new
            ≡ changed client (joined errand (lines_of self.old client)) (lines_of self.old)) }
        ensures err { OnErr result (lines_of self.new ≡ lines_of self.old) }
        ensures back { IfErr result (λ back. back ≡ errand) }
    {
        if self.make_line(client).is_err() {
            return Err(errand);
        }
        let pushed = self.push_to(client, errand);
        self.tidy(client);
        pushed
    }

    // Puts a call at the end of its client's line, if there is one.
    fn push_to(&mut self, client: u32, errand: Errand) -> Result<(), Errand>
        ensures own { OnOk result
            (lines_of self.new client ≡ joined errand (lines_of self.old client)) }
        ensures err { OnErr result (lines_of self.new client ≡ lines_of self.old client) }
        ensures others { (other : ℕ) → other ≢ client
            → lines_of self.new other ≡ lines_of self.old other }
        ensures back { IfErr result (λ back. back ≡ errand) }
    {
        match self.lines.get_mut(&client) {
            Some(line) => line.push(errand).map_err(|failed| failed.value),
            None => Err(errand),
        }
    }

    // Makes the client's line, if there is none.
    fn make_line(&mut self, client: u32) -> Result<(), AllocError>
        ensures { (other : ℕ) → lines_of self.new other ≡ lines_of self.old other }
    {
        if self.lines.contains_key(&client) {
            return Ok(());
        }
        match self.lines.insert(client, Line::new(self.alloc)) {
            Ok(_) => Ok(()),
            Err(_) => Err(AllocError),
        }
    }

    // Forgets the client's line if it is empty.
    fn tidy(&mut self, client: u32)
        ensures { (other : ℕ) → lines_of self.new other ≡ lines_of self.old other }
    {
        if self.state(client) == LineState::Empty {
            self.lines.remove(&client);
        }
    }

    /// What the client's line waits for.
    pub(crate) fn state(&self, client: u32) -> LineState
        ensures { result ≡ state_of (lines_of self.now client) }
    {
        match self.lines.get(&client) {
            Some(line) => line.state(),
            None => LineState::Empty,
        }
    }

    /// The first of the client's calls that wait.
    pub(crate) fn first(&self, client: u32) -> Option<&Errand>
        ensures { option_copied result ≡ first_in (lines_of self.now client).waiting }
    {
        match self.lines.get(&client) {
            Some(line) => line.first(),
            None => None,
        }
    }

    /// The client's call that is under way.
    pub(crate) fn current(&self, client: u32) -> Option<&Errand>
        ensures { option_copied result ≡ current_in (lines_of self.now client).stage }
    {
        match self.lines.get(&client) {
            Some(line) => line.current(),
            None => None,
        }
    }

    /// The client's call after which its path is still to be marked, and whether it reached the client.
    pub(crate) fn owed(&self, client: u32) -> Option<(&Errand, Result<(), Fault>)>
        ensures some { IfSome result
            (λ owed. owed_in (lines_of self.now client).stage ≡ Some (owed.0.now, owed.1)) }
        ensures none { IfNone result (owed_in (lines_of self.now client).stage ≡ None) }
    {
        match self.lines.get(&client) {
            Some(line) => line.owed(),
            None => None,
        }
    }

    /// The client's line does this next.
    pub(crate) fn turn(&mut self, client: u32, turn: Turn)
        ensures { lines_of self.new
            ≡ changed client (turned turn (lines_of self.old client)) (lines_of self.old) }
    {
        self.turn_line(client, turn);
        self.tidy(client);
    }

    fn turn_line(&mut self, client: u32, turn: Turn)
        ensures own { lines_of self.new client ≡ turned turn (lines_of self.old client) }
        ensures others { (other : ℕ) → other ≢ client
            → lines_of self.new other ≡ lines_of self.old other }
    {
        if let Some(line) = self.lines.get_mut(&client) {
            line.turn(turn);
        }
    }

    /// Goes on with the client's call.
    pub(crate) fn advance<D: Network>(&mut self, client: u32, net: &mut D)
        ensures own { GoesOnOrRests D.carries client net.old (lines_of self.old client) net.new
            (lines_of self.new client) }
        ensures others { (other : ℕ) → other ≢ client
            → lines_of self.new other ≡ lines_of self.old other }
    {
        if let Some(line) = self.lines.get_mut(&client) {
            line.advance(client, net);
        }
    }

    /// Whether the client's call goes on for now, though the client has another callback.
    pub(crate) fn use_check(&mut self, client: u32) -> bool
        ensures { (other : ℕ) → lines_of self.new other ≡ lines_of self.old other }
    {
        match self.lines.get_mut(&client) {
            Some(line) => line.use_check(),
            None => false,
        }
    }

    /// Whether notice is to be taken now that the client's call has had no reply yet.
    pub(crate) fn use_notice(&mut self, client: u32, now: Duration) -> bool
        ensures { (other : ℕ) → lines_of self.new other ≡ lines_of self.old other }
    {
        match self.lines.get_mut(&client) {
            Some(line) => line.use_notice(now),
            None => false,
        }
    }

    /// How many lines are in this state.
    pub(crate) fn count(&self, state: LineState) -> usize {
        self.lines
            .values()
            .filter(|line| line.state() == state)
            .count()
    }

    /// The first client after `after` that has a call under way, by the numbers, with the least after the greatest.
    pub(crate) fn next_called(&self, after: u32) -> Option<u32>
        ensures { IfSome result (λ client. IsSome (current_in (lines_of self.now client).stage)) }
    {
        match self.first_called_from(Bound::Excluded(after)) {
            None => self.first_called_from(Bound::Unbounded),
            found => found,
        }
    }

    // The first client from there on that has a call under way.
    fn first_called_from(&self, start: Bound<u32>) -> Option<u32>
        ensures { IfSome result (λ client. IsSome (current_in (lines_of self.now client).stage)) }
    {
        let mut rest = self.lines.range((start, Bound::Unbounded));
        let (client, _) = rest.find(|(_, line)| line.current().is_some())?;
        Some(*client)
    }

    /// The first client after `after` whose line is in this state, by the numbers, with the least after the greatest.
    pub(crate) fn next(&self, after: u32, state: LineState) -> Option<u32>
        requires { state ≢ states.Empty }
        ensures some { IfSome result (IsNextIn state after self.now) }
        ensures none { IfNone result (IsNowhere state self.now) }
    {
        match self.first_from(Bound::Excluded(after), state) {
            None => self.first_from(Bound::Unbounded, state),
            found => found,
        }
    }

    // The first client from there on whose line is in this state.
    fn first_from(&self, start: Bound<u32>, state: LineState) -> Option<u32>
        requires { state ≢ states.Empty }
        ensures some { IfSome result (λ client. state_of (lines_of self.now client) ≡ state) }
        ensures within { IfSome result (IsFromStart nat_cmp start) }
        ensures first { IfSome result (λ client. (other : ℕ) → IsFromStart nat_cmp start other
            → state_of (lines_of self.now other) ≡ state → client ≤ other) }
        ensures none { IfNone result ((other : ℕ) → IsFromStart nat_cmp start other
            → state_of (lines_of self.now other) ≡ state → ⊥) }
    {
        let mut rest = self.lines.range((start, Bound::Unbounded));
        let (client, _) = rest.find(|(_, line)| line.state() == state)?;
        Some(*client)
    }
}
