//! Answers calls in batches, so that the lock is taken once for all calls that came together.

ghost use Rattle.std.specs.Prelude.{◌≡◌, ◌≢◌, ◌+◌, ◌<◌, ◌≤◌, ◌++◌, [], ℕ, List, false, true, length, vec_capacity, IfOk, OnOk, OnErr};
ghost use Rattle.std.specs.List.{AllByRecursion};
ghost use Rattle.std.specs.VecDeque.{deque_capacity, deque_len};
ghost use Rattle.nfs_server.specs.Batch.{AreAnswered, gathering, goes_on, messages_in, waiting_bytes};
ghost use Rattle.nfs_server.specs.Exchange.{rules};
ghost use Rattle.nfs_tree.specs.Exports.{export_seen};

use crate::answered_call::{AnsweredCall, REPLY_LIMIT, answer_call};
use crate::compound::make_result_room;
use crate::pending_call::PendingCall;
use crate::{Clock, Service};
use nfs_rpc::{RECORD_LIMIT, Records};
use nfs_tree::Export;
use nfs_xdr::{OPERATION_LIMIT, OpResult};
use std::alloc::{AllocError, Global};
use std::collections::VecDeque;

/// The most records that are answered in one batch.
pub(crate) const BATCH_RECORDS: usize = 16;

/// The most questions that a service is asked in one batch: as many as one COMPOUND may have operations.
pub(crate) const BATCH_QUESTIONS: usize = OPERATION_LIMIT as usize;

/// Once more bytes of replies than this wait, they are written before the next record is answered. With one more reply
/// there are at most `GATHER_ROOM`.
pub(crate) const GATHER_LIMIT: usize = GATHER_ROOM - REPLY_LIMIT;

/// The most bytes of replies that wait together.
const GATHER_ROOM: usize = 524_288;

/// Calls that wait for their answers, calls that were answered and whose replies aren't written yet, replies that wait
/// to be sent together, and lists for the results of the next COMPOUNDs.
#[derive(Drop)]
pub(crate) struct Replies {
    alloc: Global,
    pending: VecDeque<PendingCall>,
    answered: VecDeque<AnsweredCall>,
    gathered: Vec<u8>,
    lists: Vec<Vec<OpResult>>,
}

impl Replies {
    /// No calls and no replies, which takes no memory.
    pub(crate) fn new(alloc: Global) -> Replies
        ensures pending { result.pending.items ≡ [] }
        ensures answered { result.answered.items ≡ [] }
        ensures gathered { result.gathered.items ≡ [] }
    {
        Replies {
            alloc,
            pending: VecDeque::new(alloc),
            answered: VecDeque::new(alloc),
            gathered: Vec::new(alloc),
            lists: Vec::new(alloc),
        }
    }

    /// No calls and no replies, with room for as many calls, replies and results as there may be.
    pub(crate) fn with_room(alloc: Global) -> Result<Replies, AllocError>
        ensures pending { IfOk result (λ replies. replies.pending.items ≡ []) }
        ensures answered { IfOk result (λ replies. replies.answered.items ≡ []) }
        ensures gathered { IfOk result (λ replies. replies.gathered.items ≡ []) }
    {
        let mut replies = Replies::new(alloc);
        replies.pending.reserve(BATCH_RECORDS)?;
        replies.answered.reserve(BATCH_RECORDS)?;
        replies.make_room()?;
        replies.lists = result_lists(alloc)?;
        Ok(replies)
    }

    /// Where memory is taken.
    pub(crate) fn alloc(&self) -> Global {
        self.alloc
    }

    /// The bytes of the waiting replies.
    pub(crate) fn as_slice(&self) -> &[u8]
        ensures { result.now ≡ self.now.gathered.items }
    {
        self.gathered.as_slice()
    }

    /// Removes the waiting replies.
    pub(crate) fn clear(&mut self)
        ensures gathered { self.new.gathered.items ≡ [] }
        ensures pending { self.new.pending.items ≡ self.old.pending.items }
        ensures answered { self.new.answered.items ≡ self.old.answered.items }
    {
        self.gathered.clear();
    }

    /// Removes the waiting calls, too. The memory stays.
    pub(crate) fn clear_all(&mut self)
        ensures gathered { self.new.gathered.items ≡ [] }
        ensures pending { self.new.pending.items ≡ [] }
        ensures answered { self.new.answered.items ≡ [] }
    {
        while let Some(call) = self.pending.pop_front() {
            call.give_back(&mut self.lists);
        }
        self.gathered.clear();
        self.answered.clear();
    }

    /// Reads the calls of records that are ready, and has the service answer the first of the pending ones in a batch.
    /// Their replies are written, and the calls let go, once the batch has ended. Returns whether there were any. Where
    /// memory is refused, those that were answered remain so, and the service wasn't asked for the others.
    pub(crate) fn answer_some<S: Service, C: Clock>(
        &mut self,
        records: &mut Records,
        service: &mut S,
        export: &Export<'_>,
        clock: &mut C,
    ) -> Result<bool, AllocError>
        requires limits { AllByRecursion (λ message. length message ≤ RECORD_LIMIT)
            records.old.ready }
        requires within { length self.old.gathered.items ≤ GATHER_LIMIT }
        requires written { self.old.answered.items ≡ [] }
        requires serves { S.serves service.old ≡ export_seen export.now }
        ensures ok { OnOk result (AreAnswered (rules (export_seen export.now) S.gives S.alike C.tells)
            (gathering service.old clock.old self.old.gathered.items
            (messages_in self.old.pending.items ++ records.old.ready)) []
            (gathering service.new clock.new self.new.gathered.items
            (messages_in self.new.pending.items ++ records.new.ready))) }
        ensures err { OnErr result ((refused : List (List ℕ)) × (refused ≢ [])
            × AreAnswered (rules (export_seen export.now) S.gives S.alike C.tells)
            (gathering service.old clock.old self.old.gathered.items
            (messages_in self.old.pending.items ++ records.old.ready)) refused
            (gathering service.new clock.new self.new.gathered.items [])) }
        ensures none { IfOk result (λ some. some ≡ false
            → messages_in self.new.pending.items ++ records.new.ready ≡ []) }
        ensures fewer { IfOk result (λ some. some ≡ true
            → length (messages_in self.new.pending.items ++ records.new.ready)
            < length (messages_in self.old.pending.items ++ records.old.ready)) }
        ensures written { self.new.answered.items ≡ [] }
        ensures limits { AllByRecursion (λ message. length message ≤ RECORD_LIMIT)
            records.new.ready }
        ensures records { records.new ≡ record records.old { ready = records.new.ready } }
        ensures serves { S.serves service.new ≡ export_seen export.now }
    {
        self.take(records)?;
        if self.pending.is_empty() {
            return Ok(false);
        }
        self.make_room()?;
        service.begin_batch();
        let answered = self.answer_batch(service, export, clock);
        service.end_batch();
        self.write_answered();
        answered?;
        Ok(true)
    }

    // Reads the calls of records that are ready, up to as many as a batch may have.
    fn take(&mut self, records: &mut Records) -> Result<(), AllocError>
        requires limits { AllByRecursion (λ message. length message ≤ RECORD_LIMIT)
            records.old.ready }
        ensures ok { OnOk result (messages_in self.old.pending.items ++ records.old.ready
            ≡ messages_in self.new.pending.items ++ records.new.ready) }
        ensures err { OnErr result
            (messages_in self.old.pending.items ++ records.old.ready ≢ []) }
        ensures none { OnOk result (self.new.pending.items ≡ [] → records.new.ready ≡ []) }
        ensures same { self.new.gathered.items ≡ self.old.gathered.items }
        ensures answered { self.new.answered.items ≡ self.old.answered.items }
        ensures limits { AllByRecursion (λ message. length message ≤ RECORD_LIMIT)
            records.new.ready }
        ensures records { records.new ≡ record records.old { ready = records.new.ready } }
    {
        while self.pending.len() < BATCH_RECORDS {
            let Some(message) = records.next() else {
                return Ok(());
            };
            let call = PendingCall::of(self.alloc, message, &mut self.lists)?;
            self.pending.push_back(call).map_err(|_| AllocError)?;
        }
        Ok(())
    }

    // Makes room for the answers to the pending calls, and for the replies that may wait together.
    fn make_room(&mut self) -> Result<(), AllocError>
        requires within { length self.old.gathered.items ≤ GATHER_LIMIT }
        requires written { self.old.answered.items ≡ [] }
        ensures answered { self.new.answered.items ≡ self.old.answered.items }
        ensures same { self.new.gathered.items ≡ self.old.gathered.items }
        ensures pending { self.new.pending.items ≡ self.old.pending.items }
        ensures calls { OnOk result (deque_len self.new.answered + deque_len self.new.pending
            ≤ deque_capacity self.new.answered) }
        ensures bytes { OnOk result (GATHER_ROOM ≤ vec_capacity self.new.gathered) }
    {
        if self.answered.capacity() < self.pending.len() {
            self.answered.reserve(self.pending.len())?;
        }
        self.gathered.reserve(GATHER_ROOM - self.gathered.len())
    }

    // Answers pending calls, the first at least, and those after it for as long as the batch goes on.
    fn answer_batch<S: Service, C: Clock>(
        &mut self,
        service: &mut S,
        export: &Export<'_>,
        clock: &mut C,
    ) -> Result<(), AllocError>
        requires within { length self.old.gathered.items ≤ GATHER_LIMIT }
        requires written { self.old.answered.items ≡ [] }
        requires room { deque_len self.old.answered + deque_len self.old.pending
            ≤ deque_capacity self.old.answered }
        requires serves { S.serves service.old ≡ export_seen export.now }
        ensures ok { OnOk result (AreAnswered (rules (export_seen export.now) S.gives S.alike C.tells)
            (gathering service.old clock.old self.old.gathered.items
            (messages_in self.old.pending.items)) []
            (gathering service.new clock.new
            (waiting_bytes self.new.gathered.items self.new.answered.items)
            (messages_in self.new.pending.items))) }
        ensures err { OnErr result ((refused : List (List ℕ)) × (refused ≢ [])
            × AreAnswered (rules (export_seen export.now) S.gives S.alike C.tells)
            (gathering service.old clock.old self.old.gathered.items
            (messages_in self.old.pending.items)) refused
            (gathering service.new clock.new
            (waiting_bytes self.new.gathered.items self.new.answered.items) [])) }
        ensures fewer { OnOk result (self.old.pending.items ≢ []
            → length self.new.pending.items < length self.old.pending.items) }
        ensures few { length (waiting_bytes self.new.gathered.items self.new.answered.items)
            ≤ GATHER_ROOM }
        ensures same { self.new.gathered ≡ self.old.gathered }
        ensures serves { S.serves service.new ≡ export_seen export.now }
    {
        let mut asked = 0;
        let mut waiting = self.gathered.len();
        while self.goes_on(asked, waiting) {
            let Some(pending) = self.pending.pop_front() else {
                return Ok(());
            };
            asked += pending.question_count();
            let len = answer_call(
                pending,
                service,
                export,
                clock,
                &mut self.answered,
                &mut self.lists,
            )?;
            waiting += len;
        }
        Ok(())
    }

    // Whether a batch in which so many questions were asked, and with which so many bytes of replies wait, goes on with
    // the next call.
    fn goes_on(&self, asked: usize, waiting: usize) -> bool
        requires few { asked ≤ BATCH_QUESTIONS }
        ensures goes { result ≡ goes_on self.now.pending.items asked waiting }
        ensures first { asked ≡ 0 → waiting ≤ GATHER_LIMIT → self.now.pending.items ≢ []
            → result ≡ true }
    {
        match self.pending.front() {
            None => false,
            Some(next) => {
                let asked = asked + next.question_count();
                waiting <= GATHER_LIMIT && asked <= BATCH_QUESTIONS
            }
        }
    }

    // Writes the replies to the calls that were answered, and lets the calls go. The lists of their results are kept.
    fn write_answered(&mut self)
        requires room { length (waiting_bytes self.old.gathered.items self.old.answered.items)
            ≤ vec_capacity self.old.gathered }
        ensures gathered { self.new.gathered.items
            ≡ waiting_bytes self.old.gathered.items self.old.answered.items }
        ensures answered { self.new.answered.items ≡ [] }
        ensures pending { self.new.pending.items ≡ self.old.pending.items }
    {
        while let Some(call) = self.answered.pop_front() {
            call.write(&mut self.gathered, &mut self.lists);
        }
    }
}

// As many lists of results as there are calls in a batch.
fn result_lists(alloc: Global) -> Result<Vec<Vec<OpResult>>, AllocError> {
    let mut lists = Vec::with_capacity(alloc, BATCH_RECORDS)?;
    for _ in 0..BATCH_RECORDS {
        let mut list = Vec::new(alloc);
        make_result_room(&mut list)?;
        lists.push(list)?;
    }
    Ok(lists)
}
