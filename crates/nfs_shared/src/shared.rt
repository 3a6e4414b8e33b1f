//! The state that threads share, behind one lock.
ghost use Rattle.std.specs.Prelude.{◌≡◌, ◌+◌, ◌<◌, ◌≤◌, ◌↔◌, ◌++◌, [], IfOk, IfErr, IfSome, IfNone, IsNone, IsTrue, List, None, Ok, OnErr, OnOk, Some, length, map, vec_len};
ghost use Rattle.nfs_core.specs.Recalls.{AreRecallsOf};
ghost use Rattle.nfs_core.specs.Safe.{IsSafe};
ghost use Rattle.nfs_core.specs.Server.{IsLawful};
ghost use Rattle.nfs_forms.specs.ClientId.{number_in};
ghost use Rattle.nfs_shared.specs.Deeds.{keeper_deeds};
ghost use Rattle.nfs_shared.specs.Ends.{AreFresh, AreKept, AllStand, AllApart, AllBegin, AllBorneOut, JournalBearsOut, AllHeeded, AllInTime, AllMet, receipts_in, given_in};
ghost use Rattle.nfs_shared.specs.Held.{HeldView, SweeperMayFind};
ghost use Rattle.nfs_shared.specs.Naming.{CanBegin, start_of};
ghost use Rattle.nfs_leases.specs.Renewals.{renewed_by};
ghost use Rattle.nfs_shared.specs.Receipts.{calls_in, others_in};
ghost use Rattle.nfs_shared.specs.Renewing.{RenewsAs, RenewsFor};
ghost use Rattle.nfs_shared.specs.Roll.{IsOf, IsWriter, list_of, writer_of};
ghost use Rattle.nfs_shared.specs.Seats.{Gives, KnowsTheSame, fresh, with_leases};
ghost use Rattle.nfs_leases.specs.Sweeps.{Sweeps, leased_server};
ghost use Rattle.nfs_rpc.specs.declared.recall.Recall.{Recall};
ghost use Rattle.nfs_state.specs.Entries.{IsFilehandle, request_of, resource};
ghost use Rattle.nfs_state.specs.Stored.{meaning};
ghost use Rattle.nfs_words.specs.Calls.{AreWorkerSeats, IsKeeperAt, Renews, worker_at};
ghost use Rattle.nfs_words.specs.Desk.{Happens};
ghost use Rattle.nfs_tree.specs.Profiles.{has_entry};
ghost use Rattle.nfs_xdr.specs.Op.{opnum_of};
ghost use Rattle.nfs_xdr.specs.OpResult.{op_result};
ghost use Rattle.nfs_xdr.specs.Opnum.{answer_limit};

mod ordering;
mod sending;

use crate::held::{Held, call_held, recalls_are_left, sweep_held};
use crate::hold::{Hold, hold_in, look_and_lock};
use crate::naming::{Naming, OtherLedger, ReceiptLedger};
use crate::opened::Opened;
use crate::recall_queue::RecallQueue;
use crate::receipt::Receipt;
use crate::register::Register;
use crate::roll::{Copied, Roll, Token, meet};
use crate::seat::Seat;
use crate::sender::Sender;
use crate::sweeper::Sweeper;
use nfs_core::{Core, Moment};
use nfs_leases::{LeasedCore, Renewal, Swept, renewed_client};
use nfs_state::Request;
use nfs_tree::Profile;
use nfs_words::{LeaseSeat, WordDesk, WordLeases};
use nfs_xdr::{ClientId, Op, OpResult, Principal, Refusal};
use std::alloc::{AllocError, Global};
use std::marker::Model;
use std::sync::ledger::Share;
use std::sync::{Arc, Mutex, Wait};

/// The core with its journal, the keeper's book of leases and the receipts' register, behind one lock, and beside it
/// the words of the leases, which any worker reads and raises, and the queue by which recalls reach the thread that
/// sends them. What holds whenever the lock is free is the invariant of `Held`.
#[derive(Drop)]
pub struct Shared<N: Naming> {
    words: Arc<WordLeases, Global>,
    // The run's epoch, by which a clientid or a stateid names a client of the run.
    epoch: u32,
    profile: Profile,
    held: Mutex<Held<N>>,
    queue: RecallQueue,
}

// Contracts see the queue's name, which is the run's.
impl<N: Naming> Model for Shared<N> {
    ghost use Rattle.std.specs.Prelude.{◌≡◌};
    ghost use Rattle.std.specs.Arc.{arc_value};
    ghost use Rattle.atomic_table.specs.Seated.{TableId};

    ghost Value = { TableId };

    ghost view = { λ s. s.queue };

    ghost invariant = { λ s. (s.queue ≡ N.run.queue) × (arc_value s.words ≡ N.run.words)
        × (s.epoch ≡ N.start.epoch) × (s.profile ≡ N.start.policy.profile) };
}

/// The shared state, and what the threads of a run need for it.
#[derive(Drop)]
pub struct SharedParts<N: Naming> {
    pub shared: Shared<N>,
    /// A seat for each worker, in the order of their places.
    pub seats: Vec<Seat<N>>,
    pub sweeper: Sweeper<N>,
    pub sender: Sender<N>,
}

impl<N: Naming> Shared<N> {
    /// The core under a lock, a seat for each worker, who sweeps, and who sends recalls. The core's journal is empty,
    /// and no client is live in it. It fails only where memory is refused, and gives the core back.
    pub fn new(alloc: Global, opened: Opened, core: Core) -> Result<SharedParts<N>, Core>
        requires beginning { CanBegin N.run N.start opened core }
        ensures seats { IfOk result (λ r. AreFresh N.run.words N.run.workers r.seats.items) }
        ensures sweeper { IfOk result (λ r. r.sweeper.count ≡ 0) }
        ensures sender { IfOk result (λ r. r.sender ≡ record {
          taken = [];
          known_put = [];
          count = 0;
        }) }
        ensures err { IfErr result (λ c. c ≡ core) }
    {
        let epoch = core.journal().epoch();
        let profile = core.journal().policy().profile;
        let Opened {
            roll,
            mut writer,
            receipt_ledger,
            other_ledger,
            workers,
            queue,
            put,
            take,
            words,
            kept,
            lease_seats,
            keeper,
        } = opened;
        let (count, mut rest) = receipt_ledger.open::<ReceiptLedger<N>>();
        let (other_count, mut share) = other_ledger.open::<OtherLedger<N>>();
        let Ok(seats) = new_seats(alloc, &roll, &mut writer, &mut rest, workers, lease_seats) else {
            return Err(core);
        };
        let register = Register {
            places: Vec::new(alloc),
            roll,
            writer,
            count,
            rest,
        };
        recalls_are_left(&core);
        let desk = WordDesk::new(kept, keeper);
        let leased = LeasedCore::new(core, desk);
        let held = Held {
            leased,
            register,
            other_count,
            put,
            hand: None,
        };
        let sender = Sender {
            pass: take,
            share: share.split_off(1, 0),
        };
        Ok(SharedParts {
            shared: Shared {
                words,
                epoch,
                profile,
                held: Mutex::new(held),
                queue,
            },
            seats,
            sweeper: Sweeper { share },
            sender,
        })
    }

    /// The number of the server's run, which is known without the lock.
    pub fn epoch(&self) -> u32
        ensures { result ≡ N.start.epoch }
    {
        self.epoch
    }

    /// The profile of the run's tree, which is known without the lock.
    pub fn profile(&self) -> Profile
        ensures { result ≡ N.start.policy.profile }
    {
        self.profile
    }

    /// Takes the lock, for as long as the value lives that is returned. It looks for a while before it sleeps.
    pub fn hold<'a, 'b, R: Wait>(&'a self, rt: &'b R) -> Hold<'a, 'b, N, R> {
        Hold {
            rt,
            queue: &self.queue,
            guard: look_and_lock(rt, &self.held),
        }
    }

    /// Answers an operation that has an entry in the journal, in one hold of the lock, with a receipt for its entry.
    /// The lease of the client that the operation names is renewed first, by the seat and without the lock, also where
    /// memory is refused for the request. `filehandle` has to be a node of the tree.
    pub fn call<R: Wait>(
        &self,
        rt: &R,
        seat: &mut Seat<N>,
        moment: Moment,
        principal: Principal,
        op: &Op,
        filehandle: Option<u32>,
    ) -> (OpResult, Option<Receipt>)
        requires entry { IsTrue (has_entry N.start.policy.profile op.now) }
        requires node { IsFilehandle N.start filehandle }
        ensures refused { IsNone result.1 ↔ (result.0 ≡ resource op.now) }
        ensures renews { RenewsFor (renewed_by N.start.epoch op.now) moment seat.old.leases
            seat.new.leases }
        ensures same { IfNone result.1 (KnowsTheSame seat.old seat.new) }
        ensures entry { IfSome result.1 (λ r. r.call ≡ record {
          request = request_of moment principal op.now filehandle;
          answer = result.0;
        }) }
        ensures given { IfSome result.1
            (λ r. Gives (with_leases seat.old seat.new.leases) r seat.new) }
        ensures short { length (op_result.encoding result.0) ≤ answer_limit (opnum_of op.now) }
        ensures form { op_result.Fits result.0 }
    {
        let Ok(request) = Request::of_copy(moment, principal, op, filehandle) else {
            self.renew_named(seat, op, moment);
            return (op.opnum().refusal(Refusal::Resource), None);
        };
        let mut hold = None;
        self.call_in(rt, &mut hold, seat, request)
    }

    /// Answers a request for an operation that has an entry in the journal, with a receipt for its entry. It first
    /// renews the lease of the client that the operation names, by the seat and without the lock. If `hold` has no
    /// hold, it then locks the state. It leaves the hold there, so that the caller may have several requests answered
    /// in one. The filehandle has to be a node of the tree.
    pub fn call_in<'a, 'b, R: Wait>(
        &'a self,
        rt: &'b R,
        hold: &mut Option<Hold<'a, 'b, N, R>>,
        seat: &mut Seat<N>,
        request: Request,
    ) -> (OpResult, Option<Receipt>)
        requires entry { IsTrue (has_entry N.start.policy.profile request.op) }
        requires node { IsFilehandle N.start request.filehandle }
        ensures refused { IsNone result.1 ↔ (result.0 ≡ resource request.op) }
        ensures renews { RenewsFor (renewed_by N.start.epoch request.op) request.moment
            seat.old.leases seat.new.leases }
        ensures same { IfNone result.1 (KnowsTheSame seat.old seat.new) }
        ensures entry { IfSome result.1
            (λ r. r.call ≡ record { request = request; answer = result.0 }) }
        ensures given { IfSome result.1
            (λ r. Gives (with_leases seat.old seat.new.leases) r seat.new) }
        ensures short { length (op_result.encoding result.0) ≤ answer_limit (opnum_of request.op) }
        ensures form { op_result.Fits result.0 }
    {
        self.renew_named(seat, &request.op, request.moment);
        let hold = hold_in(hold, rt, self);
        call_held(&mut *hold.guard, seat, request)
    }

    /// Renews the lease of the client with this clientid, where it is open, and neither takes the lock nor waits. The
    /// seat gains just what it saw and did: a look, and where that showed the lease open a raise of its word. Of a
    /// clientid of another run it gains nothing, and there is no answer.
    pub fn renew(&self, seat: &mut Seat<N>, client: ClientId, moment: Moment) -> Option<Renewal>
        ensures renews { RenewsAs (number_in N.start.epoch client) moment result seat.old.leases
            seat.new.leases }
        ensures same { seat.new ≡ with_leases seat.old seat.new.leases }
    {
        self.renew_number(seat, client.number_in(self.epoch), moment)
    }

    /// Renews the lease of the client that the operation names, if it names one of this run, as `renew` does.
    pub fn renew_named(&self, seat: &mut Seat<N>, op: &Op, moment: Moment)
        ensures renews { RenewsFor (renewed_by N.start.epoch op.now) moment seat.old.leases
            seat.new.leases }
        ensures same { seat.new ≡ with_leases seat.old seat.new.leases }
    {
        self.renew_number(seat, renewed_client(op, self.epoch), moment);
    }

    // Renews the lease of the client with this number, if there is one.
    fn renew_number(
        &self,
        seat: &mut Seat<N>,
        number: Option<u32>,
        moment: Moment,
    ) -> Option<Renewal>
        ensures renews { RenewsAs number moment result seat.old.leases seat.new.leases }
        ensures same { seat.new ≡ with_leases seat.old seat.new.leases }
    {
        match number {
            Some(client) => Some(self.renew_client(seat, client, moment)),
            None => None,
        }
    }

    // Renews the client's lease.
    fn renew_client(&self, seat: &mut Seat<N>, client: u32, moment: Moment) -> Renewal
        ensures renews { Renews seat.old.leases client moment result seat.new.leases }
        ensures same { seat.new ≡ with_leases seat.old seat.new.leases }
    {
        self.words.renew(&mut seat.leases, client, moment)
    }

    /// Removes each client whose lease is over at this moment, with all that it has, but for those that are renewed
    /// meanwhile, and those for whose entry there is no room. Then it revokes the delegations that are due, and then
    /// forgets the open owners that may be forgotten, until none is left of both, or there is no room for an entry. All
    /// is done in one hold of the lock. No clause says that the lock guarded the value that is swept, but that it may
    /// have.
    pub fn sweep<R: Wait>(&self, rt: &R, sweeper: &mut Sweeper<N>, now: Moment) -> Swept
        ensures sweeps { (old : HeldView) × (new : HeldView) × SweeperMayFind N.start sweeper.old old
            × Sweeps Happens now (leased_server old.server old.leases) result
            (leased_server new.server new.leases) }
        ensures count { sweeper.new.count
            ≡ sweeper.old.count + result.expired + result.revoked + result.forgotten }
    {
        sweep_held(&mut *self.hold(rt).guard, sweeper, now)
    }

    /// The core, once all threads have ended. `receipts` has for each seat those that it was given, in order, and all
    /// seats are handed in, in the order of their places. What was taken from the queue begins the recalls of the
    /// core's journal, in order, each once. No renewal that was answered to a seat is later than the journal's end of
    /// its client allows, and none came after an end that the seat saw. The journal made live whom a seat renewed, and
    /// ended whose lease a seat found closed, or made live a later client of its slot.
    pub fn end(
        self,
        receipts: &[Vec<Receipt>],
        seats: Vec<Seat<N>>,
        sweeper: Sweeper<N>,
        sender: Sender<N>,
    ) -> Core
        requires all { length seats.items ≡ N.run.workers }
        requires kept { AreKept seats.items (map (λ v. v.items) receipts.now) }
        ensures start { start_of result.journal ≡ N.start }
        ensures lawful { IsLawful result }
        ensures safe { IsSafe (meaning result.stored) }
        ensures stand { AllStand result.journal.entries (map (λ v. v.items) receipts.now) }
        ensures apart { AllApart (map (λ v. v.items) receipts.now) }
        ensures counted { calls_in result.journal.entries
            ≡ receipts_in (map (λ v. v.items) receipts.now) }
        ensures others { others_in result.journal.entries ≡ sweeper.count + sender.count }
        ensures taken { (rest : List Recall)
            × AreRecallsOf result.journal (sender.taken ++ rest) }
        ensures in_time { AllInTime result.journal.lease result.journal.entries seats.items }
        ensures heeded { AllHeeded seats.items }
        ensures borne_out { JournalBearsOut result seats.items }
    {
        let Shared {
            words,
            epoch: _,
            profile: _,
            held,
            queue,
        } = self;
        let held = held.into_inner();
        let Held {
            leased,
            register,
            mut other_count,
            mut put,
            hand: _,
        } = held;
        let Sweeper { mut share } = sweeper;
        let Sender {
            mut pass,
            share: marks,
        } = sender;
        queue.meet(&mut put, &mut pass);
        let Register {
            places: _,
            roll,
            mut writer,
            mut count,
            mut rest,
        } = register;
        let (core, book) = leased.into_parts();
        let (_, mut keeper) = book.into_parts();
        meet_each(&roll, &words, &mut writer, &mut keeper, &mut rest, seats);
        count.audit(&mut rest);
        share.merge(marks);
        other_count.audit(&mut share);
        core
    }
}

// A fresh seat for each worker, in the order of their places, with one of these at the lease words.
fn new_seats<N: Naming>(
    alloc: Global,
    roll: &Roll,
    writer: &mut Token,
    rest: &mut Share<ReceiptLedger<N>>,
    workers: u32,
    lease_seats: Vec<LeaseSeat>,
) -> Result<Vec<Seat<N>>, AllocError>
    requires roll { roll.now.shared.table_id ≡ N.run.roll }
    requires leases { AreWorkerSeats N.run.words workers lease_seats.items }
    requires writer { IsOf N.run.roll writer.old × (writer.old.me ≡ (writer_of [], [])) }
    requires rest { (rest.old.parts ≡ workers) × (rest.old.amount ≡ 0) }
    ensures writer { IfOk result (λ s. IsOf N.run.roll writer.new
        × (writer.new.me ≡ (writer_of [], []))) }
    ensures rest { IfOk result (λ s. (rest.new.parts ≡ 0) × (rest.new.amount ≡ 0)) }
    ensures seats { IfOk result (λ s. AreFresh N.run.words workers s.items) }
{
    let mut seats = Vec::new(alloc);
    let mut lease_seats = lease_seats.into_iter();
    for place in 0..workers {
        let Some(leases) = lease_seats.next() else {
            unreachable!()
        };
        seats.push(new_seat(roll, writer, rest, place, leases))?;
    }
    Ok(seats)
}

fn new_seat<N: Naming>(
    roll: &Roll,
    writer: &mut Token,
    rest: &mut Share<ReceiptLedger<N>>,
    place: u32,
    leases: LeaseSeat,
) -> Seat<N>
    requires roll { roll.now.shared.table_id ≡ N.run.roll }
    requires writer { IsOf N.run.roll writer.old × (writer.old.me ≡ (writer_of [], [])) }
    requires rest { (rest.old.amount ≡ 0) × (0 < rest.old.parts) }
    requires leases { leases ≡ worker_at N.run.words place }
    ensures writer { IsOf N.run.roll writer.new × (writer.new.me ≡ (writer_of [], [])) }
    ensures rest { (rest.new.parts + 1 ≡ rest.old.parts) × (rest.new.amount ≡ 0) }
    ensures seat { result ≡ fresh N.run.words place }
{
    let token = roll.shared.split_seat::<Copied>(writer);
    Seat {
        place,
        last: None,
        token,
        share: rest.split_off(1, 0),
        leases,
    }
}

// Each seat meets the writer and the keeper, and gives its share back.
fn meet_each<N: Naming>(
    roll: &Roll,
    words: &WordLeases,
    writer: &mut Token,
    keeper: &mut LeaseSeat,
    rest: &mut Share<ReceiptLedger<N>>,
    seats: Vec<Seat<N>>,
)
    requires roll { roll.now.shared.table_id ≡ N.run.roll }
    requires words { words.now ≡ N.run.words }
    requires writer { IsOf N.run.roll writer.old × IsWriter writer.old }
    requires keeper { IsKeeperAt N.run.words N.run.workers keeper.old }
    ensures begin { AllBegin seats.items (list_of writer.old) }
    ensures met { AllMet N.run.words.lease keeper.old.view.own seats.items }
    ensures heeded { AllHeeded seats.items }
    ensures borne_out { AllBorneOut (keeper_deeds keeper.old.view.own) seats.items }
    ensures parts { rest.new.parts ≡ rest.old.parts + length seats.items }
    ensures amount { rest.new.amount ≡ rest.old.amount + given_in seats.items }
{
    for seat in seats {
        let Seat {
            place: _,
            last: _,
            mut token,
            share,
            mut leases,
        } = seat;
        meet(roll, writer, &mut token);
        leases.heed();
        words.confer(keeper, &mut leases, 0);
        rest.merge(share);
    }
}
