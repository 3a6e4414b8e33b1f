//! The value that the lock guards, and what is done to it.
ghost use Rattle.std.specs.Prelude.{◌≡◌, ◌↔◌, ◌+◌, ◌<◌, ◌≤◌, ◌++◌, ◌∷◌, [], IfErr, IfNone, IfOk, IfSome, IsNone, IsTrue, OnErr, OnOk, Option, Some, length, slice_get, vec_capacity, vec_len};
ghost use Rattle.nfs_core.specs.Entered.{Answers, number_entered};
ghost use Rattle.nfs_core.specs.Events.{EndsNoClient, IsNotEntered, entry_by};
ghost use Rattle.nfs_core.specs.Recalls.{AreLeftOf, AreOneList, RecallsBegin};
ghost use Rattle.nfs_core.specs.Server.{Applies, AreAlike, Enters, IsLawful};
ghost use Rattle.nfs_core.specs.declared.entered.Entered.{Entered};
ghost use Rattle.nfs_leases.specs.BookEvent.{AllHappen};
ghost use Rattle.nfs_leases.specs.BookOf.{events_entered};
ghost use Rattle.nfs_shared.specs.Held.{CanBeHeld, HasQueued, SenderMayFind, SweeperMayFind, waiting};
ghost use Rattle.nfs_shared.specs.Sender.{with_known, with_mark};
ghost use Rattle.nfs_shared.specs.Seats.{Gives, KnowsTheSame, number_given};
ghost use Rattle.nfs_leases.specs.Sweeps.{Sweeps, leased_server};
ghost use Rattle.nfs_state.specs.Entries.{IsFilehandle, resource};
ghost use Rattle.nfs_state.specs.declared.entry.Call.{Call};
ghost use Rattle.nfs_state.specs.declared.entry.Entry.TheVariants as entries;
ghost use Rattle.nfs_words.specs.Desk.{Happens};
ghost use Rattle.nfs_tree.specs.Profiles.{has_entry};
ghost use Rattle.nfs_xdr.specs.Op.{opnum_of};
ghost use Rattle.nfs_xdr.specs.OpResult.{op_result};
ghost use Rattle.nfs_xdr.specs.Opnum.{answer_limit};

use crate::naming::{Naming, OtherLedger};
use crate::recall_queue::{PutPass, RecallQueue};
use crate::receipt::Receipt;
use crate::register::{Register, give};
use crate::seat::Seat;
use crate::sender::Sender;
use crate::sweeper::Sweeper;
use nfs_core::{
    Core, CoreError, Entered, Entry, Event, Moment, Recall, lawful_is_safe, recalls_are_one_list,
    recalls_begin,
};
use nfs_leases::{LeasedCore, Swept};
use nfs_state::{Request, SeenCall};
use nfs_words::WordDesk;
use nfs_xdr::{OpResult, Refusal};
use std::marker::Model;
use std::sync::ledger::{Book, Share};

/// The core with its journal and the keeper's book of its clients' leases, the register of the receipts for its
/// entries, the number of the entries that are no calls, the right to put recalls into the queue, and a recall that
/// found no room there.
#[derive(Drop)]
pub struct Held<N: Naming> {
    pub(crate) leased: LeasedCore<WordDesk>,
    pub(crate) register: Register<N>,
    pub(crate) other_count: Book<OtherLedger<N>>,
    pub(crate) put: PutPass,
    pub(crate) hand: Option<Recall>,
}

impl<N: Naming> Held<N> {
    /// The core, to be looked at.
    pub fn core(&self) -> &Core
        ensures core { result.now ≡ self.now.server }
        ensures known { CanBeHeld N.start self.now }
    {
        &self.leased.core
    }

    /// How many recalls wait for room in the queue. Where a hold of the lock ends, they go there as far as there is
    /// room.
    pub fn waiting(&self) -> usize
        ensures { result ≡ length (waiting self.now.hand self.now.server.recalls) }
    {
        let left = self.leased.core.pending().len();
        match self.hand {
            Some(_) => 1 + left,
            None => left,
        }
    }
}

impl<N: Naming> Model for Held<N> {
    ghost use Rattle.std.specs.Prelude.{◌≡◌};
    ghost use Rattle.nfs_shared.specs.Held.{HeldView, IsHeld, IsTied};
    ghost use Rattle.nfs_shared.specs.Naming.{start_of};
    ghost use Rattle.nfs_shared.specs.Receipts.{others_in};
    ghost use Rattle.nfs_shared.specs.Roll.{list_of};
    ghost use Rattle.nfs_words.specs.Calls.{IsKeeperAt};

    ghost Value = { HeldView };

    ghost view = { λ h. record {
      server = h.leased.core;
      leases = h.leased.book;
      places = h.register.places.items;
      receipts = list_of h.register.writer;
      put = h.put.recalls;
      known_taken = h.put.known;
      hand = h.hand;
    } };

    ghost invariant = { λ h.
        IsHeld (record {
          server = h.leased.core;
          leases = h.leased.book;
          places = h.register.places.items;
          receipts = list_of h.register.writer;
          put = h.put.recalls;
          known_taken = h.put.known;
          hand = h.hand;
        })
        × IsTied N.run.roll h.register.roll.shared.table_id h.register.writer h.register.count.total
        × (start_of h.leased.core.journal ≡ N.start)
        × (h.register.rest.parts ≡ 0) × (h.register.rest.amount ≡ 0)
        × (h.other_count.total ≡ others_in h.leased.core.journal.entries)
        × IsKeeperAt N.run.words N.run.workers h.leased.book
        × (h.put.queue ≡ N.run.queue) };
}

/// Has the core answer an operation, and makes the receipt for its entry. The leases of the clients that become live by
/// it are opened, and those of the clients that are replaced are retired. It renews no lease: the caller does that,
/// before.
pub fn call_held<N: Naming>(
    held: &mut Held<N>,
    seat: &mut Seat<N>,
    request: Request,
) -> (OpResult, Option<Receipt>)
    requires entry { IsTrue (has_entry N.start.policy.profile request.op) }
    requires node { IsFilehandle N.start request.filehandle }
    ensures applies { Applies held.old.server held.new.server request result.0
        (number_given result.1) }
    ensures refused { IsNone result.1 ↔ (result.0 ≡ resource request.op) }
    ensures entry { IfSome result.1
        (λ r. r.call ≡ record { request = request; answer = result.0 }) }
    ensures same { IfNone result.1 ((held.new.places ≡ held.old.places)
        × (held.new.receipts ≡ held.old.receipts) × KnowsTheSame seat.old seat.new) }
    ensures queue { HasQueued held.old held.new }
    ensures places { IfSome result.1 (λ r. held.new.places ≡ held.old.places ++ r.place ∷ []) }
    ensures receipts { IfSome result.1 (λ r. held.new.receipts ≡ held.old.receipts ++ r ∷ []) }
    ensures given { IfSome result.1 (λ r. Gives seat.old r seat.new) }
    ensures short { length (op_result.encoding result.0) ≤ answer_limit (opnum_of request.op) }
    ensures form { op_result.Fits result.0 }
    ensures leases { (entered : Option Entered)
        × Answers held.old.server held.new.server request result.0 entered
        × (number_entered entered ≡ number_given result.1)
        × AllHappen Happens held.old.leases (events_entered entered request.moment)
        held.new.leases }
    ensures looks { seat.new.leases ≡ seat.old.leases }
{
    lawful_is_safe();
    recalls_stay();
    let (answer, entered) = answer_with_room(&mut held.leased, &mut held.register.places, request);
    recalls_are_left(&held.leased.core);
    match entered {
        None => (answer, None),
        Some(entered) => {
            let call = call_at(&held.leased.core, entered.number);
            let receipt = give(&mut held.register, seat, entered.number, call);
            (answer, Some(receipt))
        }
    }
}

// Has the core answer, if there is room for the place of a receipt.
fn answer_with_room(
    leased: &mut LeasedCore<WordDesk>,
    places: &mut Vec<u32>,
    request: Request,
) -> (OpResult, Option<Entered>)
    requires entry { IsTrue (has_entry leased.old.core.journal.policy.profile request.op) }
    requires node { IsFilehandle leased.old.core.journal request.filehandle }
    ensures answers { Answers leased.old.core leased.new.core request result.0 result.1 }
    ensures short { length (op_result.encoding result.0) ≤ answer_limit (opnum_of request.op) }
    ensures form { op_result.Fits result.0 }
    ensures leases { AllHappen Happens leased.old.book (events_entered result.1 request.moment)
        leased.new.book }
    ensures lawful { IsLawful leased.new.core }
    ensures places { places.new.items ≡ places.old.items }
    ensures room { IfSome result.1 (λ _. vec_len places.new < vec_capacity places.new) }
{
    // That the journal leads to what is stored is known of a core that was looked at.
    leased.core.journal();
    if places.reserve(1).is_err() {
        let opnum = request.op.opnum();
        drop(request);
        return (opnum.refusal(Refusal::Resource), None);
    }
    leased.call(request)
}

// The call that is the journal's entry with this number.
fn call_at(core: &Core, number: u32) -> SeenCall
    requires { (call : Call)
        × (slice_get core.now.journal.entries number ≡ Some (entries.Call call)) }
    ensures { slice_get core.now.journal.entries number ≡ Some (entries.Call result.call) }
{
    let Some(Entry::Call(call)) = core.journal().entry(number as usize) else {
        unreachable!()
    };
    SeenCall::of(call)
}

/// Goes through the live clients, and removes each whose lease is over at `now`, but for those that are renewed between
/// the look and the closing, and those for whose entry there is no room. Then it revokes the delegations that are due,
/// and then forgets the open owners that may be forgotten, until none is left of both, or there is no room for an
/// entry. No receipt is made: the entries are the sweeper's.
pub fn sweep_held<N: Naming>(held: &mut Held<N>, sweeper: &mut Sweeper<N>, now: Moment) -> Swept
    ensures sweeps { Sweeps Happens now (leased_server held.old.server held.old.leases) result
        (leased_server held.new.server held.new.leases) }
    ensures known { SweeperMayFind N.start sweeper.old held.old }
    ensures count { sweeper.new.count
        ≡ sweeper.old.count + result.expired + result.revoked + result.forgotten }
    ensures queue { HasQueued held.old held.new }
    ensures places { held.new.places ≡ held.old.places }
    ensures receipts { held.new.receipts ≡ held.old.receipts }
{
    lawful_is_safe();
    recalls_stay();
    held.other_count.audit(&mut sweeper.share);
    let swept = held.leased.sweep(now);
    recalls_are_left(&held.leased.core);
    let entries = swept.expired as u64 + swept.revoked as u64 + swept.forgotten as u64;
    held.other_count.add(&mut sweeper.share, entries);
    swept
}

/// Enters an event that ends no client, and returns the number of the entry. No receipt is made: the entry is the
/// sender's. What fails changes nothing but room, of which there isn't less.
pub fn enter_held<N: Naming>(
    held: &mut Held<N>,
    sender: &mut Sender<N>,
    event: Event,
) -> Result<u32, CoreError>
    requires { EndsNoClient event }
    ensures enters { IfOk result (Enters held.old.server held.new.server (entry_by event)) }
    ensures error { IfErr result (IsNotEntered held.old.server event) }
    ensures known { CanBeHeld N.start held.old }
    ensures same { OnErr result (AreAlike held.old.server held.new.server) }
    ensures room { OnErr result (held.old.server.room ≤ held.new.server.room) }
    ensures count { OnOk result (sender.new ≡ with_mark sender.old) }
    ensures uncounted { OnErr result (sender.new ≡ sender.old) }
    ensures leases { held.new.leases ≡ held.old.leases }
    ensures queue { HasQueued held.old held.new }
    ensures places { held.new.places ≡ held.old.places }
    ensures receipts { held.new.receipts ≡ held.old.receipts }
{
    enter_counted(held, &mut sender.share, event)
}

/// Enters an event that ends no client, as `enter_held` does. The entry is the sweeper's.
pub fn enter_ordered<N: Naming>(
    held: &mut Held<N>,
    sweeper: &mut Sweeper<N>,
    event: Event,
) -> Result<u32, CoreError>
    requires { EndsNoClient event }
    ensures enters { IfOk result (Enters held.old.server held.new.server (entry_by event)) }
    ensures error { IfErr result (IsNotEntered held.old.server event) }
    ensures known { SweeperMayFind N.start sweeper.old held.old }
    ensures same { OnErr result (AreAlike held.old.server held.new.server) }
    ensures count { OnOk result (sweeper.new.count ≡ sweeper.old.count + 1) }
    ensures uncounted { OnErr result (sweeper.new ≡ sweeper.old) }
    ensures leases { held.new.leases ≡ held.old.leases }
    ensures queue { HasQueued held.old held.new }
    ensures places { held.new.places ≡ held.old.places }
    ensures receipts { held.new.receipts ≡ held.old.receipts }
{
    held.other_count.audit(&mut sweeper.share);
    enter_counted(held, &mut sweeper.share, event)
}

// Enters an event that ends no client, and counts the entry in this share.
fn enter_counted<N: Naming>(
    held: &mut Held<N>,
    share: &mut Share<OtherLedger<N>>,
    event: Event,
) -> Result<u32, CoreError>
    requires ends { EndsNoClient event }
    requires part { 0 < share.old.parts }
    ensures enters { IfOk result (Enters held.old.server held.new.server (entry_by event)) }
    ensures error { IfErr result (IsNotEntered held.old.server event) }
    ensures known { CanBeHeld N.start held.old }
    ensures same { OnErr result (AreAlike held.old.server held.new.server) }
    ensures room { OnErr result (held.old.server.room ≤ held.new.server.room) }
    ensures count { OnOk result (share.new.amount ≡ share.old.amount + 1) }
    ensures uncounted { OnErr result (share.new ≡ share.old) }
    ensures parts { share.new.parts ≡ share.old.parts }
    ensures leases { held.new.leases ≡ held.old.leases }
    ensures queue { HasQueued held.old held.new }
    ensures places { held.new.places ≡ held.old.places }
    ensures receipts { held.new.receipts ≡ held.old.receipts }
{
    lawful_is_safe();
    recalls_stay();
    let entered = held.leased.enter(event);
    recalls_are_left(&held.leased.core);
    match entered {
        Ok(number) => {
            held.other_count.add(share, 1);
            Ok(number)
        }
        Err(error) => Err(error),
    }
}

/// The locked value knows all that the sender took, and the sender all that was put. What the sender took begins what
/// was put, and no more entries are the sender's than are no calls.
pub(crate) fn meet_sender<N: Naming>(
    queue: &RecallQueue,
    held: &mut Held<N>,
    sender: &mut Sender<N>,
)
    requires queue { queue.now ≡ N.run.queue }
    ensures known { SenderMayFind N.start sender.old held.new }
    ensures held { held.new ≡ record held.old { known_taken = sender.old.taken } }
    ensures sender { sender.new ≡ with_known held.old.put sender.old }
{
    queue.meet(&mut held.put, &mut sender.pass);
    held.other_count.audit(&mut sender.share);
}

// The law that the recalls which are left in the core are those of the journal without those that left it.
pub(crate) fn recalls_are_left(core: &Core)
    ensures { AreLeftOf core.now.journal core.now.recalls }
{
    let _ = core.pending();
}

// The laws that a journal's recalls are one list, and begin those of each journal that goes on from it.
fn recalls_stay()
    ensures one { AreOneList }
    ensures begin { RecallsBegin }
{
    recalls_are_one_list();
    recalls_begin();
}
