//! What the one sender asks of the shared state, and does to it. No clause says that the lock guarded the value that a
//! function tells of, but that it may have.
ghost use Rattle.std.specs.Prelude.{◌≡◌, ◌↔◌, IfErr, IfNone, IfOk, IfSome, IsTrue, None, Ok, OnErr, OnOk, Some};
ghost use mathlib.Core.List.{IsPrefix};
ghost use Rattle.nfs_core.specs.Callbacks.{callback_of, has_delegation};
ghost use Rattle.nfs_core.specs.Events.{IsNotEntered, path_of};
ghost use Rattle.nfs_core.specs.Server.{Enters, Server};
ghost use Rattle.nfs_core.specs.declared.event.Event.TheVariants as events;
ghost use Rattle.nfs_owners.specs.LiveClients.{IsNextUnknown};
ghost use Rattle.nfs_owners.specs.Registry.{is_live};
ghost use Rattle.nfs_shared.specs.Held.{HasLooked, HasMarked, HeldView, SenderMayFind};
ghost use Rattle.nfs_shared.specs.Sender.{with_known, with_taken};
ghost use Rattle.nfs_state.specs.declared.entry.Entry.TheVariants as entries;

use super::Shared;
use crate::held::{enter_held, meet_sender};
use crate::hold::Hold;
use crate::naming::Naming;
use crate::sender::Sender;
use nfs_core::{Core, CoreError, Event, Recall};
use nfs_owners::ClientState;
use nfs_state::Path;
use nfs_xdr::{Callback, Stateid};
use std::alloc::AllocError;
use std::marker::Model;
use std::sync::Wait;

impl<N: Naming> Shared<N> {
    /// Takes the lock for the sender: what it took begins what was put, and its entries are among those that are no
    /// calls. It knows then all that was put.
    pub(crate) fn hold_for<'a, 'b, R: Wait>(
        &'a self,
        rt: &'b R,
        sender: &mut Sender<N>,
    ) -> Hold<'a, 'b, N, R>
        ensures known { SenderMayFind N.start sender.old result }
        ensures sender { sender.new ≡ with_known result.put sender.old }
    {
        let mut hold = self.hold(rt);
        meet_sender(&self.queue, &mut *hold.guard, sender);
        hold
    }

    /// Marks whether callbacks reach this client, in one hold of the lock, and returns the number of the entry. It
    /// fails, and enters nothing, if the client isn't live, the journal is full, or memory ran out.
    pub fn mark_path<R: Wait>(
        &self,
        rt: &R,
        sender: &mut Sender<N>,
        client: u32,
        up: bool,
    ) -> Result<u32, CoreError>
        ensures count { OnOk result (HasMarked N.start sender.old sender.new) }
        ensures uncounted { OnErr result (HasLooked N.start sender.old sender.new) }
        ensures marks { IfOk result (λ number. (held : HeldView)
            × SenderMayFind N.start sender.old held
            × ((new : Server) × Enters held.server new (entries.Path (path_of client up)) number)) }
        ensures error { IfErr result (λ e. (held : HeldView) × SenderMayFind N.start sender.old held
            × IsNotEntered held.server (events.Path (path_of client up)) e) }
    {
        let mut hold = self.hold_for(rt, sender);
        enter_held(&mut *hold.guard, sender, Event::Path(Path { client, up }))
    }

    /// Marks whether callbacks reach this client, as `mark_path` does, in the hold of the lock in which it finds the
    /// client live and called back so. Elsewhere it marks nothing, and returns no number.
    pub fn mark_called<R: Wait>(
        &self,
        rt: &R,
        sender: &mut Sender<N>,
        client: u32,
        callback: &Callback,
        up: bool,
    ) -> Result<Option<u32>, CoreError>
        ensures count { IfOk result (λ marked. IfSome marked
            (λ number. HasMarked N.start sender.old sender.new)) }
        ensures uncounted { OnErr result (HasLooked N.start sender.old sender.new) }
        ensures other { result ≡ Ok None → (held : HeldView)
            × SenderMayFind N.start sender.old held
            × (sender.new ≡ with_known held.put sender.old)
            × (callback_of client held.server ≡ Some callback.now → ⊥) }
        ensures marks { IfOk result (λ marked. IfSome marked (λ number. (held : HeldView)
            × SenderMayFind N.start sender.old held
            × (callback_of client held.server ≡ Some callback.now)
            × ((new : Server) × Enters held.server new (entries.Path (path_of client up)) number))) }
        ensures error { IfErr result (λ e. (held : HeldView) × SenderMayFind N.start sender.old held
            × (callback_of client held.server ≡ Some callback.now)
            × IsNotEntered held.server (events.Path (path_of client up)) e) }
    {
        let mut hold = self.hold_for(rt, sender);
        if !is_called_by(hold.guard.core(), client, callback) {
            return Ok(None);
        }
        match enter_held(&mut *hold.guard, sender, Event::Path(Path { client, up })) {
            Ok(number) => Ok(Some(number)),
            Err(error) => Err(error),
        }
    }

    /// Takes the first recall out of the queue, or none, without the lock. It takes none only if all that the sender
    /// knows to be put was taken. It takes no memory.
    pub fn take<R: Wait>(&self, rt: &R, sender: &mut Sender<N>) -> Option<Recall>
        ensures some { IfSome result (λ r. sender.new ≡ with_taken r sender.old) }
        ensures none { IfNone result (sender.new ≡ sender.old) }
        ensures empty { IfNone result (IsPrefix sender.old.known_put sender.old.taken) }
    {
        self.queue.take(rt, &mut sender.pass)
    }

    /// Whether a live client is called back so.
    pub fn is_called_by<R: Wait>(
        &self,
        rt: &R,
        sender: &mut Sender<N>,
        client: u32,
        callback: &Callback,
    ) -> bool
        ensures called { (held : HeldView) × SenderMayFind N.start sender.old held
            × (IsTrue result ↔ (callback_of client held.server ≡ Some callback.now)) }
        ensures sender { HasLooked N.start sender.old sender.new }
    {
        let hold = self.hold_for(rt, sender);
        is_called_by(hold.guard.core(), client, callback)
    }

    /// Whether the client with this number is live.
    pub fn is_live<R: Wait>(&self, rt: &R, sender: &mut Sender<N>, client: u32) -> bool
        ensures live { (held : HeldView) × SenderMayFind N.start sender.old held
            × (result ≡ is_live client held.server.stored.clients) }
        ensures sender { HasLooked N.start sender.old sender.new }
    {
        let hold = self.hold_for(rt, sender);
        hold.guard.core().live(client)
    }

    /// Whether a client has the delegation that the stateid names, no matter its seqid.
    pub fn has_delegation<R: Wait>(&self, rt: &R, sender: &mut Sender<N>, stateid: Stateid) -> bool
        ensures has { (held : HeldView) × SenderMayFind N.start sender.old held
            × (result ≡ has_delegation stateid held.server) }
        ensures sender { HasLooked N.start sender.old sender.new }
    {
        let hold = self.hold_for(rt, sender);
        hold.guard.core().has_delegation(stateid)
    }

    /// A copy of what the record of a live client has of whose path to its callbacks nothing is known: of the client
    /// with the least number above this one, if there is one. It fails only where memory is refused for the copy.
    pub fn probe<R: Wait>(
        &self,
        rt: &R,
        sender: &mut Sender<N>,
        after: u32,
    ) -> Result<Option<ClientState>, AllocError>
        ensures found { IfOk result (λ found. (held : HeldView)
            × SenderMayFind N.start sender.old held
            × IsNextUnknown after held.server.stored.clients found) }
        ensures sender { HasLooked N.start sender.old sender.new }
    {
        let hold = self.hold_for(rt, sender);
        match hold.guard.core().probe(after) {
            Some(client) => Ok(Some(client.clone()?)),
            None => Ok(None),
        }
    }
}

// Whether the live client with this number is called back so.
fn is_called_by(core: &Core, client: u32, callback: &Callback) -> bool
    ensures { IsTrue result ↔ (callback_of client core.now ≡ Some callback.now) }
{
    match core.callback(client) {
        Some(found) => *found == *callback,
        None => false,
    }
}
