//! How many opens or delegations each client has, so that others' are counted without a walk.

ghost use Rattle.std.specs.Prelude.{◌≡◌, ◌⊎◌, ◌+◌, ◌<◌, ◌≤◌, ◌^◌, [], ◌∷◌, IsOk, IsSome, List, OnOk, cond, filter, length, not, true};
ghost use Rattle.indexmap.specs.IndexMap.{get};
ghost use Rattle.nfs_forms.specs.ClientId.{is_same_client};
ghost use Rattle.nfs_forms.specs.declared.client_id.ClientId.{ClientId};
ghost use Rattle.nfs_share.specs.Tally.{IsTally, Mark, count_of, entry_of, is_own, is_same_key, key_of, mark_of, room_of};

use crate::count::Count;
use indexmap::IndexMap;
use nfs_forms::ClientId;
use std::alloc::{AllocError, Global};

/// How many things each client has, and how many of these are marked.
#[derive(Drop)]
pub struct Tally {
    // By epoch and number, for clients that have some.
    of_client: IndexMap<(u32, u32), Count>,
    all: Count,
}

impl Tally {
    /// Nobody has anything. It takes no memory.
    pub fn new(alloc: Global) -> Tally
        ensures { IsTally result [] }
    {
        Tally {
            of_client: IndexMap::new(alloc),
            all: Count::NONE,
        }
    }

    /// What the client has.
    pub fn own(&self, client: ClientId) -> Count
        ensures { (marks : List Mark) → IsTally self.now marks
            → result ≡ count_of (is_own client) marks }
    {
        match self.of_client.get(&(client.epoch, client.number)) {
            Some(own) => *own,
            None => Count::NONE,
        }
    }

    /// What all have.
    pub fn all(&self) -> Count
        ensures { (marks : List Mark) → IsTally self.now marks → result ≡ count_of (λ m. true) marks }
    {
        self.all
    }

    /// What other clients have.
    pub fn others(&self, client: ClientId) -> Count
        ensures { (marks : List Mark) → IsTally self.now marks
            → result ≡ count_of (λ m. not (is_own client m)) marks }
    {
        self.all.without(self.own(client))
    }

    /// Makes room for one more client.
    pub fn reserve(&mut self) -> Result<(), AllocError>
        ensures tally { (marks : List Mark) → IsTally self.old marks → IsTally self.new marks }
        ensures room { OnOk result (0 < room_of self.new) }
        ensures grows { room_of self.old ≤ room_of self.new }
        ensures ready { 0 < room_of self.old → IsOk result }
    {
        self.of_client.reserve(1)
    }

    /// The client has one thing more. There are fewer things than numbers.
    pub fn add(&mut self, client: ClientId, marked: bool)
        requires { 0 < room_of self.old }
        ensures tally { (marks : List Mark) → IsTally self.old marks → length marks + 1 < 2 ^ 64
            → IsTally self.new (mark_of client marked ∷ marks) }
        ensures room { room_of self.old ≤ room_of self.new + 1 }
    {
        let own = self.own(client).plus(marked);
        let _before = self.of_client.insert((client.epoch, client.number), own);
        self.all = self.all.plus(marked);
    }

    /// A thing of the client is marked from now on, or isn't marked any more.
    pub fn mark(&mut self, client: ClientId, was: bool, marked: bool)
        ensures tally { (marks : List Mark) → IsTally self.old (mark_of client was ∷ marks)
            → length marks + 1 < 2 ^ 64 → IsTally self.new (mark_of client marked ∷ marks) }
        ensures room { room_of self.old ≤ room_of self.new }
    {
        let own = self.own(client).less(was).plus(marked);
        self.put(client, own);
        self.all = self.all.less(was).plus(marked);
    }

    /// The client has one thing less.
    pub fn remove(&mut self, client: ClientId, marked: bool)
        ensures tally { (marks : List Mark) → IsTally self.old (mark_of client marked ∷ marks)
            → IsTally self.new marks }
        ensures room { room_of self.old ≤ room_of self.new }
    {
        let own = self.own(client).less(marked);
        self.put(client, own);
        self.all = self.all.less(marked);
    }

    /// The client has nothing.
    pub fn remove_client(&mut self, client: ClientId)
        ensures tally { (marks : List Mark) → IsTally self.old marks
            → IsTally self.new (filter (λ m. not (is_own client m)) marks) }
        ensures room { room_of self.old ≤ room_of self.new }
    {
        let own = self.own(client);
        self.put(client, Count::NONE);
        self.all = self.all.without(own);
    }

    // What a client has that has something is so much from now on.
    fn put(&mut self, client: ClientId, own: Count)
        ensures own { (own.all ≡ 0) ⊎ IsSome (get is_same_key self.old.of_client (key_of client))
            → (other : ClientId) → get is_same_key self.new.of_client (key_of other)
            ≡ cond (is_same_client client other) (entry_of own)
            (get is_same_key self.old.of_client (key_of other)) }
        ensures all { self.new.all ≡ self.old.all }
        ensures room { room_of self.old ≤ room_of self.new }
    {
        let key = (client.epoch, client.number);
        if own.all == 0 {
            let _before = self.of_client.swap_remove(&key);
            return;
        }
        if let Some(place) = self.of_client.get_mut(&key) {
            *place = own;
        }
    }
}
