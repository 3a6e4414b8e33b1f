//! Records of clients, found by id and by client number.

ghost use Rattle.std.specs.Prelude.{◌≡◌, ◌<◌, [], ◌∷◌, ◌++◌, Bool, List, IsOk, IsFalse, OnOk, filter, find, length, map};
ghost use Rattle.std.specs.List.{IsDistinct, list_any};
ghost use Rattle.std.specs.Option.{option_copied};
ghost use Rattle.nfs_rows.specs.NameHash.{hash_of};
ghost use Rattle.nfs_rows.specs.Rows.{AnswersAs, is_numbered, without};
ghost use Rattle.nfs_owners.specs.LiveClients.{IsNextAmong};
ghost use Rattle.nfs_owners.specs.Records.{have_same_client};
ghost use Rattle.nfs_owners.specs.declared.client_record.ClientRecord.{ClientRecord};
ghost use Rattle.nfs_owners.specs.Registry.{after_mark, is_of, is_of_client, takes_number, without_id, without_number};

use crate::{ClientRecord, PathMark};
use indexmap::IndexMap;
use nfs_rows::{IdSeed, Iter, Rows};
use std::alloc::{AllocError, Global};
use std::marker::Model;

/// Clients' records of one kind, in the order in which they were added. No two have one id, nor one client. They are
/// found by both.
#[derive(Drop)]
pub struct Records {
    rows: Rows<ClientRecord>,
    /// The number of the row with a client's record, by the client's number.
    by_client: IndexMap<u32, u64>,
    /// By these the ids are hashed.
    ids: IdSeed,
    /// The number that was given to a row last; 0 before the first.
    newest: u64,
    /// How many additions were promised to take no memory.
    room: u64,
}

impl Model for Records {
    ghost use Rattle.nfs_owners.specs.Records.{AreRows, RoomyRecords, records_in};

    ghost Value = { RoomyRecords };

    ghost view = { λ r. record {
      records = records_in r.rows.rows;
      room = r.room;
      ids = r.ids;
    } };

    ghost invariant = { λ r. AreRows r.ids r.rows r.by_client r.newest r.room };
}

impl Records {
    /// No records, taking no memory.
    pub fn new(alloc: Global, ids: IdSeed) -> Records
        ensures { result.records ≡ [] }
    {
        Records {
            rows: Rows::new(alloc),
            by_client: IndexMap::new(alloc),
            ids,
            newest: 0,
            room: 0,
        }
    }

    /// How many records there are.
    pub fn len(&self) -> usize
        ensures { result ≡ length self.now.records }
    {
        self.rows.len()
    }

    /// The record with this id, if there is one.
    pub fn of_id(&self, id: &[u8]) -> Option<&ClientRecord>
        ensures { option_copied result ≡ find (is_of id.now) self.now.records }
    {
        // A hash costs more than this look.
        if self.rows.is_empty() {
            return None;
        }
        let hash = self.ids.hash(id);
        self.of_hash(hash, id)
    }

    // The record with this id, whose hash is at hand, if there is one.
    fn of_hash(&self, hash: u64, id: &[u8]) -> Option<&ClientRecord>
        requires { hash ≡ hash_of self.now.ids 0 0 id.now }
        ensures { option_copied result ≡ find (is_of id.now) self.now.records }
    {
        match self.rows.find_named(hash, |record| record.is_of(id)) {
            Some((_, record)) => Some(record),
            None => None,
        }
    }

    /// The record of the client with this number, if there is one.
    pub fn of_client(&self, number: u32) -> Option<&ClientRecord>
        ensures found { option_copied result ≡ find (is_of_client number) self.now.records }
        ensures apart { IsDistinct have_same_client self.now.records }
    {
        let row = *self.by_client.get(&number)?;
        self.rows.find(row)
    }

    /// The records in the order in which they were added, with the numbers of their rows.
    pub fn iter(&self) -> Iter<'_, ClientRecord>
        ensures { map (λ item. item.1) result ≡ self.now.records }
    {
        self.rows.iter()
    }

    /// The least client number above this one that a record has which passes the test, if there is one. It looks at
    /// each record once.
    pub fn next_client<F: Fn(&ClientRecord) -> bool>(&self, after: u32, test: F) -> Option<u32>
        requires { F.IsAlwaysCallable test }
        ensures { (p : ClientRecord → Bool) → AnswersAs F.Fn test p
            → IsNextAmong after (filter p self.now.records) result }
    {
        let mut next = None;
        for (_, record) in self.iter() {
            if test(record) {
                next = nearer(next, record, after);
            }
        }
        next
    }

    /// Makes room for one more record.
    pub fn reserve(&mut self) -> Result<(), AllocError>
        ensures records { self.new.records ≡ self.old.records }
        ensures room { OnOk result (0 < self.new.room) }
        ensures ready { 0 < self.old.room → IsOk result }
    {
        if self.room > 0 {
            return Ok(());
        }
        if self.newest == u64::MAX {
            return Err(AllocError);
        }
        self.rows.reserve()?;
        self.by_client.reserve(1)?;
        self.room = 1;
        Ok(())
    }

    /// Adds the record at the end, where there has to be room, and removes the one with the same id.
    pub fn put(&mut self, newcomer: ClientRecord)
        requires room { 0 < self.old.room }
        requires own { IsFalse (list_any
            (takes_number newcomer.id newcomer.state.client.number) self.old.records) }
        ensures { self.new.records ≡ without_id newcomer.id self.old.records ++ newcomer ∷ [] }
    {
        let id = newcomer.id.as_slice();
        let hash = self.ids.hash(id);
        self.remove_hash(hash, id);
        self.push(hash, newcomer);
    }

    // Adds the record at the end, where there has to be room. The hash of its id is at hand.
    fn push(&mut self, hash: u64, newcomer: ClientRecord)
        requires room { 0 < self.old.room }
        requires hash { hash ≡ hash_of self.old.ids 0 0 newcomer.id }
        requires name { IsFalse (list_any (is_of newcomer.id) self.old.records) }
        requires client { IsFalse
            (list_any (is_of_client newcomer.state.client.number) self.old.records) }
        ensures { self.new.records ≡ self.old.records ++ newcomer ∷ [] }
    {
        self.room -= 1;
        self.newest += 1;
        let number = newcomer.state.client.number;
        self.rows.add(self.newest, hash, number, newcomer);
        let _ = self.by_client.insert(number, self.newest);
    }

    /// Removes the record with this id. Where it is that of the client with this number, no hash is needed.
    pub fn remove_id(&mut self, id: &[u8], number: u32)
        ensures records { self.new.records ≡ without_id id.now self.old.records }
        ensures room { self.new.room ≡ self.old.room }
    {
        let _rows = &self.rows;
        match self.of_client(number) {
            Some(record) if record.is_of(id) => self.remove_client(number),
            _ => {
                let hash = self.ids.hash(id);
                self.remove_hash(hash, id);
            }
        }
    }

    // Removes the record with this id, whose hash is at hand.
    fn remove_hash(&mut self, hash: u64, id: &[u8])
        requires { hash ≡ hash_of self.old.ids 0 0 id.now }
        ensures records { self.new.records ≡ without_id id.now self.old.records }
        ensures room { self.new.room ≡ self.old.room }
        ensures ids { self.new.ids ≡ self.old.ids }
    {
        let _rows = &self.rows;
        if let Some(record) = self.of_hash(hash, id) {
            let number = record.state.client.number;
            self.remove_client(number);
        }
    }

    /// Removes the record of the client with this number.
    pub fn remove_client(&mut self, number: u32)
        ensures records { self.new.records ≡ without_number number self.old.records }
        ensures room { self.new.room ≡ self.old.room }
        ensures ids { self.new.ids ≡ self.old.ids }
    {
        if let Some(row) = self.by_client.swap_remove(&number) {
            remove_row(&mut self.rows, row);
        }
    }

    /// Marks the path in the record of the client with this number.
    pub fn mark(&mut self, number: u32, path: PathMark)
        ensures records { self.new.records ≡ map (after_mark number path) self.old.records }
        ensures room { self.new.room ≡ self.old.room }
    {
        if let Some(row) = self.by_client.get(&number) {
            if let Some(record) = self.rows.find_mut(*row) {
                record.state.path = path;
            }
        }
    }
}

// The record's client number instead, if it is above `after` and below the least so far.
fn nearer(least: Option<u32>, candidate: &ClientRecord, after: u32) -> Option<u32>
    ensures { (records : List ClientRecord) → IsNextAmong after records least
        → IsNextAmong after (records ++ candidate.now ∷ []) result }
{
    let number = candidate.state.client.number;
    match least {
        None if after < number => Some(number),
        Some(next) if after < number && number < next => Some(number),
        _ => least,
    }
}

// Removes the row with this number.
fn remove_row(rows: &mut Rows<ClientRecord>, row: u64)
    ensures rows { rows.new.rows ≡ without (is_numbered row) rows.old.rows }
    ensures room { rows.new.room ≡ rows.old.room }
{
    let _record = rows.remove(row);
}
