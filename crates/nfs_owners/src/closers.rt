//! An index from closed states to their owners, by which a CLOSE that comes again finds its stored reply.

ghost use Rattle.std.specs.Prelude.{◌≡◌, ℕ, ◌<◌, ◌≤◌, None, OnOk, Option, false, nat_eq, true};
ghost use Rattle.indexmap.specs.IndexMap.{get, spare};
ghost use Rattle.nfs_owners.specs.Closers.{AreClosers, IsOpenStill, capacity_of, nothing, with_at};

use indexmap::IndexMap;
use std::alloc::{AllocError, Global};

// In which row the owner is whose kept request closed a state.
#[derive(Drop)]
pub(crate) struct Closers {
    // The row's number at that of the state.
    pub index: IndexMap<u32, u64>,
    // The index may lack some: two rows had closed one state, or memory was refused. So each row has to be looked at.
    pub partial: bool,
}

impl Closers {
    // An index in which no state was closed.
    pub fn new(alloc: Global) -> Closers
        ensures { AreClosers result nothing }
    {
        Closers {
            index: IndexMap::new(alloc),
            partial: false,
        }
    }

    // The number of the row whose owner closed the state with this number, unless the index is partial.
    pub fn find(&self, number: u32) -> Option<u64>
        ensures { result ≡ get nat_eq self.now.index number }
    {
        self.index.get(&number).copied()
    }

    // Forgets the state that this row's owner closed, if it closed one.
    pub fn forget(&mut self, closed: Option<u32>)
        ensures { (f : ℕ → Option ℕ) (row : ℕ) → f row ≡ closed
            → AreClosers self.old f → AreClosers self.new (with_at row None f) }
    {
        if let Some(number) = closed {
            self.index.swap_remove(&number);
        }
    }

    // Notes the state that this row's owner closed, if it closed one. Where there is room, it takes no memory.
    pub fn note(&mut self, closed: Option<u32>, row: u64)
        ensures closers { (f : ℕ → Option ℕ) → f row ≡ None
            → AreClosers self.old f → AreClosers self.new (with_at row closed f) }
        ensures whole { self.old.partial ≡ false → 0 < spare self.old.index
            → IsOpenStill closed self.old → self.new.partial ≡ false }
    {
        let Some(number) = closed else {
            return;
        };
        if let Ok(None) = self.index.insert(number, row) {
            return;
        }
        self.partial = true;
    }

    // Makes room for so many states.
    pub fn reserve(&mut self, states: usize) -> Result<(), AllocError>
        ensures closers { (f : ℕ → Option ℕ) → AreClosers self.old f → AreClosers self.new f }
        ensures room { OnOk result (states ≤ capacity_of self.new) }
    {
        let count = self.index.len();
        self.index.reserve(states.saturating_sub(count))
    }

    // The index begins anew where no rows are left.
    pub fn settle(&mut self, is_empty: bool)
        ensures closers { (f : ℕ → Option ℕ) → (is_empty ≡ true → f ≡ nothing)
            → AreClosers self.old f → AreClosers self.new f }
        ensures anew { is_empty ≡ true → self.new.partial ≡ false }
    {
        if is_empty && self.partial {
            self.index.clear();
            self.partial = false;
        }
    }
}
