//! The table that ties the receipts of seats to the journal. It has one word, the number of the receipts that were
//! given. A view of it has a list of receipts: the writer's has all of them, and that of another token a beginning.
ghost use Rattle.std.specs.Prelude.{◌≡◌, ◌+◌, ◌^◌, ◌<◌, ◌++◌, ◌∷◌, [], length};
ghost use mathlib.Core.List.{IsPrefix};
ghost use Rattle.nfs_shared.specs.Roll.{IsWriter, IsReader, IsOf, list_of, seen_of};

use crate::receipt::Receipt;
use atomic_table::{Join, Play, Seat, Split, Table, TableRule};
use nfs_words::LeaseSeat;
use std::alloc::Global;
use std::collections::LinkedList;
use std::marker::{Brand, PhantomData};

// What a token knows. No value of it is made.
pub struct View {
    // Whether the token is the writer's.
    pub writes: bool,
    pub list: LinkedList<Receipt>,
    // What a note put beside the list, until it is compared.
    pub told: LinkedList<Receipt>,
    // For each receipt that the token's seat was given, in order, how many events of leases the seat had then.
    pub seen: LinkedList<u64>,
}

pub struct OneWriter;

impl TableRule<Receipt, View, ()> for OneWriter {
    ghost use Rattle.std.specs.Prelude.{[]};
    ghost use Rattle.nfs_shared.specs.Roll.{Kept, writer_of};

    ghost holds = { λ key. Kept };

    ghost first = { λ key. writer_of [] };
}

// The writer adds the receipt that it is told.
pub struct Adds;

impl Play<Receipt, View> for Adds {
    ghost use Rattle.nfs_shared.specs.Roll.{Added};

    ghost then = { Added };
}

// The writer compares what a note put beside its list.
pub struct Compares;

impl Play<Receipt, View> for Compares {
    ghost use Rattle.nfs_shared.specs.Roll.{Compared};

    ghost then = { Compared };
}

// A note has a copy of the list, and doesn't write.
pub struct Copied;

impl Split<View> for Copied {
    ghost use Rattle.nfs_shared.specs.Roll.{reader_of};

    ghost left = { λ v. v };

    ghost right = { λ v. reader_of v.list };
}

// A note is put beside the list.
pub struct Beside;

impl Join<View> for Beside {
    ghost use Rattle.std.specs.Prelude.{[]};
    ghost use Rattle.nfs_shared.specs.Roll.{reader_of, beside};

    ghost both = { beside };

    ghost spent = { reader_of [] };
}

// The longer of a reader's list and a note's is the reader's.
pub struct Longer;

impl Join<View> for Longer {
    ghost use Rattle.std.specs.Prelude.{[]};
    ghost use Rattle.nfs_shared.specs.Roll.{reader_of, longer};

    ghost both = { λ v w. record (reader_of (longer v.list w.list)) { seen = v.seen } };

    ghost spent = { reader_of [] };
}

/// Names how many events a seat has.
pub trait Counted {
    ghost use Rattle.std.specs.Prelude.{ℕ};

    ghost count: { ℕ };
}

impl Counted for Brand {
    ghost count = { 0 };
}

// A token has one number more of events.
pub struct Counts<C: Counted> {
    of: PhantomData<C>,
}

impl<C: Counted> Split<View> for Counts<C> {
    ghost use Rattle.std.specs.Prelude.{◌++◌, ◌∷◌, []};
    ghost use Rattle.nfs_shared.specs.Roll.{reader_of};

    ghost left = { λ v. record v { seen = v.seen ++ C.count ∷ [] } };

    ghost right = { λ v. reader_of [] };
}

pub type Roll = Table<Receipt, View, (), OneWriter, Global>;

pub type Token = Seat<Receipt, View>;

/// The token's list begins the writer's.
pub fn meet(roll: &Roll, writer: &mut Token, token: &mut Token)
    requires writer { IsOf roll.now.shared.table_id writer.old × IsWriter writer.old }
    requires token { IsOf roll.now.shared.table_id token.old × IsReader token.old }
    ensures writer { IsOf roll.now.shared.table_id writer.new × (writer.new.me ≡ writer.old.me) }
    ensures token { IsOf roll.now.shared.table_id token.new × (token.new.me ≡ token.old.me) }
    ensures begins { IsPrefix (list_of token.old) (list_of writer.old) }
{
    let note = roll.shared.split_seat::<Copied>(token);
    roll.shared.join_seat::<Beside>(writer, note);
    roll.shared.load::<Compares>(writer, 0);
}

/// The writer's list gains the receipt. `count` is the number of those that it has.
pub fn add(roll: &Roll, writer: &mut Token, count: u64, receipt: &Receipt)
    requires writer { IsOf roll.now.shared.table_id writer.old × IsWriter writer.old }
    requires count { (length (list_of writer.old) ≡ count) × (count < 2 ^ 63) }
    ensures writer { IsOf roll.now.shared.table_id writer.new × IsWriter writer.new }
    ensures list { list_of writer.new ≡ list_of writer.old ++ receipt.now ∷ [] }
{
    roll.shared
        .compare_exchange_with::<Adds>(writer, 0, count, count + 1, receipt);
}

/// The token's list is the writer's, if it was shorter than that.
pub fn tell(roll: &Roll, writer: &mut Token, token: &mut Token)
    requires writer { IsOf roll.now.shared.table_id writer.old × IsWriter writer.old }
    requires token { IsOf roll.now.shared.table_id token.old × IsReader token.old }
    requires longer { length (list_of token.old) < length (list_of writer.old) }
    ensures writer { IsOf roll.now.shared.table_id writer.new × (writer.new.me ≡ writer.old.me) }
    ensures token { IsOf roll.now.shared.table_id token.new × IsReader token.new }
    ensures list { list_of token.new ≡ list_of writer.old }
    ensures seen { seen_of token.new ≡ seen_of token.old }
{
    let note = roll.shared.split_seat::<Copied>(writer);
    roll.shared.join_seat::<Longer>(token, note);
}

/// The token has, behind its other numbers, how many events this seat at the lease words has.
pub fn count_events<C: Counted>(roll: &Roll, token: &mut Token, leases: &LeaseSeat)
    requires counted { C.count ≡ length leases.now.view.own }
    requires token { IsOf roll.now.shared.table_id token.old × IsReader token.old }
    ensures token { IsOf roll.now.shared.table_id token.new × IsReader token.new }
    ensures list { list_of token.new ≡ list_of token.old }
    ensures seen { seen_of token.new ≡ seen_of token.old ++ length leases.now.view.own ∷ [] }
{
    let _leases = leases;
    let _ = roll.shared.split_seat::<Counts<C>>(token);
}
