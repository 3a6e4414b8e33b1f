//! The register of the receipts that were given.
ghost use Rattle.std.specs.Prelude.{◌≡◌, ◌+◌, ◌<◌, ◌^◌, ◌++◌, ◌∷◌, [], length, vec_len, vec_capacity};
ghost use mathlib.Core.List.{IsPrefix};
ghost use Rattle.nfs_shared.specs.Receipts.{IsAbove};
ghost use Rattle.nfs_shared.specs.Roll.{IsOf, IsReader, IsWriter, list_of, seen_of};
ghost use Rattle.nfs_shared.specs.Seats.{Gives};

use crate::naming::{Naming, ReceiptLedger};
use crate::receipt::Receipt;
use crate::roll::{Roll, Token, add, count_events, meet, tell};
use crate::seat::Seat;
use nfs_state::SeenCall;
use std::marker::Brand;
use std::sync::ledger::{Book, Share};

/// The receipts that were given: whose they are, the roll that ties them to the seats, and how many there are.
#[derive(Drop)]
pub(crate) struct Register<N: Naming> {
    /// For each receipt, in order, the place of its seat.
    pub(crate) places: Vec<u32>,
    pub(crate) roll: Roll,
    pub(crate) writer: Token,
    pub(crate) count: Book<ReceiptLedger<N>>,
    /// What is left of the shares when each seat has its own: nothing. At the end the seats' shares come back to it.
    pub(crate) rest: Share<ReceiptLedger<N>>,
}

/// Gives the seat the receipt for an entry with this number, which is above those of all receipts before.
pub(crate) fn give<N: Naming>(
    register: &mut Register<N>,
    seat: &mut Seat<N>,
    number: u32,
    call: SeenCall,
) -> Receipt
    requires room { vec_len register.old.places < vec_capacity register.old.places }
    requires roll { register.old.roll.shared.table_id ≡ N.run.roll }
    requires writer { IsOf N.run.roll register.old.writer × IsWriter register.old.writer }
    requires count { (length (list_of register.old.writer) ≡ length register.old.places.items)
        × (length register.old.places.items < 2 ^ 63) }
    requires above { IsAbove number (list_of register.old.writer) }
    ensures receipt { result ≡ record { place = seat.old.place; number = number; call = call.call } }
    ensures places { register.new.places.items
        ≡ register.old.places.items ++ result.place ∷ [] }
    ensures roll { register.new.roll.shared.table_id ≡ register.old.roll.shared.table_id }
    ensures writer { IsOf N.run.roll register.new.writer × IsWriter register.new.writer }
    ensures list { list_of register.new.writer ≡ list_of register.old.writer ++ result ∷ [] }
    ensures total { register.new.count.total ≡ register.old.count.total + 1 }
    ensures rest { register.new.rest ≡ register.old.rest }
    ensures given { Gives seat.old result seat.new }
{
    let receipt = Receipt {
        place: seat.place,
        number,
        call,
    };
    let count = register.places.len() as u64;
    count_events::<Brand>(&register.roll, &mut seat.token, &seat.leases);
    sign(
        &register.roll,
        &mut register.writer,
        &mut seat.token,
        count,
        &receipt,
    );
    register.places.push_reserved(seat.place);
    register.count.add(&mut seat.share, 1);
    seat.last = Some(number);
    receipt
}

// The writer's list gains the receipt, and the token's list becomes the writer's. `count` is how many the writer has.
fn sign(roll: &Roll, writer: &mut Token, token: &mut Token, count: u64, receipt: &Receipt)
    requires writer { IsOf roll.now.shared.table_id writer.old × IsWriter writer.old }
    requires token { IsOf roll.now.shared.table_id token.old × IsReader token.old }
    requires count { (length (list_of writer.old) ≡ count) × (count < 2 ^ 63) }
    ensures writer { IsOf roll.now.shared.table_id writer.new × IsWriter writer.new }
    ensures token { IsOf roll.now.shared.table_id token.new × IsReader token.new }
    ensures begins { IsPrefix (list_of token.old) (list_of writer.old) }
    ensures all { list_of writer.new ≡ list_of writer.old ++ receipt.now ∷ [] }
    ensures list { list_of token.new ≡ list_of writer.old ++ receipt.now ∷ [] }
    ensures seen { seen_of token.new ≡ seen_of token.old }
{
    meet(roll, writer, token);
    add(roll, writer, count, receipt);
    tell(roll, writer, token);
}
