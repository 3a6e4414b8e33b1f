//! Receipts, by which clauses speak of journal entries after the lock was given back.

use nfs_state::SeenCall;
use std::marker::Model;

/// What a caller holds for an entry of the journal that its call made. Whoever wants to read the entry reads it in the
/// journal, at its number.
#[derive(Drop)]
pub struct Receipt {
    /// The place of the seat that the call was made with.
    pub place: u32,
    /// The number of the entry.
    pub number: u32,
    /// The entry, which clauses alone read: the request and its answer.
    pub call: SeenCall,
}

const _: () = prove!(size_of::<Receipt>() == 8);

impl Model for Receipt {
    ghost use Rattle.nfs_shared.specs.Receipt.{ReceiptView};

    ghost Value = { ReceiptView };

    ghost view = { λ r. record { place = r.place; number = r.number; call = r.call.call } };
}
