//! Who holds state: the clients' records with the rules of SETCLIENTID and its confirmation, the owners with the
//! numbers of their last requests, and the numbers of states.
#![tactic(auto)]

mod client_callback;
mod client_laws;
mod client_record;
mod client_ref;
mod clients;
mod closers;
mod copy_of_bytes;
mod kept;
mod limits;
mod live_change;
mod numbers;
mod owner;
mod owner_laws;
mod owner_ref;
mod owner_rows;
mod owners;
mod owners_error;
mod slots;
mod state_owner;

pub use client_callback::{ADDRESS_LIMIT, ClientCallback};
pub use client_laws::{
    marks_keep_clients, no_number_is_left, numbers_come_once, one_gives_way, others_stay,
    slots_are_apart, updates_stay,
};
pub use client_record::{ClientRecord, ClientState, PathMark};
pub use client_ref::ClientRef;
pub use clients::{ClientChange, Clients};
pub use kept::{KeptCall, KeptSummary, Verdict};
pub use limits::limits_of_owners;
pub use live_change::LiveChange;
pub use numbers::{Numbers, numbers_rise};
pub use owner::{OWNER_LIMIT, Owner, OwnerStanding, OwnerState};
pub use owner_laws::{client_takes_its_owners, kinds_are_apart, other_owners_stay};
pub use owner_ref::OwnerRef;
pub use owners::Owners;
pub use owners_error::OwnersError;
pub use slots::{GENERATIONS, SLOTS, generation_of, slot_of};
pub use state_owner::{OwnerKind, StateOwner};
