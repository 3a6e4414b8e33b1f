//! The arguments and results of the operations of NFSv4.0, as values and as bytes (RFC 7530, section 16; RFC 7531): a
//! module for each operation, with its `Arguments` and its `Outcome`.
#![tactic(auto)]

pub mod access;
pub mod close;
pub mod commit;
pub mod delegreturn;
pub mod getattr;
pub mod getfh;
mod limits;
pub mod lock;
pub mod lockt;
pub mod locku;
pub mod lookup;
pub mod open;
pub mod open_confirm;
pub mod open_downgrade;
pub mod putfh;
pub mod putrootfh;
pub mod read;
pub mod readdir;
pub mod release_lockowner;
pub mod renew;
pub mod restorefh;
pub mod savefh;
pub mod setattr;
pub mod setclientid;
pub mod setclientid_confirm;
pub mod write;

pub use limits::limit_of_ids;
