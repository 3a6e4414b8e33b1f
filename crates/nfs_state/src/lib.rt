//! What the server stores, and the journal of its changes.
#![tactic(auto)]

mod change;
mod committing;
mod effect;
mod entry;
mod entry_form;
mod entry_kind;
mod file_change;
mod journal;
mod lease;
mod limits;
mod memory_count;
mod no_random_seed;
mod owner_change;
mod owner_update;
mod pages;
mod piece_list;
mod request;
mod seeds;
mod seen_call;
mod shortage;
mod store;
mod stored_file;
mod stored_files;
mod tables;

pub use change::Change;
pub use committing::commit_entry;
pub use effect::Effect;
pub use entry::{Call, Entry, Expire, Forget, JOURNAL_LIMIT, Path, Revoke, copy_of_answer};
pub use entry_kind::EntryKind;
pub use journal::{Journal, LEASE_MAX, LEASE_MIN};
pub use lease::is_over;
pub use limits::{STATE_LIMIT, limits_of_the_state};
pub use nfs_forms::Moment;
pub use no_random_seed::NoRandomSeed;
pub use owner_change::OwnerChange;
pub use piece_list::PIECE_LEN;
pub use request::Request;
pub use seeds::Seeds;
pub use seen_call::SeenCall;
pub use shortage::Shortage;
pub use store::Store;
pub use stored_file::StoredFile;
pub use stored_files::StoredFiles;
pub use tables::Tables;
