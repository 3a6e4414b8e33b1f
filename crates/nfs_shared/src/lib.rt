//! The state that threads share: a core and its lease table under one lock, with receipts for the entries that calls
//! made. Beside the lock are the queue by which recalls reach the sender, and the lease words.
#![tactic(auto)]

mod held;
mod hold;
mod limits;
mod moving;
mod named_calls;
mod naming;
mod opened;
mod recall_queue;
mod receipt;
mod register;
mod roll;
mod seat;
mod sender;
mod shared;
mod sweeper;

pub use held::{Held, call_held, enter_held, enter_ordered, sweep_held};
pub use hold::Hold;
pub use limits::limit_of_queue;
pub use naming::Naming;
pub use opened::Opened;
pub use recall_queue::{PutPass, RecallQueue, TakePass};
pub use receipt::Receipt;
pub use seat::Seat;
pub use sender::Sender;
pub use shared::{Shared, SharedParts};
pub use sweeper::Sweeper;
