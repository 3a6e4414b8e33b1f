//! Callbacks to clients: CB_RECALL for delegations and CB_NULL to try paths, each over a connection of its own, with
//! no thread and no lock. A source says what to call, and is told what came of it.
#![tactic(auto)]

mod caller;
mod errand;
mod exchange;
mod fault;
mod flow;
mod laws;
mod line;
mod lines;
mod network;
mod probe;
mod reply;
mod source;
mod tcp;

pub use caller::Caller;
pub use fault::Fault;
pub use flow::{ConnectError, Moved};
pub use laws::{marks_are_earned, nothing_is_lost, nothing_is_overlooked, steps_join};
pub use network::Network;
pub use probe::{MarkError, Probe};
pub use source::CallbackSource;
pub use tcp::TcpNetwork;
