//! The threads of a run. A worker serves connections at a seat of the state that all share; as many work at once as
//! there are seats. The links of a TCP listener, the door by which connections come in one after the other, and the
//! threads that sweep, or do orders, and call clients back beside the workers.
#![tactic(auto)]

mod accepting;
mod bell;
mod calling;
mod calling_laws;
mod connection_end;
mod desk;
mod door;
mod input;
mod links;
mod listening;
mod lists;
mod obeying;
mod order_clock;
mod orders;
mod path_sight;
mod peer;
mod receipt_laws;
mod renewal_laws;
mod retry;
mod run_end;
mod serving;
mod shift;
mod socket;
mod sweeping;
mod tcp_links;
mod time_source;
mod uptime;
mod watcher;
mod worker;
mod worker_end;
mod worker_laws;
mod worker_thread;

pub use accepting::accept_for;
pub use calling_laws::{marks_are_of_calls, recalls_are_followed};
pub use connection_end::ConnectionEnd;
pub use desk::Desk;
pub use door::Door;
pub use input::close_at_end;
pub use links::Links;
pub use listening::{serve_on, serve_through};
pub use order_clock::OrderClock;
pub use orders::Orders;
pub use peer::Peer;
pub use receipt_laws::{receipts_are_questions, receipts_by_connection};
pub use renewal_laws::{renewals_are_events, renewals_are_of_clients};
pub use retry::{NoRetry, Retry};
pub use run_end::RunEnd;
pub use serving::serve_all;
pub use shift::Shift;
pub use socket::Socket;
pub use tcp_links::TcpLinks;
pub use time_source::TimeSource;
pub use uptime::Uptime;
pub use watcher::Watcher;
pub use worker_end::WorkerEnd;
pub use worker_laws::workers_keep_receipts;
