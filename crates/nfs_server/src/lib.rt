//! From the bytes of calls to the bytes of their replies: COMPOUND, the service that answers its operations, and the
//! course of one connection.
#![tactic(auto)]

mod answered_call;
mod buffers;
mod clock;
mod compound;
mod connection;
mod course_laws;
mod device;
mod duplex;
mod lent;
mod named_calls;
mod numbers;
mod pending_call;
mod replies;
mod serve_error;
mod service;
mod sides;

pub use buffers::Buffers;
pub use clock::{Clock, Stopped};
pub use compound::{AnsweredCompound, run_compound};
pub use connection::{STREAM_LIMIT, serve_duplex, write_to};
pub use course_laws::{
    bytes_of_a_connection, bytes_of_writes, journal_of_a_connection, questions_are_entries,
    turns_are_of_one_text,
};
pub use device::{Counted, DeviceFailed, Sink, Source};
pub use duplex::Duplex;
pub use lent::Lent;
pub use named_calls::serve_connection;
pub use numbers::limits_of_connections;
pub use serve_error::ServeError;
pub use service::Service;
pub use sides::Sides;
