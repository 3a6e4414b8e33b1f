//! The orders by which a test has a server's time and events in its hand: how a line is read, how orders wait until
//! they are done, and how each is answered by a line.
#![tactic(auto)]

mod answer;
mod order;
mod order_error;
mod order_lines;
mod order_queue;
#[cfg(test)]
mod tests;
mod word;

pub use answer::{Answer, SweptCounts};
pub use order::{ClientPath, Order};
pub use order_error::OrderError;
pub use order_lines::OrderLines;
pub use order_queue::OrderQueue;
