//! The queue of orders, which keeps the order of their lines and has a bound.

use crate::{Order, OrderError};
use std::alloc::{AllocError, Global};
use std::collections::VecDeque;

// How many lines wait at most.
const MOST_WAITING: usize = 64;

/// Orders that wait to be done, in the order of their lines. Lines that are no orders wait among them, to be answered
/// in their order; and so do those that found too many waiting, as a number.
#[derive(Drop)]
pub struct OrderQueue {
    lines: VecDeque<WaitingLine>,
    // How many lines come next that found too many waiting.
    refused: u64,
}

// A line, and how many behind it found too many waiting.
#[derive(Drop)]
struct WaitingLine {
    order: Result<Order, OrderError>,
    refused: u64,
}

impl OrderQueue {
    /// Nothing waits. All the memory that it ever takes is made now.
    pub fn new(alloc: Global) -> Result<OrderQueue, AllocError> {
        Ok(OrderQueue {
            lines: VecDeque::with_capacity(alloc, MOST_WAITING)?,
            refused: 0,
        })
    }

    /// Puts what came of the next line to the end, or notes that too many wait.
    pub fn put(&mut self, order: Result<Order, OrderError>) {
        let line = WaitingLine { order, refused: 0 };
        if self.lines.len() < MOST_WAITING && self.lines.push_back(line).is_ok() {
            return;
        }
        match self.lines.back_mut() {
            Some(last) => last.refused = last.refused.saturating_add(1),
            None => self.refused = self.refused.saturating_add(1),
        }
    }

    /// Takes out what came of the first line, if a line waits.
    pub fn take(&mut self) -> Option<Result<Order, OrderError>> {
        if self.refused > 0 {
            self.refused -= 1;
            return Some(Err(OrderError::TooMany));
        }
        let line = self.lines.pop_front()?;
        self.refused = line.refused;
        Some(line.order)
    }

    /// Whether no line waits.
    pub fn is_empty(&self) -> bool {
        self.refused == 0 && self.lines.is_empty()
    }
}
