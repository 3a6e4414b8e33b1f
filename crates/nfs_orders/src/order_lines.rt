//! Cuts the bytes of standard input into lines, each with a bound.

ghost use Rattle.std.specs.Prelude.{◌≤◌};
ghost use Rattle.nfs_orders.specs.declared.order_lines.TheConstants.{MOST_LEN};

use crate::{Order, OrderError};

// How many bytes a line has at most, without its end.
const MOST_LEN: usize = 1_024;

/// The lines of an input that comes byte by byte.
#[derive(Drop)]
pub struct OrderLines {
    bytes: [u8; MOST_LEN],
    len: usize,
    // Whether the line has more bytes, which are lost.
    is_too_long: bool,
    ghost within: { len ≤ MOST_LEN },
}

impl OrderLines {
    /// Nothing came yet.
    pub fn new() -> OrderLines {
        OrderLines {
            bytes: [0; MOST_LEN],
            len: 0,
            is_too_long: false,
        }
    }

    /// Takes the next byte. If it ends a line, the line's order is returned, or why it is none.
    pub fn take(&mut self, byte: u8) -> Option<Result<Order, OrderError>> {
        if byte != b'\n' {
            self.put(byte);
            return None;
        }
        let order = if self.is_too_long {
            Err(OrderError::TooLong)
        } else {
            Order::read(&self.bytes[..self.len])
        };
        self.len = 0;
        self.is_too_long = false;
        Some(order)
    }

    // Puts the byte to the end of the line, if there is room.
    fn put(&mut self, byte: u8) {
        if self.len < MOST_LEN {
            self.bytes[self.len] = byte;
            self.len += 1;
        } else {
            self.is_too_long = true;
        }
    }

    /// Takes the end of the input. A line that it cuts is no order.
    pub fn end(&self) -> Option<OrderError> {
        if self.len > 0 {
            Some(OrderError::Cut)
        } else {
            None
        }
    }
}
