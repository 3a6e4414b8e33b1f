//! The words of an order, so that a line is read by one match.

/// A word of an order.
#[derive(Clone, Copy)]
pub(crate) enum Word {
    Advance,
    Sweep,
    Moment,
    Mark,
    Wait,
    Entries,
    Journal,
    End,
    Up,
    Down,
    Number(u64),
    Other,
}

impl Word {
    /// The word of this text.
    pub(crate) fn of(text: &[u8]) -> Word {
        match text {
            b"advance" => Word::Advance,
            b"sweep" => Word::Sweep,
            b"moment" => Word::Moment,
            b"mark" => Word::Mark,
            b"wait" => Word::Wait,
            b"entries" => Word::Entries,
            b"journal" => Word::Journal,
            b"end" => Word::End,
            b"up" => Word::Up,
            b"down" => Word::Down,
            _ => Word::of_digits(text),
        }
    }

    // The number that these digits give, or the greatest that there is if theirs is above it.
    fn of_digits(text: &[u8]) -> Word {
        let mut number = 0u64;
        for byte in text {
            let digit = byte.wrapping_sub(b'0');
            if digit > 9 {
                return Word::Other;
            }
            number = number.saturating_mul(10).saturating_add(u64::from(digit));
        }
        Word::Number(number)
    }
}
