//! Values in order, whether they stand in one piece or in many.

ghost use Rattle.std.specs.Prelude.{◌≡◌, ◌<◌, get_or, length};

use nfs_core::{Entry, Journal};

/// Values in order, of which each is had by its number.
pub(crate) trait Values<T> {
    ghost use Rattle.std.specs.Prelude.{List};

    /// The values.
    ghost values: { Self → List T };

    /// How many values there are.
    fn count(&self) -> usize
        ensures { result ≡ length (values self.now) };

    /// The value with this number, of those that there are.
    fn value(&self, number: usize) -> &T
        requires { number < length (values self.now) }
        ensures { result.now ≡ get_or (values self.now) number result.now };
}

impl<'a, T> Values<T> for &'a [T] {
    ghost values = { λ s. s.now };

    fn count(&self) -> usize {
        self.len()
    }

    fn value(&self, number: usize) -> &T {
        &self[number]
    }
}

// The entries.
impl Values<Entry> for Journal {
    ghost values = { λ j. j.history.entries };

    fn count(&self) -> usize {
        self.len()
    }

    fn value(&self, number: usize) -> &Entry {
        match self.entry(number) {
            Some(entry) => entry,
            None => unreachable!(),
        }
    }
}
