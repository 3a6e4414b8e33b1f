//! Counts of things, and of those among them that are marked.

ghost use Rattle.std.specs.Prelude.{◌≡◌, ◌+◌, ◌-◌, ◌<◌, ◌^◌, if◌then◌else◌, suc};

/// How many things there are, and how many of them are marked.
#[derive(Clone, Copy, Debug)]
pub struct Count {
    pub all: usize,
    pub marked: usize,
}

impl Count {
    /// The count of nothing.
    pub const NONE: Count = Count { all: 0, marked: 0 };

    /// The count with one thing more. There are fewer things than numbers.
    pub fn plus(self, marked: bool) -> Count
        ensures { self.all + 1 < 2 ^ 64 → self.marked + 1 < 2 ^ 64 → result ≡ record {
          all = suc self.all;
          marked = if marked then suc self.marked else self.marked;
        } }
    {
        Count {
            all: raised(self.all, true),
            marked: raised(self.marked, marked),
        }
    }

    /// The count with one thing less.
    pub fn less(self, marked: bool) -> Count
        ensures { result ≡ record {
          all = self.all - 1;
          marked = if marked then self.marked - 1 else self.marked;
        } }
    {
        Count {
            all: lowered(self.all, true),
            marked: lowered(self.marked, marked),
        }
    }

    /// The count of the things that aren't among the others.
    pub fn without(self, others: Count) -> Count
        ensures { result ≡ record {
          all = self.all - others.all;
          marked = self.marked - others.marked;
        } }
    {
        Count {
            all: self.all.saturating_sub(others.all),
            marked: self.marked.saturating_sub(others.marked),
        }
    }
}

/// The count with one more, if that is counted. There are fewer than numbers.
pub fn raised(count: usize, counted: bool) -> usize
    ensures { count + 1 < 2 ^ 64 → result ≡ (if counted then suc count else count) }
{
    if counted && count < usize::MAX {
        count + 1
    } else {
        count
    }
}

/// The count with one less, if that was counted.
pub fn lowered(count: usize, counted: bool) -> usize
    ensures { result ≡ (if counted then count - 1 else count) }
{
    if counted {
        count.saturating_sub(1)
    } else {
        count
    }
}
