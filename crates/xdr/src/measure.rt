//! The trait of values that know their encoded length, so that a reply's size is checked beforehand.

ghost use Rattle.std.specs.Prelude.{◌≡◌, ◌≤◌, ◌^◌, length};
ghost use Rattle.xdr.specs.Form.{Form};

use crate::basic::padding_of;
use crate::{ByteParts, BytesInPlace, Opaque, SharedBytes, Wire};

/// A type whose values know how many bytes they take when written.
pub trait Measure: Wire {
    /// How many bytes the value takes when it is written.
    fn written_len(&self) -> usize
        requires { length (Self.form.encoding self.now) ≤ 2 ^ 32 }
        ensures { result ≡ length (Self.form.encoding self.now) };
}

impl Measure for () {
    fn written_len(&self) -> usize {
        0
    }
}

impl Measure for u32 {
    #[tactic(auto, unfolding(crate::specs::Writing::written_number))]
    fn written_len(&self) -> usize {
        4
    }
}

impl Measure for u64 {
    #[tactic(auto, unfolding(crate::specs::Writing::written_number))]
    fn written_len(&self) -> usize {
        8
    }
}

impl<const IN_PLACE: usize> Measure for BytesInPlace<IN_PLACE> {
    #[tactic(auto, unfolding(crate::specs::Writing::written_opaque, crate::specs::Writing::written_number))]
    fn written_len(&self) -> usize {
        let len = self.as_slice().len();
        4 + len + padding_of(len)
    }
}

impl Measure for SharedBytes {
    #[tactic(auto, unfolding(crate::specs::Writing::written_opaque, crate::specs::Writing::written_number))]
    fn written_len(&self) -> usize {
        let len = self.as_slice().len();
        4 + len + padding_of(len)
    }
}

impl Measure for ByteParts {
    #[tactic(auto, unfolding(crate::specs::Writing::written_opaque, crate::specs::Writing::written_number))]
    fn written_len(&self) -> usize {
        let len = self.len();
        4 + len + padding_of(len)
    }
}

impl<const LIMIT: u32> Measure for Opaque<LIMIT> {
    #[tactic(auto, unfolding(crate::specs::Writing::written_opaque, crate::specs::Writing::written_number))]
    fn written_len(&self) -> usize {
        let len = self.as_slice().len();
        4 + len + padding_of(len)
    }
}
