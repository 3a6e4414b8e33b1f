//! Sets of attributes, of which those of NFSv4.0 take no memory.

ghost use Rattle.std.specs.Prelude.{◌≡◌, ◌≤◌, length, IfOk, IsOk};
ghost use Rattle.nfs_forms.specs.Bitmap as forms;

use smallvec::SmallVec;
use std::alloc::{AllocError, Global};
use std::marker::Model;
use xdr::{Measure, NO_LIMIT, Wire, WireError, read_few, write_many};

/// A set of attributes (bitmap4): bit b is bit (b mod 32) of word (b / 32), rounded down. Contracts see the list of the
/// words, so bitmaps that differ only in the number of zero words at the end are different values.
#[derive(Drop)]
pub struct Bitmap {
    words: SmallVec<u32, 2>,
}

impl Model for Bitmap {
    ghost use Rattle.std.specs.Prelude.{List, ℕ};

    ghost Value = { List ℕ };

    ghost view = { λ b. b.words.items };
}

impl Bitmap {
    /// A bitmap of these words, taking no memory.
    pub fn new(words: Vec<u32>) -> Bitmap
        ensures { result ≡ words.items }
    {
        Bitmap {
            words: SmallVec::from_vec(words),
        }
    }

    /// A copy of these words. Up to two, enough for every attribute of NFSv4.0, take no memory.
    pub fn copy_of(alloc: Global, words: &[u32]) -> Result<Bitmap, AllocError>
        ensures ok { IfOk result (λ b. b ≡ words.now) }
        ensures few { length words.now ≤ 2 → IsOk result }
    {
        Ok(Bitmap {
            words: SmallVec::from_slice(alloc, words)?,
        })
    }

    /// The words.
    pub fn as_slice(&self) -> &[u32]
        ensures { result.now ≡ self.now }
    {
        self.words.as_slice()
    }
}

impl PartialEq for Bitmap {
    ghost use Rattle.std.specs.Str.{bytes_eq};
    ghost use Rattle.std.specs.Cmp.Rules.{comparing};
    ghost use Rattle.std.proofs.Common.{rules};

    ghost eq = { bytes_eq };

    ghost laws = { Prim.search (comparing, rules) };

    fn eq(&self, other: &Bitmap) -> bool {
        self.as_slice() == other.as_slice()
    }
}

impl Clone for Bitmap {
    ghost is_clone = { λ x y. y ≡ x };

    fn clone(&self) -> Result<Bitmap, AllocError> {
        Bitmap::copy_of(*self.words.allocator(), self.as_slice())
    }
}

impl Wire for Bitmap {
    ghost form = { forms.bitmap };

    fn read(alloc: Global, bytes: &[u8]) -> Result<(Bitmap, &[u8]), WireError> {
        let (words, rest) = read_few(alloc, bytes, NO_LIMIT)?;
        Ok((Bitmap { words }, rest))
    }

    fn write(&self, out: &mut Vec<u8>) -> Result<(), WireError> {
        write_many(out, self.as_slice(), NO_LIMIT)
    }
}

impl Measure for Bitmap {
    #[tactic(auto, using(crate::proofs::Words::words_len), unfolding(xdr::specs::Writing::written_number))]
    fn written_len(&self) -> usize {
        4 + 4 * self.words.len()
    }
}
