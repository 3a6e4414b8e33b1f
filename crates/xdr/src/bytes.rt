//! Opaque data of which a few bytes take no memory.

ghost use Rattle.std.specs.Prelude.{◌≡◌, ◌==◌, ◌++◌, [], IfOk, OnErr, OnOk};
ghost use Rattle.xdr.specs.Writing.{written_u32, written_u64};

use byteorder::{BigEndian, ByteOrder};
use smallvec::SmallVec;
use std::alloc::{AllocError, Global};
use std::marker::Model;

/// The greatest length of bytes that can be written: it has to fit in four bytes.
pub const NO_LIMIT: u32 = u32::MAX;

/// Owned bytes (opaque<>), which can be written if there are at most `NO_LIMIT` of them. Contracts see the list of
/// them. Up to `IN_PLACE` that are copied or added take no memory of the allocator.
#[derive(Drop)]
pub struct BytesInPlace<const IN_PLACE: usize> {
    items: SmallVec<u8, IN_PLACE>,
}

/// Bytes of which 16 take no memory, which is enough for most names.
pub type Bytes = BytesInPlace<16>;

impl<const IN_PLACE: usize> Model for BytesInPlace<IN_PLACE> {
    ghost use Rattle.std.specs.Prelude.{List, ℕ};

    ghost Value = { List ℕ };

    ghost view = { λ b. b.items.items };
}

impl<const IN_PLACE: usize> BytesInPlace<IN_PLACE> {
    /// A value that owns these bytes, taking no memory.
    pub fn new(items: Vec<u8>) -> BytesInPlace<IN_PLACE>
        ensures { result ≡ items.items }
    {
        BytesInPlace {
            items: SmallVec::from_vec(items),
        }
    }

    /// No bytes, taking no memory.
    pub fn empty(alloc: Global) -> BytesInPlace<IN_PLACE>
        ensures { result ≡ [] }
    {
        BytesInPlace {
            items: SmallVec::new(alloc),
        }
    }

    /// A copy of these bytes.
    pub fn copy_of(alloc: Global, items: &[u8]) -> Result<BytesInPlace<IN_PLACE>, AllocError>
        ensures { IfOk result (λ b. b ≡ items.now) }
    {
        Ok(BytesInPlace {
            items: SmallVec::from_slice(alloc, items)?,
        })
    }

    /// The bytes.
    pub fn as_slice(&self) -> &[u8]
        ensures { result.now ≡ self.now }
    {
        self.items.as_slice()
    }

    /// Adds these bytes at the end. What fails changes nothing.
    pub fn add(&mut self, bytes: &[u8]) -> Result<(), AllocError>
        ensures ok { OnOk result (self.new ≡ self.old ++ bytes.now) }
        ensures err { OnErr result (self.new ≡ self.old) }
    {
        self.items.extend_from_slice(bytes)
    }

    /// Adds the number at the end, in four bytes. What fails changes nothing.
    #[tactic(auto, unfolding(crate::specs::Writing::written_number))]
    pub fn add_u32(&mut self, n: u32) -> Result<(), AllocError>
        ensures ok { OnOk result (self.new ≡ self.old ++ written_u32 n) }
        ensures err { OnErr result (self.new ≡ self.old) }
    {
        let mut bytes = [0; 4];
        BigEndian::write_u32(&mut bytes, n);
        self.add(&bytes)
    }

    /// Adds the number at the end, in eight bytes. What fails changes nothing.
    #[tactic(auto, unfolding(crate::specs::Writing::written_number))]
    pub fn add_u64(&mut self, n: u64) -> Result<(), AllocError>
        ensures ok { OnOk result (self.new ≡ self.old ++ written_u64 n) }
        ensures err { OnErr result (self.new ≡ self.old) }
    {
        let mut bytes = [0; 8];
        BigEndian::write_u64(&mut bytes, n);
        self.add(&bytes)
    }
}

impl<const IN_PLACE: usize> PartialEq for BytesInPlace<IN_PLACE> {
    ghost use Rattle.std.specs.Str.{bytes_eq};
    ghost use Rattle.std.specs.Cmp.Rules.{comparing};
    ghost use Rattle.std.proofs.Common.{rules};

    ghost eq = { bytes_eq };

    ghost laws = { Prim.search (comparing, rules) };

    fn eq(&self, other: &BytesInPlace<IN_PLACE>) -> bool {
        self.as_slice() == other.as_slice()
    }
}

impl<const IN_PLACE: usize> Clone for BytesInPlace<IN_PLACE> {
    ghost is_clone = { λ x y. y ≡ x };

    fn clone(&self) -> Result<BytesInPlace<IN_PLACE>, AllocError> {
        BytesInPlace::copy_of(*self.items.allocator(), self.as_slice())
    }
}
