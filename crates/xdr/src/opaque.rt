//! Opaque data with a limit on its length.

ghost use Rattle.std.specs.Prelude.{◌≡◌, ◌==◌, ◌≤◌, ◌<◌, ◌⊎◌, ◌↔◌, Err, IfOk, IsOk, length};

use crate::WireError;
use std::alloc::{AllocError, Global};
use std::marker::Model;

/// Owned bytes of which there are at most `LIMIT` (opaque<LIMIT>). Contracts see the list of them.
#[derive(Drop)]
pub struct Opaque<const LIMIT: u32> {
    items: Vec<u8>,
}

impl<const LIMIT: u32> Model for Opaque<LIMIT> {
    ghost use Rattle.std.specs.Prelude.{List, ℕ, ◌≤◌, length};

    ghost Value = { List ℕ };

    ghost view = { λ o. o.items.items };

    ghost invariant = { λ o. length o.items.items ≤ LIMIT };
}

impl<const LIMIT: u32> Opaque<LIMIT> {
    /// A copy of these bytes. TooLong if there are more than `LIMIT`.
    pub fn copy_of(alloc: Global, items: &[u8]) -> Result<Opaque<LIMIT>, WireError>
        ensures ok { IfOk result (λ o. o ≡ items.now) }
        ensures error { (result ≡ Err WireError.TooLong) ⊎ (result ≡ Err WireError.Memory)
            ⊎ IsOk result }
        ensures too_long { result ≡ Err WireError.TooLong ↔ LIMIT < length items.now }
    {
        if items.len() > LIMIT as usize {
            return Err(WireError::TooLong);
        }
        Ok(Opaque {
            items: Vec::from_slice(alloc, items)?,
        })
    }

    /// The bytes.
    pub fn as_slice(&self) -> &[u8]
        ensures value { result.now ≡ self.now }
        ensures limit { length result.now ≤ LIMIT }
    {
        self.items.as_slice()
    }
}

impl<const LIMIT: u32> PartialEq for Opaque<LIMIT> {
    ghost use Rattle.std.specs.Str.{bytes_eq};
    ghost use Rattle.std.specs.Cmp.Rules.{comparing};
    ghost use Rattle.std.proofs.Common.{rules};

    ghost eq = { bytes_eq };

    ghost laws = { Prim.search (comparing, rules) };

    fn eq(&self, other: &Opaque<LIMIT>) -> bool {
        self.as_slice() == other.as_slice()
    }
}

impl<const LIMIT: u32> Clone for Opaque<LIMIT> {
    ghost is_clone = { λ x y. y ≡ x };

    fn clone(&self) -> Result<Opaque<LIMIT>, AllocError> {
        Ok(Opaque {
            items: self.items.clone()?,
        })
    }
}
