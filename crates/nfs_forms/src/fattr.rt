//! Values of a file's attributes, as GETATTR, READDIR, SETATTR and OPEN carry them.

ghost use Rattle.nfs_forms.specs.Fattr as forms;

use crate::Bitmap;
use std::alloc::Global;
use xdr::{BytesInPlace, Measure, Wire, WireError, write_two};

/// The values of attributes. Those of type, change and size, with others beside them, take no memory.
pub type Values = BytesInPlace<32>;

/// Attributes of a file (fattr4; RFC 7530, section 5): which ones are given, and their values, each in its own form,
/// one after the other in increasing order of the attributes' numbers.
#[derive(Clone, PartialEq, Drop)]
pub struct Fattr {
    pub mask: Bitmap,
    pub values: Values,
}

impl Wire for Fattr {
    ghost form = { forms.fattr };

    #[tactic(auto, unfolding(crate::specs::Fattr::fattr))]
    fn read(alloc: Global, bytes: &[u8]) -> Result<(Fattr, &[u8]), WireError> {
        let (mask, rest) = Bitmap::read(alloc, bytes)?;
        let (values, rest) = Values::read(alloc, rest)?;
        Ok((Fattr { mask, values }, rest))
    }

    #[tactic(auto, unfolding(crate::specs::Fattr::fattr))]
    fn write(&self, out: &mut Vec<u8>) -> Result<(), WireError> {
        write_two(out, &self.mask, &self.values)
    }
}

impl Measure for Fattr {
    #[tactic(auto, unfolding(crate::specs::Fattr::fattr))]
    fn written_len(&self) -> usize {
        self.mask.written_len() + self.values.written_len()
    }
}
