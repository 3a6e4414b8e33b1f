//! Verifiers, which tell one start of a client or of the server from another.

ghost use Rattle.nfs_forms.specs.Verifier as forms;
ghost use Rattle.xdr.specs.Reading.{Answers};

use std::alloc::Global;
use xdr::{Measure, Wire, WireError, read_fixed};

/// Eight bytes that distinguish one start of a client, or of the server, from another (verifier4).
#[derive(Clone, Copy, PartialEq, Eq)]
pub struct Verifier(pub [u8; 8]);

impl Wire for Verifier {
    ghost form = { forms.verifier };

    #[tactic(auto, unfolding(crate::specs::Verifier::verifier))]
    fn read(alloc: Global, bytes: &[u8]) -> Result<(Verifier, &[u8]), WireError>
        ensures { Answers (λ x. (x.0, x.1.now)) result (forms.verifier.at bytes.now) }
    {
        let (verifier, rest) = read_fixed::<8>(bytes)?;
        Ok((Verifier(verifier), rest))
    }

    #[tactic(auto, unfolding(crate::specs::Verifier::verifier))]
    fn write(&self, out: &mut Vec<u8>) -> Result<(), WireError> {
        self.0.write(out)
    }
}

impl Measure for Verifier {
    #[tactic(auto, unfolding(crate::specs::Verifier::verifier))]
    fn written_len(&self) -> usize {
        8
    }
}
