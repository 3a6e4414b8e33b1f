//! The kinds of entries, with their numbers in a journal's file.

ghost use Rattle.nfs_state.specs.EntryForm as forms;
ghost use Rattle.xdr.specs.Reading.{Answers};

use std::alloc::Global;
use xdr::{Wire, WireError, read_u32, write_u32};

// Hands to a macro the kinds of entries with their numbers. An entry of a kind has what the type of that name has.
macro_rules! each_kind {
    ($then:ident $($given:tt)*) => {
        $then!([Call = 1, Expire = 2, Revoke = 3, Path = 4, Forget = 5] $($given)*)
    };
}

pub(crate) use each_kind;

macro_rules! kind_of_number {
    ([$($Kind:ident = $n:literal),*] $number:expr) => {
        match $number {
            $($n => Some(EntryKind::$Kind),)*
            _ => None,
        }
    };
}

/// The kinds of entries, each with its number in a journal's file.
#[derive(Clone, Copy, PartialEq, Eq)]
pub enum EntryKind {
    Call = 1,
    Expire = 2,
    Revoke = 3,
    Path = 4,
    Forget = 5,
}

impl Wire for EntryKind {
    ghost form = { forms.kind };

    #[tactic(auto, unfolding(crate::specs::EntryForm::kind, xdr::specs::Reading::value_at))]
    fn read(alloc: Global, bytes: &[u8]) -> Result<(EntryKind, &[u8]), WireError>
        ensures { Answers (λ x. (x.0, x.1.now)) result (forms.kind.at bytes.now) }
    {
        let (number, rest) = read_u32(bytes)?;
        match each_kind!(kind_of_number number) {
            Some(kind) => Ok((kind, rest)),
            None => Err(WireError::Short),
        }
    }

    #[tactic(auto, unfolding(crate::specs::EntryForm::kind))]
    fn write(&self, out: &mut Vec<u8>) -> Result<(), WireError> {
        write_u32(out, *self as u32)
    }
}
