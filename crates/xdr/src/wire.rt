//! The trait of types that are read and written by an XDR form.

ghost use Rattle.std.specs.Prelude.{◌≡◌, ◌++◌, ℕ, List, length};
ghost use Rattle.xdr.specs.Form as forms;
ghost use Rattle.xdr.specs.Form.{Form, ◌and◌};
ghost use Rattle.xdr.specs.Layout.{NO_LIMIT};
ghost use Rattle.xdr.specs.Reading.{Answers, Gives};
ghost use Rattle.xdr.specs.Writing.{Writes};

use crate::basic::{
    read_fixed, read_flag, read_opaque, read_opaque_bytes, read_u32, read_u64, write_fixed,
    write_flag, write_opaque, write_u32, write_u64,
};
use crate::fields::write_two;
use crate::many::{read_many, write_many};
use crate::{ByteParts, BytesInPlace, Opaque, Sequence, SharedBytes, WireError};
use std::alloc::Global;

/// A type that has a form on the wire, by which it is read and written.
pub trait Wire: Drop {
    ghost form: { Form Self };

    /// The value at the front of the bytes, and the bytes after it. Short if bytes are missing, or if a number is not
    /// one that the form allows; TooLong if a length is above its limit; Memory if memory ran out.
    fn read(alloc: Global, bytes: &[u8]) -> Result<(Self, &[u8]), WireError>
        ensures { Gives (λ x. (x.0, x.1.now)) result (form.at bytes.now) };

    /// Writes the value at the end. TooLong if it doesn't fit its form. After an error the bytes are as before.
    fn write(&self, out: &mut Vec<u8>) -> Result<(), WireError>
        ensures { Writes out.old out.new result (form.encoding self.now) (form.Fits self.now) };
}

impl Wire for () {
    ghost form = { forms.nothing };

    fn read(alloc: Global, bytes: &[u8]) -> Result<((), &[u8]), WireError>
        ensures { Answers (λ x. (x.0, x.1.now)) result (forms.nothing.at bytes.now) }
    {
        Ok(((), bytes))
    }

    fn write(&self, out: &mut Vec<u8>) -> Result<(), WireError> {
        Ok(())
    }
}

impl Wire for u32 {
    ghost form = { forms.u32 };

    fn read(alloc: Global, bytes: &[u8]) -> Result<(u32, &[u8]), WireError>
        ensures { Answers (λ x. (x.0, x.1.now)) result (forms.u32.at bytes.now) }
    {
        read_u32(bytes)
    }

    fn write(&self, out: &mut Vec<u8>) -> Result<(), WireError> {
        write_u32(out, *self)
    }
}

impl Wire for u64 {
    ghost form = { forms.u64 };

    fn read(alloc: Global, bytes: &[u8]) -> Result<(u64, &[u8]), WireError>
        ensures { Answers (λ x. (x.0, x.1.now)) result (forms.u64.at bytes.now) }
    {
        read_u64(bytes)
    }

    fn write(&self, out: &mut Vec<u8>) -> Result<(), WireError> {
        write_u64(out, *self)
    }
}

impl Wire for bool {
    ghost form = { forms.flag };

    fn read(alloc: Global, bytes: &[u8]) -> Result<(bool, &[u8]), WireError>
        ensures { Answers (λ x. (x.0, x.1.now)) result (forms.flag.at bytes.now) }
    {
        read_flag(bytes)
    }

    fn write(&self, out: &mut Vec<u8>) -> Result<(), WireError> {
        write_flag(out, *self)
    }
}

impl<const N: usize> Wire for [u8; N] {
    ghost form = { forms.fixed_opaque N };

    fn read(alloc: Global, bytes: &[u8]) -> Result<([u8; N], &[u8]), WireError> {
        read_fixed::<N>(bytes)
    }

    fn write(&self, out: &mut Vec<u8>) -> Result<(), WireError> {
        write_fixed(out, self)
    }
}

impl<const IN_PLACE: usize> Wire for BytesInPlace<IN_PLACE> {
    ghost form = { forms.opaque NO_LIMIT };

    fn read(alloc: Global, bytes: &[u8]) -> Result<(BytesInPlace<IN_PLACE>, &[u8]), WireError> {
        let (value, rest) = read_opaque(bytes, crate::NO_LIMIT)?;
        Ok((BytesInPlace::copy_of(alloc, value)?, rest))
    }

    fn write(&self, out: &mut Vec<u8>) -> Result<(), WireError> {
        write_opaque(out, self.as_slice(), crate::NO_LIMIT)
    }
}

impl Wire for SharedBytes {
    ghost form = { forms.opaque NO_LIMIT };

    fn read(alloc: Global, bytes: &[u8]) -> Result<(SharedBytes, &[u8]), WireError> {
        let (value, rest) = read_opaque(bytes, crate::NO_LIMIT)?;
        Ok((SharedBytes::copy_of(alloc, value)?, rest))
    }

    fn write(&self, out: &mut Vec<u8>) -> Result<(), WireError> {
        write_opaque(out, self.as_slice(), crate::NO_LIMIT)
    }
}

impl Wire for ByteParts {
    ghost form = { forms.opaque NO_LIMIT };

    fn read(alloc: Global, bytes: &[u8]) -> Result<(ByteParts, &[u8]), WireError> {
        let (value, rest) = read_opaque(bytes, crate::NO_LIMIT)?;
        Ok((ByteParts::copy_of(alloc, value)?, rest))
    }

    fn write(&self, out: &mut Vec<u8>) -> Result<(), WireError> {
        self.write_to(out)
    }
}

impl<const LIMIT: u32> Wire for Opaque<LIMIT> {
    ghost form = { forms.opaque LIMIT };

    fn read(alloc: Global, bytes: &[u8]) -> Result<(Opaque<LIMIT>, &[u8]), WireError> {
        read_opaque_bytes(alloc, bytes)
    }

    fn write(&self, out: &mut Vec<u8>) -> Result<(), WireError> {
        write_opaque(out, self.as_slice(), LIMIT)
    }
}

impl<A: Wire, B: Wire> Wire for (A, B) {
    ghost form = { A.form and B.form };

    fn read(alloc: Global, bytes: &[u8]) -> Result<((A, B), &[u8]), WireError> {
        let (a, rest) = A::read(alloc, bytes)?;
        let (b, rest) = B::read(alloc, rest)?;
        Ok(((a, b), rest))
    }

    fn write(&self, out: &mut Vec<u8>) -> Result<(), WireError> {
        write_two(out, &self.0, &self.1)
    }
}

impl<T: Wire> Wire for Sequence<T> {
    ghost form = { forms.many NO_LIMIT T.form };

    fn read(alloc: Global, bytes: &[u8]) -> Result<(Sequence<T>, &[u8]), WireError> {
        read_many(alloc, bytes, u32::MAX)
    }

    fn write(&self, out: &mut Vec<u8>) -> Result<(), WireError> {
        write_many(out, self.as_slice(), u32::MAX)
    }
}
