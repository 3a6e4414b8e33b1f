//! A count, and that many values.

ghost use Rattle.std.specs.Prelude.{◌≡◌, ◌≤◌, ◌<◌, ◌^◌, length};
ghost use Rattle.std.specs.List.{All, flat_map};
ghost use Rattle.xdr.specs.Form as forms;
ghost use Rattle.xdr.specs.Reading.{Gives, each_at};
ghost use Rattle.xdr.specs.Writing.{Writes};

use crate::basic::{read_u32, write_u32};
use crate::{Sequence, Wire, WireError};
use smallvec::SmallVec;
use std::alloc::Global;

/// The values that follow their count at the front, and the bytes after them. TooLong if the count is above `limit`,
/// Short if values are missing; both also as the form of the values says. Memory is taken value by value.
#[tactic(auto, unfolding(crate::specs::Reading::many_at))]
pub fn read_many<T: Wire>(
    alloc: Global,
    bytes: &[u8],
    limit: u32,
) -> Result<(Sequence<T>, &[u8]), WireError>
    ensures { Gives (λ x. (x.0, x.1.now)) result ((forms.many limit T.form).at bytes.now) }
{
    let (count, rest) = read_u32(bytes)?;
    if count > limit {
        return Err(WireError::TooLong);
    }
    read_each(alloc, count, rest)
}

// Reads `count` values.
fn read_each<T: Wire>(
    alloc: Global,
    count: u32,
    bytes: &[u8],
) -> Result<(Sequence<T>, &[u8]), WireError>
    ensures { Gives (λ x. (x.0, x.1.now)) result (each_at T.form.at count bytes.now) }
{
    let mut values = Vec::new(alloc);
    let mut rest = bytes;
    for _ in 0..count {
        let (value, beyond) = T::read(alloc, rest)?;
        match values.push(value) {
            Ok(()) => rest = beyond,
            Err(_) => return Err(WireError::Memory),
        }
    }
    Ok((Sequence::new(values), rest))
}

/// As `read_many`, for values of a type that has a default. Up to `FEW` of them take no memory of the allocator.
#[tactic(auto, unfolding(crate::specs::Reading::many_at))]
pub fn read_few<T: Wire + Default, const FEW: usize>(
    alloc: Global,
    bytes: &[u8],
    limit: u32,
) -> Result<(SmallVec<T, FEW>, &[u8]), WireError>
    ensures { Gives (λ x. (x.0.items, x.1.now)) result
        ((forms.many limit T.form).at bytes.now) }
{
    let (count, rest) = read_u32(bytes)?;
    if count > limit {
        return Err(WireError::TooLong);
    }
    read_each_of_few(alloc, count, rest)
}

// Reads `count` values.
fn read_each_of_few<T: Wire + Default, const FEW: usize>(
    alloc: Global,
    count: u32,
    bytes: &[u8],
) -> Result<(SmallVec<T, FEW>, &[u8]), WireError>
    ensures { Gives (λ x. (x.0.items, x.1.now)) result (each_at T.form.at count bytes.now) }
{
    let mut values = SmallVec::new(alloc);
    let mut rest = bytes;
    for _ in 0..count {
        let (value, beyond) = T::read(alloc, rest)?;
        match values.push(value) {
            Ok(()) => rest = beyond,
            Err(_) => return Err(WireError::Memory),
        }
    }
    Ok((values, rest))
}

/// Writes the count and the values at the end, or nothing. TooLong if there are more than `limit`, or one doesn't fit
/// its form.
pub fn write_many<T: Wire>(out: &mut Vec<u8>, values: &[T], limit: u32) -> Result<(), WireError>
    ensures { Writes out.old out.new result
        ((forms.many limit T.form).encoding values.now)
        ((forms.many limit T.form).Fits values.now) }
{
    let Ok(count) = u32::try_from(values.len()) else {
        return Err(WireError::TooLong);
    };
    if count > limit {
        return Err(WireError::TooLong);
    }
    let start = out.len();
    write_u32(out, count)?;
    match write_each(out, values) {
        Ok(()) => Ok(()),
        Err(error) => {
            out.truncate(start);
            Err(error)
        }
    }
}

// Writes the values one after the other.
fn write_each<T: Wire>(out: &mut Vec<u8>, values: &[T]) -> Result<(), WireError>
    ensures { Writes out.old out.new result (flat_map T.form.encoding values.now)
        (All T.form.Fits values.now) }
{
    let start = out.len();
    for value in values {
        if let Err(error) = value.write(out) {
            out.truncate(start);
            return Err(error);
        }
    }
    Ok(())
}
