//! A linked list: values, each behind a TRUE, and a FALSE behind the last.

ghost use Rattle.std.specs.Prelude.{◌≡◌, ◌≤◌, ◌^◌, length};
ghost use Rattle.std.specs.List.{All, flat_map};
ghost use Rattle.xdr.specs.Form as forms;
ghost use Rattle.xdr.specs.Reading.{Gives, link_at};
ghost use Rattle.xdr.specs.Writing.{Writes, written_link};

use crate::basic::{read_flag, write_flag};
use crate::fields::write_two;
use crate::{Measure, Sequence, Wire, WireError};
use std::alloc::Global;

/// The values of the linked list at the front, and the bytes after it. Short if a flag or a value is missing; TooLong
/// as the form of the values says. Memory is taken value by value.
#[tactic(auto, unfolding(crate::specs::Reading::chain_at))]
pub fn read_chain<T: Wire>(alloc: Global, bytes: &[u8]) -> Result<(Sequence<T>, &[u8]), WireError>
    ensures { Gives (λ x. (x.0, x.1.now)) result ((forms.chain T.form).at bytes.now) }
{
    let mut values = Vec::new(alloc);
    let mut rest = bytes;
    for _ in 0..bytes.len() {
        let (link, beyond) = read_link(alloc, rest)?;
        let Some(value) = link else {
            return Ok((Sequence::new(values), beyond));
        };
        match values.push(value) {
            Ok(()) => rest = beyond,
            Err(_) => return Err(WireError::Memory),
        }
    }
    Err(WireError::Short)
}

// The value behind a TRUE at the front, or None behind a FALSE, and the bytes after it.
#[tactic(auto, unfolding(crate::specs::Reading::link_at))]
fn read_link<T: Wire>(alloc: Global, bytes: &[u8]) -> Result<(Option<T>, &[u8]), WireError>
    ensures { Gives (λ x. (x.0, x.1.now)) result (link_at T.form.at bytes.now) }
{
    let (more, rest) = read_flag(bytes)?;
    if !more {
        return Ok((None, rest));
    }
    let (value, rest) = T::read(alloc, rest)?;
    Ok((Some(value), rest))
}

/// Writes the values as a linked list at the end, or nothing. TooLong if one doesn't fit its form.
pub fn write_chain<T: Wire>(out: &mut Vec<u8>, values: &[T]) -> Result<(), WireError>
    ensures { Writes out.old out.new result
        ((forms.chain T.form).encoding values.now)
        ((forms.chain T.form).Fits values.now) }
{
    let start = out.len();
    write_links(out, values)?;
    match write_flag(out, false) {
        Ok(()) => Ok(()),
        Err(error) => {
            out.truncate(start);
            Err(error)
        }
    }
}

// Writes the values, each behind a TRUE.
fn write_links<T: Wire>(out: &mut Vec<u8>, values: &[T]) -> Result<(), WireError>
    ensures { Writes out.old out.new result (flat_map (written_link T.form.encoding) values.now)
        (All T.form.Fits values.now) }
{
    let start = out.len();
    for value in values {
        if let Err(error) = write_link(out, value) {
            out.truncate(start);
            return Err(error);
        }
    }
    Ok(())
}

// Writes the value behind a TRUE.
fn write_link<T: Wire>(out: &mut Vec<u8>, value: &T) -> Result<(), WireError>
    ensures { Writes out.old out.new result (written_link T.form.encoding value.now)
        (T.form.Fits value.now) }
{
    write_two(out, &true, value)
}

/// How many bytes the linked list of the values takes when it is written.
#[tactic(auto, using(crate::proofs::MeasuringChains::chain_length, crate::proofs::MeasuringChains::link_within))]
pub fn chain_len<T: Measure>(values: &[T]) -> usize
    requires { length ((forms.chain T.form).encoding values.now) ≤ 2 ^ 32 }
    ensures { result ≡ length ((forms.chain T.form).encoding values.now) }
{
    let mut len = 4;
    for value in values {
        len += link_len(value);
    }
    len
}

// How many bytes the value takes behind a TRUE.
#[tactic(auto, using(crate::proofs::MeasuringChains::link_length))]
fn link_len<T: Measure>(value: &T) -> usize
    requires { length (written_link T.form.encoding value.now) ≤ 2 ^ 32 }
    ensures { result ≡ length (written_link T.form.encoding value.now) }
{
    4 + value.written_len()
}
