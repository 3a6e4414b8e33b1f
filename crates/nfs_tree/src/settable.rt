//! What a SETATTR sets: a file's size, and the time of its last change if that is the server's time.

ghost use Rattle.std.specs.Prelude.{◌≡◌, ◌==◌, drop};
ghost use Rattle.std.specs.List.{list_all};
ghost use Rattle.nfs_tree.specs.Setting.{are_among, client_time_at, mask_set, settable_of, size_at, size_set, time_at};
ghost use Rattle.xdr.specs.Reading.{Answers};

use crate::attribute::{Attribute, Words};
use nfs_xdr::{Bitmap, Refusal};
use std::alloc::Global;
use xdr::{WireError, read_u32, read_u64};

/// The bits in the second word of a bitmap that a SETATTR asks for in vain: those of mode, owner and owner_group.
const FIXED: u32 = 0x0000_0032;

/// The bits of all attributes that could be set, somewhere or here.
const WRITABLE: Words = Words {
    first: 0x0000_0010,
    second: 0x0040_0032,
};

/// The attributes that a SETATTR sets (RFC 7530, section 16.32).
#[derive(Clone, Copy, PartialEq, Eq)]
pub struct Settable {
    /// The file's size.
    pub size: bool,
    /// The time of its last change, which is the server's own.
    pub time: bool,
}

/// How a time is set (settime4).
#[derive(Clone, Copy, PartialEq, Eq)]
pub enum SetTime {
    /// To the server's time.
    Server,
    /// To the time that the client says.
    Client,
}

impl Settable {
    /// What a SETATTR of these attributes sets. AttrNotSupp if one isn't supported, then Inval if one can only be read,
    /// then Rofs if one stays as it is.
    pub fn of(mask: &[u32]) -> Result<Settable, Refusal>
        ensures { result ≡ settable_of mask.now }
    {
        let asked = Words::of(mask);
        if !are_among(asked, Words::supported()) || !is_over(mask) {
            return Err(Refusal::AttrNotSupp);
        }
        if !are_among(asked, WRITABLE) {
            return Err(Refusal::Inval);
        }
        if asked.second & FIXED != 0 {
            return Err(Refusal::Rofs);
        }
        Ok(Settable {
            size: asked.first & Attribute::Size.bit() != 0,
            time: asked.second & Attribute::TimeModifySet.bit() != 0,
        })
    }

    /// The size that these values set, if one is set. BadXdr if they aren't the values of what is set, with nothing
    /// behind them; Rofs if they have a time of the client's.
    pub fn size_of(self, values: &[u8]) -> Result<Option<u64>, Refusal>
        ensures { result ≡ size_set self values.now }
    {
        let Ok((size, rest)) = read_size(self.size, values) else {
            return Err(Refusal::BadXdr);
        };
        let Ok((time, rest)) = read_time(self.time, rest) else {
            return Err(Refusal::BadXdr);
        };
        if !rest.is_empty() {
            return Err(Refusal::BadXdr);
        }
        match time {
            SetTime::Server => Ok(size),
            SetTime::Client => Err(Refusal::Rofs),
        }
    }

    /// The bitmap of what is set. It takes no memory.
    pub fn mask(self, alloc: Global) -> Bitmap
        ensures { result ≡ mask_set self }
    {
        let words = Words {
            first: if self.size { Attribute::Size.bit() } else { 0 },
            second: if self.time {
                Attribute::TimeModifySet.bit()
            } else {
                0
            },
        };
        words.mask(alloc).unwrap()
    }
}

// Whether all bits of the first words are among those of the second.
fn are_among(asked: Words, known: Words) -> bool
    ensures { result ≡ are_among asked known }
{
    asked.first & known.first == asked.first && asked.second & known.second == asked.second
}

// Whether the words of a bitmap behind its first two are 0.
#[tactic(auto, using(crate::proofs::Masks::none_behind))]
fn is_over(mask: &[u32]) -> bool
    ensures { result ≡ list_all (λ word. word == 0) (drop 2 mask.now) }
{
    if mask.len() <= 2 {
        return true;
    }
    are_zeros(&mask[2..])
}

fn are_zeros(words: &[u32]) -> bool
    ensures { result ≡ list_all (λ word. word == 0) words.now }
{
    words.iter().all(|word| *word == 0)
}

// Reads a size, where one is set.
fn read_size(is_set: bool, bytes: &[u8]) -> Result<(Option<u64>, &[u8]), WireError>
    ensures { Answers (λ x. (x.0, x.1.now)) result (size_at is_set bytes.now) }
{
    if !is_set {
        return Ok((None, bytes));
    }
    let (size, rest) = read_u64(bytes)?;
    Ok((Some(size), rest))
}

// Reads how the time is set, where it is set.
fn read_time(is_set: bool, bytes: &[u8]) -> Result<(SetTime, &[u8]), WireError>
    ensures { Answers (λ x. (x.0, x.1.now)) result (time_at is_set bytes.now) }
{
    if !is_set {
        return Ok((SetTime::Server, bytes));
    }
    let (how, rest) = read_u32(bytes)?;
    match how {
        0 => Ok((SetTime::Server, rest)),
        1 => read_client_time(rest),
        _ => Err(WireError::Short),
    }
}

// Reads a time of the client's, which nobody needs.
fn read_client_time(bytes: &[u8]) -> Result<(SetTime, &[u8]), WireError>
    ensures { Answers (λ x. (x.0, x.1.now)) result (client_time_at bytes.now) }
{
    let (_seconds, rest) = read_u64(bytes)?;
    let (_nanoseconds, rest) = read_u32(rest)?;
    Ok((SetTime::Client, rest))
}
