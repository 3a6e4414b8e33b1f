//! Attributes by number: which of them each profile has, and their bits in a bitmap.

ghost use Rattle.std.specs.Prelude.{◌≡◌, IfOk, IsOk, get_or};
ghost use Rattle.nfs_tree.specs.Attributes.{bit_of, common, first_attributes, is_readable, mask_of, readable, second_attributes, supported, words_of};

use crate::Profile;
use nfs_xdr::Bitmap;
use std::alloc::{AllocError, Global};

/// The attributes that the server supports (RFC 7530, section 5), each with its number.
#[derive(Clone, Copy, PartialEq, Eq)]
pub enum Attribute {
    SupportedAttrs = 0,
    Type = 1,
    FhExpireType = 2,
    Change = 3,
    Size = 4,
    LinkSupport = 5,
    SymlinkSupport = 6,
    NamedAttr = 7,
    Fsid = 8,
    UniqueHandles = 9,
    LeaseTime = 10,
    RdattrError = 11,
    Filehandle = 19,
    Fileid = 20,
    FilesAvail = 21,
    FilesFree = 22,
    FilesTotal = 23,
    Maxfilesize = 27,
    Maxname = 29,
    Maxread = 30,
    Maxwrite = 31,
    Mode = 33,
    Numlinks = 35,
    Owner = 36,
    OwnerGroup = 37,
    SpaceAvail = 42,
    SpaceFree = 43,
    SpaceTotal = 44,
    SpaceUsed = 45,
    TimeAccess = 47,
    TimeMetadata = 52,
    TimeModify = 53,
    /// The only one that can be set but not read.
    TimeModifySet = 54,
}

/// The attributes that can be read under the profile "plain", in increasing order of their numbers.
const PLAIN_ATTRIBUTES: [Attribute; 14] = [
    Attribute::SupportedAttrs,
    Attribute::Type,
    Attribute::FhExpireType,
    Attribute::Change,
    Attribute::Size,
    Attribute::LinkSupport,
    Attribute::SymlinkSupport,
    Attribute::NamedAttr,
    Attribute::Fsid,
    Attribute::UniqueHandles,
    Attribute::LeaseTime,
    Attribute::RdattrError,
    Attribute::Filehandle,
    Attribute::Fileid,
];

/// The attributes that can be read under the profile "clients", in the first word of a bitmap.
const FIRST_ATTRIBUTES: [Attribute; 21] = [
    Attribute::SupportedAttrs,
    Attribute::Type,
    Attribute::FhExpireType,
    Attribute::Change,
    Attribute::Size,
    Attribute::LinkSupport,
    Attribute::SymlinkSupport,
    Attribute::NamedAttr,
    Attribute::Fsid,
    Attribute::UniqueHandles,
    Attribute::LeaseTime,
    Attribute::RdattrError,
    Attribute::Filehandle,
    Attribute::Fileid,
    Attribute::FilesAvail,
    Attribute::FilesFree,
    Attribute::FilesTotal,
    Attribute::Maxfilesize,
    Attribute::Maxname,
    Attribute::Maxread,
    Attribute::Maxwrite,
];

/// The attributes that can be read under the profile "clients", in the second word of a bitmap.
const SECOND_ATTRIBUTES: [Attribute; 11] = [
    Attribute::Mode,
    Attribute::Numlinks,
    Attribute::Owner,
    Attribute::OwnerGroup,
    Attribute::SpaceAvail,
    Attribute::SpaceFree,
    Attribute::SpaceTotal,
    Attribute::SpaceUsed,
    Attribute::TimeAccess,
    Attribute::TimeMetadata,
    Attribute::TimeModify,
];

/// The bits of those that can only be set: time_access_set, which isn't supported, and time_modify_set.
const SET_ONLY: u32 = 0x0041_0000;

/// The first two words of a bitmap. All attributes of NFSv4.0 have their bits in these.
#[derive(Clone, Copy, PartialEq, Eq)]
pub struct Words {
    pub first: u32,
    pub second: u32,
}

impl Attribute {
    /// The attribute's bit in its word of a bitmap.
    pub fn bit(self) -> u32
        ensures { result ≡ bit_of self }
    {
        1 << (self as u32 % 32)
    }
}

impl Words {
    /// The first two words of a bitmap, where one behind its end is 0.
    pub(crate) fn of(mask: &[u32]) -> Words
        ensures { result ≡ words_of mask.now }
    {
        Words {
            first: word_at(mask, 0),
            second: word_at(mask, 1),
        }
    }

    /// The bits that both have.
    pub(crate) fn common(self, other: Words) -> Words
        ensures { result ≡ common self other }
    {
        Words {
            first: self.first & other.first,
            second: self.second & other.second,
        }
    }

    /// A bitmap of these words, without a word that is 0 at its end. It takes no memory.
    pub(crate) fn mask(self, alloc: Global) -> Result<Bitmap, AllocError>
        ensures mask { IfOk result (λ b. b ≡ mask_of self) }
        ensures made { IsOk result }
    {
        if self.second != 0 {
            return Bitmap::copy_of(alloc, &[self.first, self.second]);
        }
        if self.first != 0 {
            return Bitmap::copy_of(alloc, &[self.first]);
        }
        Bitmap::copy_of(alloc, &[])
    }

    /// The bits of all attributes that the server supports under the profile "clients".
    pub(crate) fn supported() -> Words
        ensures { result ≡ supported }
    {
        Words {
            first: 0xe8f8_0fff,
            second: 0x0070_bc3a,
        }
    }
}

impl Profile {
    /// Whether a bitmap can be asked for. Under "clients" it can't if it has the bit of an attribute that can only be
    /// set.
    pub fn is_readable(self, mask: &[u32]) -> bool
        ensures { result ≡ is_readable self mask.now }
    {
        match self {
            Profile::Plain => true,
            Profile::Clients => word_at(mask, 1) & SET_ONLY == 0,
        }
    }

    /// The bits of all attributes that can be read.
    pub(crate) fn readable(self) -> Words
        ensures { result ≡ readable self }
    {
        match self {
            Profile::Plain => Words {
                first: 0x0018_0fff,
                second: 0,
            },
            Profile::Clients => Words {
                first: 0xe8f8_0fff,
                second: 0x0030_bc3a,
            },
        }
    }

    /// The attributes in the first word of a bitmap that can be read, in increasing order of their numbers.
    pub(crate) fn first_attributes(self) -> &'static [Attribute]
        ensures { result.now ≡ first_attributes self }
    {
        match self {
            Profile::Plain => &PLAIN_ATTRIBUTES,
            Profile::Clients => &FIRST_ATTRIBUTES,
        }
    }

    /// The attributes in the second word of a bitmap that can be read, in increasing order of their numbers.
    pub(crate) fn second_attributes(self) -> &'static [Attribute]
        ensures { result.now ≡ second_attributes self }
    {
        match self {
            Profile::Plain => &[],
            Profile::Clients => &SECOND_ATTRIBUTES,
        }
    }
}

// The word of a bitmap at a place, or 0 behind its end.
fn word_at(mask: &[u32], place: usize) -> u32
    ensures { result ≡ get_or mask.now place 0 }
{
    match mask.get(place) {
        Some(word) => *word,
        None => 0,
    }
}
