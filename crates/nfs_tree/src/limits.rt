//! States the numbers of this crate as a law, so that a wrong constant fails the proof.

ghost use Rattle.std.specs.Prelude.{◌≡◌};
ghost use Rattle.nfs_tree.specs.Attributes.{readable, supported};
ghost use Rattle.nfs_tree.specs.declared.profile.Profile.TheVariants as profiles;

use crate::operations::{
    ACCESS_DELETE, ACCESS_EXECUTE, ACCESS_EXTEND, ACCESS_LOOKUP, ACCESS_MODIFY, ACCESS_READ,
};
use crate::path::{NAME_LIMIT, PATH_LIMIT};
use crate::tree::{DIRECTORY_LIMIT, FILE_LIMIT, HANDLE_LEN, ROOT, TEXT_LIMIT};

/// The numbers in the rules of a tree: its limits, its root, the lengths of its filehandles, the bits of ACCESS
/// (RFC 7530, section 16.1), and the words with the bits of all attributes that can be read, and that are supported.
pub fn limits_of_trees()
    ensures names { (NAME_LIMIT ≡ 255) × (PATH_LIMIT ≡ 8) }
    ensures nodes { (FILE_LIMIT ≡ 64) × (DIRECTORY_LIMIT ≡ 64) × (TEXT_LIMIT ≡ 65536) }
    ensures handles { (ROOT ≡ 0) × (HANDLE_LEN ≡ 8) }
    ensures access { (ACCESS_READ ≡ 1) × (ACCESS_LOOKUP ≡ 2) × (ACCESS_MODIFY ≡ 4)
        × (ACCESS_EXTEND ≡ 8) × (ACCESS_DELETE ≡ 16) × (ACCESS_EXECUTE ≡ 32) }
    ensures attributes { (readable profiles.Plain ≡ record { first = 0x0018_0fff; second = 0 })
        × (readable profiles.Clients ≡ record { first = 0xe8f8_0fff; second = 0x0030_bc3a })
        × (supported ≡ record { first = 0xe8f8_0fff; second = 0x0070_bc3a }) }
{}
