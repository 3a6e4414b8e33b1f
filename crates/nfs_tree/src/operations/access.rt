//! ACCESS, which answers by the node and the profile alone, as modes and users aren't checked.

ghost use Rattle.std.specs.Prelude.{◌≡◌};
ghost use Rattle.nfs_tree.specs.Exports.{export_seen};
ghost use Rattle.nfs_tree.specs.operations.Access.{access, access_of, directory_access};
ghost use Rattle.nfs_tree.specs.Tree.{is_directory};

use crate::{Export, Filehandles, Profile};
use nfs_operations::access::AccessBits;
use nfs_xdr::{Answer, OpResult, Refusal};

/// The access rights of ACCESS, as bits (RFC 7530, section 16.1.2).
pub const ACCESS_READ: u32 = 1;

pub const ACCESS_LOOKUP: u32 = 2;

pub const ACCESS_MODIFY: u32 = 4;

pub const ACCESS_EXTEND: u32 = 8;

pub const ACCESS_DELETE: u32 = 16;

pub const ACCESS_EXECUTE: u32 = 32;

const ALL_ACCESS: u32 = ACCESS_READ
    | ACCESS_LOOKUP
    | ACCESS_MODIFY
    | ACCESS_EXTEND
    | ACCESS_DELETE
    | ACCESS_EXECUTE;

const FILE_ACCESS: u32 = ACCESS_READ | ACCESS_MODIFY | ACCESS_EXTEND;

impl Profile {
    // What may be done to a directory.
    fn directory_access(self) -> u32
        ensures { result ≡ directory_access self }
    {
        match self {
            Profile::Plain => ACCESS_READ | ACCESS_LOOKUP,
            Profile::Clients => ACCESS_READ | ACCESS_LOOKUP | ACCESS_MODIFY,
        }
    }
}

impl Export<'_> {
    /// What ACCESS answers for a node: those of the requested bits that the server knows, and those that it allows.
    pub fn access(&self, node: u32, bits: u32) -> AccessBits
        ensures { result
            ≡ access_of self.now.profile (is_directory self.now.tree.now.nodes node) bits }
    {
        let allowed = if self.tree.is_directory(node) {
            self.profile.directory_access()
        } else {
            FILE_ACCESS
        };
        AccessBits {
            supported: bits & ALL_ACCESS,
            access: bits & allowed,
        }
    }
}

impl Filehandles {
    /// ACCESS (RFC 7530, section 16.1): returns which of the requested access rights the client has on the current
    /// object.
    pub(crate) fn access(&self, export: &Export<'_>, requested: u32) -> OpResult
        ensures effect { record { answer = result; after = self.now }
            ≡ access (export_seen export.now) self.now requested }
    {
        match self.current {
            Some(node) => OpResult::Access(Answer::Done(export.access(node, requested))),
            None => OpResult::Access(Answer::Refused(Refusal::NoFileHandle)),
        }
    }
}
