//! States the limits on filehandles and owners' names as a law, so that a wrong constant fails the proof.

ghost use Rattle.std.specs.Prelude.{◌≡◌};

use crate::file_handle::FILE_HANDLE_LIMIT;
use crate::open_owner::OWNER_NAME_LIMIT;

/// The limits in the forms: those of filehandles and of owners' names (NFS4_FHSIZE, NFS4_OPAQUE_LIMIT; RFC 7531).
pub fn limits_of_forms()
    ensures { (FILE_HANDLE_LIMIT ≡ 128) × (OWNER_NAME_LIMIT ≡ 1024) }
{}
