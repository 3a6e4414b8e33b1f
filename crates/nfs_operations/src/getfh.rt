//! GETFH's result; the operation has no arguments.

use nfs_forms::{Answer, FileHandle};

/// GETFH has no arguments (RFC 7530, section 16.8).
pub type Arguments = ();

/// With NFS4_OK, the current filehandle.
pub type Outcome = Answer<FileHandle>;
