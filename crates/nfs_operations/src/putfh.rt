//! PUTFH's arguments and result.

use nfs_forms::{Answer, FileHandle};

/// The filehandle that becomes the current one (RFC 7530, section 16.20).
pub type Arguments = FileHandle;

/// A status without further data.
pub type Outcome = Answer<()>;
