//! RESTOREFH's result; the operation has no arguments.

use nfs_forms::Answer;

/// RESTOREFH has no arguments (RFC 7530, section 16.29).
pub type Arguments = ();

/// A status without further data.
pub type Outcome = Answer<()>;
