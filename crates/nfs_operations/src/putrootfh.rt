//! PUTROOTFH's result; the operation has no arguments.

use nfs_forms::Answer;

/// PUTROOTFH has no arguments (RFC 7530, section 16.22).
pub type Arguments = ();

/// A status without further data.
pub type Outcome = Answer<()>;
