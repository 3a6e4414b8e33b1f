//! LOOKUP's arguments and result.

use nfs_forms::Answer;
use xdr::Bytes;

/// A name in the current directory (RFC 7530, section 16.13).
pub type Arguments = Bytes;

/// A status without further data.
pub type Outcome = Answer<()>;
