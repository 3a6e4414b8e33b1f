//! GETATTR's arguments and result.

use nfs_forms::{Answer, Bitmap, Fattr};

/// The attributes that the client asks for (RFC 7530, section 16.7).
pub type Arguments = Bitmap;

/// With NFS4_OK, those of the requested attributes that the server supports.
pub type Outcome = Answer<Fattr>;
