//! The basic forms of XDR (RFC 4506, section 4): numbers, flags, and bytes of a fixed or a given length.

mod constant;
mod fixed;
mod flag;
mod number;
mod opaque;

pub use constant::read_constant;
pub use fixed::{read_fixed, write_fixed};
pub use flag::{read_flag, write_flag};
pub use number::{read_u32, read_u64, write_u32, write_u64};
pub use opaque::{padding_of, read_opaque, read_opaque_bytes, write_opaque};
