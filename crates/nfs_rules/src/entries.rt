//! The rules of the entries that are no calls, a file each.

pub(crate) mod expire;
pub(crate) mod forget;
pub(crate) mod path;
pub(crate) mod revoke;
