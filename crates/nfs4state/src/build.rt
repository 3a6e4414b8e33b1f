//! What the program says of the build that it is, for `--version`. The text stands in a file of its own because every
//! command that builds the program for use writes its own text here, in a copy of the sources.

// In the repository the text claims nothing. A copy for a build has the commit in parentheses in place of `of no
// release`, and then `NOT proved`, or the toolchain that proves that copy.
pub(crate) const BUILD: &str = "nfs4state 0.2, of no release\n";
