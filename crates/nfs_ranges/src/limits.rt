//! Bounds how many runs one lock owner may have of a file.

ghost use Rattle.std.specs.Prelude.{◌≡◌};
ghost use Rattle.nfs_ranges.specs.declared.limits.TheConstants.{RUN_LIMIT};

/// How many runs a lock owner may have of a file.
pub const RUN_LIMIT: usize = 1024;

/// The limit in the rules.
pub fn limit_of_runs()
    ensures { RUN_LIMIT ≡ 1024 }
{}
