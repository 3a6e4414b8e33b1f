//! The options of `once`, with their defaults.

ghost use Rattle.std.specs.Prelude.{IfErr, IfOk};
ghost use Rattle.clap.specs.Words.{found_of, rows_of};
ghost use Rattle.nfs_options.specs.CommandLine.{IsMemoryOr, IsOnce, IsOnceWithinLimits, LacksOnce};

use crate::Declined;
use crate::name::Name;
use crate::number_option::NumberOption;
use clap::ArgMatches;
use std::alloc::Global;

/// The options of `once`.
#[derive(Clone, Copy, PartialEq, Eq)]
pub struct OnceOptions<'a> {
    /// The file that describes the tree of files to serve, if there is one.
    pub tree: Option<&'a str>,
    /// The lease in seconds, from `LEASE_MIN` to `LEASE_MAX`.
    pub lease: u32,
    /// The number of the server's run, the upper half of each clientid.
    pub epoch: u32,
    /// The moment of all calls, in seconds below 2^40 - 2.
    pub moment: u64,
    /// The file to which the journal is written at the end, if there is one.
    pub journal: Option<&'a str>,
}

/// The moment of all calls, in seconds below 2^40 - 2.
const MOMENT: NumberOption = NumberOption {
    name: "now",
    value_name: "SECONDS",
    least: 0,
    most: (1 << 40) - 3,
    default: 0,
};

impl<'a> OnceOptions<'a> {
    /// The values of the options that are absent.
    pub const DEFAULT: OnceOptions<'static> = OnceOptions {
        tree: None,
        lease: NumberOption::LEASE.default as u32,
        epoch: NumberOption::EPOCH.default as u32,
        moment: MOMENT.default,
        journal: None,
    };

    /// The options that clap found, with the defaults for the others.
    pub(crate) fn of(alloc: Global, matches: &ArgMatches<'a>) -> Result<OnceOptions<'a>, Declined>
        ensures ok { IfOk result (IsOnce (rows_of (found_of matches.now))) }
        ensures limits { IfOk result IsOnceWithinLimits }
        ensures err { IfErr result (IsMemoryOr (LacksOnce (rows_of (found_of matches.now)))) }
    {
        let lease = NumberOption::LEASE;
        let epoch = NumberOption::EPOCH;
        let moment = MOMENT;
        Ok(OnceOptions {
            tree: matches.get_str("tree"),
            lease: lease.short_number(alloc, Name::Once, matches.get_str(lease.name))?,
            epoch: epoch.short_number(alloc, Name::Once, matches.get_str(epoch.name))?,
            moment: moment.number(alloc, Name::Once, matches.get_str(moment.name))?,
            journal: matches.get_str("journal"),
        })
    }
}
