//! The options of `serve`, with their defaults and limits.

ghost use Rattle.std.specs.Prelude.{◌≡◌, IfErr, IfOk, IfSome, codes};
ghost use Rattle.clap.specs.Words.{found_of, rows_of};
ghost use Rattle.nfs_options.specs.CommandLine.{IsMemory, IsMemoryOr, IsMemoryWithinLimits, IsServe, IsServeWithinLimits, LacksMemory, LacksServe, connections_default, connections_max};

use crate::Declined;
use crate::name::Name;
use crate::number_option::NumberOption;
use crate::until::Until;
use clap::ArgMatches;
use std::alloc::Global;

/// The options of `serve`.
#[derive(Clone, Copy, PartialEq, Eq)]
pub struct ServeOptions<'a> {
    /// The address to listen on, as it is written.
    pub listen: &'a str,
    /// Until when the run goes on, if it isn't to end with a number of connections.
    pub until: Option<Until>,
    /// How many connections to serve before ending, or how many at once in a run that goes on, from 1 to 64.
    pub connections: u32,
    /// The file that describes the tree of files to serve, if there is one.
    pub tree: Option<&'a str>,
    /// The lease in seconds, from `LEASE_MIN` to `LEASE_MAX`.
    pub lease: u32,
    /// The number of the server's run, the upper half of each clientid.
    pub epoch: u32,
    /// The file to which the journal is written at the end, if there is one.
    pub journal: Option<&'a str>,
    /// How much memory the journal's entries may take, in MiB, if that has a bound, from 1 to 1,048,576.
    pub memory: Option<u32>,
}

/// How many connections to serve before ending.
const CONNECTIONS: NumberOption = NumberOption {
    name: "connections",
    value_name: "NUMBER",
    least: 1,
    most: 64,
    default: 4,
};

/// How much memory the journal's entries may take. It has no default: without it there is no bound.
const MEMORY: NumberOption = NumberOption {
    name: "memory",
    value_name: "MIB",
    least: 1,
    most: 1_048_576,
    default: 1_048_576,
};

// The bound of the entries' memory, if one is given.
fn memory_of(alloc: Global, matches: &ArgMatches<'_>) -> Result<Option<u32>, Declined>
    ensures ok { IfOk result (IsMemory (rows_of (found_of matches.now))) }
    ensures limits { IfOk result (λ memory. IfSome memory IsMemoryWithinLimits) }
    ensures err { IfErr result (IsMemoryOr (LacksMemory (rows_of (found_of matches.now)))) }
{
    match matches.get_str(MEMORY.name) {
        None => Ok(None),
        Some(text) => match MEMORY.short_number(alloc, Name::Serve, Some(text)) {
            Ok(memory) => Ok(Some(memory)),
            Err(declined) => Err(declined),
        },
    }
}

// How many connections to serve before ending, or how many at once in a run that goes on: by default as many as may be.
fn connections_option(until: Option<Until>) -> NumberOption
    ensures name { result.name.now ≡ codes "connections" }
    ensures limits { (result.least ≡ 1) × (result.most ≡ connections_max) }
    ensures default { result.default ≡ connections_default until }
{
    match until {
        None => CONNECTIONS,
        Some(_) => NumberOption {
            default: CONNECTIONS.most,
            ..CONNECTIONS
        },
    }
}

impl<'a> ServeOptions<'a> {
    /// The values of the options that are absent.
    pub const DEFAULT: ServeOptions<'static> = ServeOptions {
        listen: "127.0.0.1:2049",
        until: None,
        connections: CONNECTIONS.default as u32,
        tree: None,
        lease: NumberOption::LEASE.default as u32,
        epoch: NumberOption::EPOCH.default as u32,
        journal: None,
        memory: None,
    };

    /// The options that clap found, with the defaults for the others.
    pub(crate) fn of(alloc: Global, matches: &ArgMatches<'a>) -> Result<ServeOptions<'a>, Declined>
        ensures ok { IfOk result (IsServe (rows_of (found_of matches.now))) }
        ensures limits { IfOk result IsServeWithinLimits }
        ensures err { IfErr result (IsMemoryOr (LacksServe (rows_of (found_of matches.now)))) }
    {
        let until = Until::of(alloc, matches)?;
        let connections = connections_option(until);
        let lease = NumberOption::LEASE;
        let epoch = NumberOption::EPOCH;
        Ok(ServeOptions {
            listen: matches
                .get_str("listen")
                .unwrap_or(ServeOptions::DEFAULT.listen),
            until,
            connections: connections.short_number(
                alloc,
                Name::Serve,
                matches.get_str(connections.name),
            )?,
            tree: matches.get_str("tree"),
            lease: lease.short_number(alloc, Name::Serve, matches.get_str(lease.name))?,
            epoch: epoch.short_number(alloc, Name::Serve, matches.get_str(epoch.name))?,
            journal: matches.get_str("journal"),
            memory: memory_of(alloc, matches)?,
        })
    }
}
