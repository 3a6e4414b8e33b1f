//! The flags that say what ends a run of `serve`.

ghost use Rattle.std.specs.Prelude.{◌≡◌, IfErr, IfOk};
ghost use Rattle.clap.specs.Words.{found_of, rows_of};
ghost use Rattle.nfs_options.specs.CommandLine.{IsBoth, IsMemoryOr, IsUntil, is_given};

use crate::Declined;
use crate::name::Name;
use clap::ArgMatches;
use clap::error::ErrorKind;
use std::alloc::Global;

/// Until when a run of `serve` goes on that doesn't end with a number of connections.
#[derive(Clone, Copy, PartialEq, Eq)]
pub enum Until {
    /// Until standard input ends.
    InputEnds,
    /// Until the orders on standard input end, or one of them ends the run.
    OrdersEnd,
    /// Until the process is killed. Standard input is never looked at.
    Killed,
}

/// The name of the flag for `Until::InputEnds`.
pub(crate) const INPUT_ENDS: &str = "until-input-ends";

/// The name of the flag for `Until::OrdersEnd`.
pub(crate) const ORDERS: &str = "orders";

/// The name of the flag for `Until::Killed`.
pub(crate) const KILLED: &str = "until-killed";

impl Until {
    /// What the flags that clap found ask for. Orders are of an input that ends, and `--until-killed` goes with
    /// neither.
    pub(crate) fn of(alloc: Global, matches: &ArgMatches<'_>) -> Result<Option<Until>, Declined>
        ensures ok { IfOk result (IsUntil (rows_of (found_of matches.now))) }
        ensures err { IfErr result (IsMemoryOr (IsBoth (rows_of (found_of matches.now)))) }
    {
        match (
            is_given(matches, INPUT_ENDS),
            is_given(matches, ORDERS),
            is_given(matches, KILLED),
        ) {
            (false, false, false) => Ok(None),
            (true, false, false) => Ok(Some(Until::InputEnds)),
            (_, true, false) => Ok(Some(Until::OrdersEnd)),
            (false, false, true) => Ok(Some(Until::Killed)),
            (true, false, true) => Err(Declined::usage(
                alloc,
                Name::Serve,
                ErrorKind::ArgumentConflict,
                "the argument '--until-input-ends' cannot be used with '--until-killed'",
            )),
            (_, true, true) => Err(Declined::usage(
                alloc,
                Name::Serve,
                ErrorKind::ArgumentConflict,
                "the argument '--orders' cannot be used with '--until-killed'",
            )),
        }
    }
}

// Whether the flag of this name is given, for which clap then notes `true`.
fn is_given(matches: &ArgMatches<'_>, name: &str) -> bool
    ensures { result ≡ is_given name.now (rows_of (found_of matches.now)) }
{
    match matches.get_str(name) {
        Some(noted) => noted == "true",
        None => false,
    }
}
