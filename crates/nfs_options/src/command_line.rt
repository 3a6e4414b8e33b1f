//! Turns the words of the command line into a subcommand with its options, or says why there is none.

ghost use Rattle.std.specs.Prelude.{◌≡◌, ◌∷◌, [], IfErr, IfOk, List, MatchResult, codes, map, ℕ};
ghost use Rattle.clap.specs.Words.{found_of, rows_of, subcommand_rows_of};
ghost use Rattle.nfs_options.specs.declared.declined.Declined.{Declined};
ghost use Rattle.nfs_options.specs.CommandLine.{Asks, AsksBy, AsksNamed, AsksOnce, IsDeclined, IsMemoryOr, IsWithinLimits, Lacks, LacksNamed};

use crate::commands::program_command;
use crate::name::Name;
use crate::{Declined, OnceOptions, ServeOptions};
use clap::ArgMatches;
use std::alloc::Global;
use std::convert::AsStr;

/// What the words of the command line ask the program to do.
#[derive(Clone, Copy, PartialEq, Eq)]
pub enum Subcommand<'a> {
    /// Serve standard input to its end.
    Once(OnceOptions<'a>),
    /// Serve TCP connections, until as many as are asked for have ended, or for as long as a flag says.
    Serve(ServeOptions<'a>),
    /// Audit the journal in this file.
    Audit(&'a str),
}

/// Reads the words of the command line, the first of which is the program's name: `once`, with `--tree FILE`, `--lease
/// SECONDS` (1 to 86,400, by default 90), `--epoch NUMBER` (0 to 2^32 - 1, by default 1), `--now SECONDS` (0 to 2^40 -
/// 3, by default 0) and `--journal FILE`; `serve`, with `--listen ADDR` (by default 127.0.0.1:2049), `--connections
/// NUMBER` (1 to 64, by default 4, or 64 beside a flag), the flags `--until-input-ends` and `--orders`, or
/// `--until-killed`, or none, `--memory MIB` (1 to 1,048,576, by default no bound), and the options of `once` but
/// `--now`; or `audit FILE`. Each option is given at most once. Numbers are decimal digits without a sign. The
/// program's name alone means `once` without options, and `--help` or `-h`, before or after the subcommand, asks for
/// help.
pub fn options<'a, S: AsStr>(alloc: Global, words: &'a [S]) -> Result<Subcommand<'a>, Declined>
    ensures asked { IfOk result (Asks (map S.text words.now)) }
    ensures limits { IfOk result IsWithinLimits }
    ensures declined { IfErr result (IsDeclined (map S.text words.now)) }
    // The program's name alone means `once` with the defaults.
    ensures bare { (name : List ℕ) → map S.text words.now ≡ name ∷ []
        → MatchResult result (AsksOnce []) (λ d. d ≡ Declined.Memory) }
{
    match program_command(alloc)?.try_get_matches_from(words) {
        Ok(matches) => Subcommand::of(alloc, &matches),
        Err(error) => Err(Declined::of(alloc, &error)),
    }
}

impl<'a> Subcommand<'a> {
    // No subcommand means `once` without options.
    fn of(alloc: Global, matches: &ArgMatches<'a>) -> Result<Subcommand<'a>, Declined>
        ensures ok { IfOk result
            (λ s. AsksBy (subcommand_rows_of matches.now) s × IsWithinLimits s) }
        ensures err { IfErr result (IsMemoryOr (Lacks (subcommand_rows_of matches.now))) }
    {
        match matches.subcommand() {
            Some((name, matches)) => Subcommand::named(alloc, Name::of(name), matches),
            None => Ok(Subcommand::Once(OnceOptions::DEFAULT)),
        }
    }

    // The subcommand of this name, which was found.
    fn named(
        alloc: Global,
        name: Name,
        matches: &ArgMatches<'a>,
    ) -> Result<Subcommand<'a>, Declined>
        ensures ok { IfOk result
            (λ s. AsksNamed name (rows_of (found_of matches.now)) s × IsWithinLimits s) }
        ensures err { IfErr result
            (IsMemoryOr (LacksNamed name (rows_of (found_of matches.now)))) }
    {
        match name {
            Name::Once => Ok(Subcommand::Once(OnceOptions::of(alloc, matches)?)),
            Name::Serve => Ok(Subcommand::Serve(ServeOptions::of(alloc, matches)?)),
            Name::Audit => match matches.get_str("file") {
                Some(file) => Ok(Subcommand::Audit(file)),
                None => Err(Declined::without_file(alloc)),
            },
        }
    }
}
