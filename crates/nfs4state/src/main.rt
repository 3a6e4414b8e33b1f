//! A server of NFSv4.0's state, whose journal explains every change of the state.
#![tactic(auto)]

ghost use Rattle.nfs_options.specs.CommandLine.{IsOnceWithinLimits};

mod build;
mod document_lines;
mod files_read;
mod held_line;
mod inputs;
mod journal_place;
mod journal_reason;
mod listening;
mod misfit;
mod new_file;
mod ongoing;
mod part_file;
mod part_names;
mod place;
mod serve;
mod stand_ins;
mod told;
mod tree_reason;

use crate::build::BUILD;
use crate::files_read::read_journal_file;
use crate::held_line::HeldLine;
use crate::inputs::{core_of, journal_file, tree};
use crate::journal_reason::tell_no_journal;
use crate::serve::serve;
use nfs_core::{Moment, Seeds};
use nfs_options::{Declined, OnceOptions, Subcommand, options};
use nfs_program::{Fault, run_audit, run_once};
use nfs_server::{Counted, Sides};
use std::io::{Eprint, Write};
use std::process::ExitCode;
use std::{env, io};

// The beginning of the line that says that a file is no journal.
const NO_JOURNAL: &[u8] = b"fault: not a journal";

/// Does what the words of the command line ask for: see `nfs4state --help`.
fn main(rt: HostRuntime) -> ExitCode {
    let words = match words(&rt) {
        Ok(words) => words,
        Err(error) if error.kind() == io::ErrorKind::OutOfMemory => {
            return ExitCode::from(report(&rt, Fault::NoMemory));
        }
        Err(_) => return print_usage(&rt, "error: a word isn't UTF-8\n"),
    };
    if asks_version(words.as_slice()) {
        return print_help(&rt, BUILD);
    }
    match options(rt.alloc(), words.as_slice()) {
        Ok(Subcommand::Once(options)) => ExitCode::from(once(&rt, &options)),
        Ok(Subcommand::Serve(options)) => ExitCode::from(serve(&rt, rt, &options)),
        Ok(Subcommand::Audit(path)) => ExitCode::from(audit(&rt, path)),
        Err(Declined::Help(text)) => print_help(&rt, text.as_str()),
        Err(Declined::Usage(text)) => print_usage(&rt, text.as_str()),
        Err(Declined::Memory) => ExitCode::from(report(&rt, Fault::NoMemory)),
    }
}

// Whether `--version` is all that is asked for.
fn asks_version(words: &[String]) -> bool {
    match words {
        [_, word] => word.as_str() == "--version",
        _ => false,
    }
}

fn words(rt: &HostRuntime) -> io::Result<Vec<String>> {
    Ok(env::args(rt)?.collect(rt.alloc())?)
}

// `nfs4state once`: records from standard input, replies to standard output, which are one device here, and the journal
// to its file at the end. None is touched before there is a core.
fn once(rt: &HostRuntime, options: &OnceOptions<'_>) -> u8
    requires { IsOnceWithinLimits options.now }
{
    let tree = match tree(rt, options.tree) {
        Ok(tree) => tree,
        Err(fault) => return report(rt, fault),
    };
    let core = match core_of(rt, &tree, options.lease, options.epoch) {
        Ok(core) => core,
        Err(fault) => return report(rt, fault),
    };
    let now = Moment::new(options.moment).unwrap();
    let mut device = Sides {
        source: Counted::new(rt.stdin()),
        sink: Counted::new(rt.stdout()),
    };
    let mut errors = rt.stderr();
    let mut journal = journal_file(rt, options.journal, rt);
    run_once(
        rt.alloc(),
        core,
        &tree,
        now,
        &mut device,
        &mut errors,
        &mut journal,
    )
}

// `nfs4state audit`: whether the file is a lawful journal.
fn audit(rt: &HostRuntime, path: &str) -> u8 {
    let bytes = match read_journal_file(rt, path) {
        Ok(bytes) => bytes,
        Err(fault) => return report(rt, fault),
    };
    let seeds = match Seeds::new(rt) {
        Ok(seeds) => seeds,
        Err(refused) => return report(rt, Fault::from(refused)),
    };
    let mut sink = Counted::new(rt.stdout());
    let mut fault = HeldLine::new();
    let status = run_audit(rt.alloc(), bytes.as_slice(), seeds, &mut sink, &mut fault);
    if fault.bytes().starts_with(NO_JOURNAL) {
        tell_no_journal(rt.alloc(), rt, path, bytes.as_slice());
    }
    // An error in writing it is ignored, as others are.
    let _ = rt.stderr().write_all(fault.bytes());
    status
}

// The functions below ignore an error in writing, since there is no other place to report it.

fn print_help(rt: &HostRuntime, text: &str) -> ExitCode {
    let _ = rt.print(text);
    ExitCode::from(0)
}

fn print_usage(rt: &HostRuntime, text: &str) -> ExitCode {
    let _ = rt.eprint(text);
    ExitCode::from(2)
}

pub(crate) fn report<E: Eprint>(errors: &E, fault: Fault) -> u8 {
    let _ = errors.eprintln(fault);
    1
}
