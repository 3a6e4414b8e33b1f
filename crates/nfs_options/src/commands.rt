//! The command line as clap knows it: subcommands, options, and the text of `--help`.

ghost use Rattle.std.specs.Prelude.{◌≡◌, IfOk, codes, false};
ghost use Rattle.clap.specs.Words.{app_of, rule_of};
ghost use Rattle.clap.specs.declared.builder.command.Command.TheViews.{out-Command};
ghost use Rattle.nfs_options.specs.CommandLine.{audit, core_options, flag_rule, once, option_rule, program, serve, with_options, word_rule};

use crate::name::Name;
use crate::until::{INPUT_ENDS, KILLED, ORDERS};
use clap::error::ErrorKind;
use clap::{Arg, ArgAction, Command, Error};
use std::alloc::{AllocError, Global};

const PROGRAM_NOTE: &str = "Without a command it does what `nfs4state once` does without options.
`nfs4state once --help` and `nfs4state serve --help` show the options,
and `nfs4state --version` the version, the commit, and whether that was proved.";

const ONCE_NOTE: &str = "Example:
  nfs4state once --tree files.toml < records > replies";

const SERVE_NOTE: &str =
    "Before the first connection it prints the address that it listens on, on standard error.

Example:
  nfs4state serve --listen 127.0.0.1:0 --connections 1 --journal run.journal";

const AUDIT_NOTE: &str = "It prints `lawful: K entries`, or where the first wrong answer is.

Example:
  nfs4state once --journal run.journal < records > replies
  nfs4state audit run.journal";

/// The program's command line.
pub(crate) fn program_command<'a>(alloc: Global) -> Result<Command<'a>, AllocError>
    ensures { IfOk result (λ c. app_of c ≡ program) }
{
    let program = Command::new(alloc, "nfs4state")
        .about("A server of NFSv4.0's state, for those who test NFS clients, proxies and suites")
        .after_help(PROGRAM_NOTE)
        .disable_help_subcommand(true);
    program
        .subcommand(once_command(alloc)?)?
        .subcommand(serve_command(alloc)?)?
        .subcommand(audit_command(alloc)?)
}

/// The subcommand `once`.
fn once_command<'a>(alloc: Global) -> Result<Command<'a>, AllocError>
    ensures app { IfOk result (λ c. app_of c ≡ once) }
    ensures local { IfOk result (λ c. (out-Command c).has_globals ≡ false) }
{
    let now = option(
        alloc,
        "now",
        "SECONDS",
        "The moment of all calls, 0 to 1099511627773 seconds [default: 0]",
    );
    let once = Command::new(alloc, "once")
        .about("Answers the records on standard input, to its end, on standard output")
        .after_help(ONCE_NOTE);
    with_core_options(alloc, once)?
        .arg(now)?
        .arg(journal_option(alloc))
}

/// The subcommand `serve`.
fn serve_command<'a>(alloc: Global) -> Result<Command<'a>, AllocError>
    ensures app { IfOk result (λ c. app_of c ≡ serve) }
    ensures local { IfOk result (λ c. (out-Command c).has_globals ≡ false) }
{
    let listen = option(
        alloc,
        "listen",
        "ADDR",
        "The address to listen on; port 0 means any free port [default: 127.0.0.1:2049]",
    );
    let connections = option(
        alloc,
        "connections",
        "NUMBER",
        "How many connections, 1 to 64: to serve before ending [default: 4], or at once with a flag below [default: 64]",
    );
    let input_ends = flag(
        alloc,
        INPUT_ENDS,
        "Take the next connection where one has ended, and end when standard input ends",
    );
    let killed = flag(
        alloc,
        KILLED,
        "Take the next connection where one has ended, and go on until killed; standard input is never looked at",
    );
    let orders = flag(
        alloc,
        ORDERS,
        "As --until-input-ends; each line of standard input is an order, answered on standard output, and time moves by orders alone",
    );
    let serve = Command::new(alloc, "serve")
        .about("Answers the records on TCP connections, each to its end")
        .after_help(SERVE_NOTE)
        .arg(listen)?
        .arg(connections)?
        .arg(input_ends)?
        .arg(killed)?
        .arg(orders)?;
    let memory = option(
        alloc,
        "memory",
        "MIB",
        "How much memory the journal's entries may take, 1 to 1048576 MiB; then calls on the state are refused [default: no bound]",
    );
    with_core_options(alloc, serve)?
        .arg(journal_option(alloc))?
        .arg(memory)
}

// The options that say which core the calls come to: its tree, its lease and its epoch.
fn with_core_options<'a>(alloc: Global, command: Command<'a>) -> Result<Command<'a>, AllocError>
    ensures app { IfOk result (λ c. app_of c ≡ with_options core_options (app_of command.entry)) }
    ensures local { (out-Command command.entry).has_globals ≡ false
        → IfOk result (λ c. (out-Command c).has_globals ≡ false) }
{
    let tree = option(
        alloc,
        "tree",
        "FILE",
        "The files to serve, in TOML [default: a small tree of its own]",
    );
    let lease = option(
        alloc,
        "lease",
        "SECONDS",
        "The lease that clients see, 1 to 86400 seconds [default: 90]",
    );
    let epoch = option(
        alloc,
        "epoch",
        "NUMBER",
        "The run, the upper half of each clientid, 0 to 4294967295 [default: 1]",
    );
    command.arg(tree)?.arg(lease)?.arg(epoch)
}

// The option for the file of the journal.
fn journal_option<'a>(alloc: Global) -> Arg<'a>
    ensures rule { rule_of result ≡ option_rule (codes "journal") }
    ensures local { result.global ≡ false }
{
    option(
        alloc,
        "journal",
        "FILE",
        "Where to write the journal at the end [default: nowhere]",
    )
}

fn option<'a>(alloc: Global, name: &'a str, value_name: &'a str, help: &'a str) -> Arg<'a>
    ensures rule { rule_of result ≡ option_rule name.now }
    ensures local { result.global ≡ false }
{
    Arg::new(alloc, name)
        .long(name)
        .value_name(value_name)
        .help(help)
}

fn flag<'a>(alloc: Global, name: &'a str, help: &'a str) -> Arg<'a>
    ensures rule { rule_of result ≡ flag_rule name.now }
    ensures local { result.global ≡ false }
{
    Arg::new(alloc, name)
        .long(name)
        .action(ArgAction::SetTrue)
        .help(help)
}

/// The subcommand `audit`.
fn audit_command<'a>(alloc: Global) -> Result<Command<'a>, AllocError>
    ensures app { IfOk result (λ c. app_of c ≡ audit) }
    ensures local { IfOk result (λ c. (out-Command c).has_globals ≡ false) }
{
    let audit = Command::new(alloc, "audit")
        .about("Tells whether each answer in a journal is the one that the rules give")
        .after_help(AUDIT_NOTE);
    audit.arg(journal_file(alloc))
}

// The file that is audited.
fn journal_file<'a>(alloc: Global) -> Arg<'a>
    ensures rule { rule_of result ≡ word_rule (codes "file") }
    ensures local { result.global ≡ false }
{
    Arg::new(alloc, "file")
        .value_name("FILE")
        .help("A journal that `--journal FILE` wrote")
        .required(true)
}

/// The error of this kind in what is given for a subcommand.
pub(crate) fn error_of(
    alloc: Global,
    name: Name,
    kind: ErrorKind,
    message: &str,
) -> Result<Error, AllocError> {
    named_command(alloc, name)?.error(kind, message)
}

// The subcommand of this name, as its usage shows it.
fn named_command<'a>(alloc: Global, name: Name) -> Result<Command<'a>, AllocError> {
    match name {
        Name::Once => once_command(alloc)?.bin_name("nfs4state once"),
        Name::Serve => serve_command(alloc)?.bin_name("nfs4state serve"),
        Name::Audit => audit_command(alloc)?.bin_name("nfs4state audit"),
    }
}
