//! The faults with which the program fails, with their lines and the exit status.

ghost use Rattle.std.specs.Prelude.{◌≡◌};
ghost use Rattle.nfs_program.specs.Once.{fault_of, status_of};

use nfs_core::NoRandomSeed;
use nfs_journal::AuditError;
use nfs_server::ServeError;
use nfs_tree::TreeError;
use std::error::Error;
use std::fmt;
use std::fmt::{Display, Formatter};
use std::io::Write;

/// Why a run of the program failed, displayed as the line that it writes on standard error.
#[derive(Clone, Copy, Debug, PartialEq, Eq)]
pub enum Fault {
    /// The tree's file doesn't describe a tree, with the number of the error.
    TreeRefused(u32),
    /// A file can't be read: the tree's, or the journal's that is audited.
    FileNotRead,
    /// The journal's file can't be written whole.
    FileNotWritten,
    InputNotRead,
    OutputNotWritten,
    RecordTooLong,
    InputTooLong,
    EndsInsideRecord,
    NoMemory,
    /// The system gave no random bytes for the seeds.
    NoRandomSeed,
    /// No listener can be had at the address that is asked for.
    Socket,
    /// The bytes are no journal.
    NotJournal,
    /// The entries of the journal before the one with this number are lawful, and it can't follow them.
    WrongAnswer(u32),
}

/// The words of a fault, as they stand behind `fault: ` in its line.
#[derive(Clone, Copy)]
pub(crate) struct FaultWords(Fault);

impl Display for FaultWords {
    fn fmt<W: fmt::Write>(&self, f: &mut Formatter<W>) -> fmt::Result {
        let words = match self.0 {
            Fault::TreeRefused(number) => return write!(f, "tree refused ({number})"),
            Fault::WrongAnswer(number) => return write!(f, "wrong answer at entry {number}"),
            Fault::FileNotRead => "file not read",
            Fault::FileNotWritten => "file not written",
            Fault::InputNotRead => "input not read",
            Fault::OutputNotWritten => "output not written",
            Fault::RecordTooLong => "record too long",
            Fault::InputTooLong => "input too long",
            Fault::EndsInsideRecord => "input ends inside a record",
            Fault::NoMemory => "no memory",
            Fault::NoRandomSeed => "no random seed",
            Fault::Socket => "socket",
            Fault::NotJournal => "not a journal",
        };
        f.write_str(words)
    }
}

impl Display for Fault {
    fn fmt<W: fmt::Write>(&self, f: &mut Formatter<W>) -> fmt::Result {
        write!(f, "fault: {}", self.words())
    }
}

impl Error for Fault {}

impl From<TreeError> for Fault {
    ghost use Rattle.nfs_program.specs.Once.{fault_of_tree};

    ghost from_gives = { λ e f. f ≡ fault_of_tree e };

    fn from(refused: TreeError) -> Fault {
        Fault::TreeRefused(refused.number())
    }
}

impl From<AuditError> for Fault {
    ghost use Rattle.nfs_program.specs.Audit.{fault_of_audit};

    ghost from_gives = { λ e f. f ≡ fault_of_audit e };

    fn from(error: AuditError) -> Fault {
        match error {
            AuditError::Format => Fault::NotJournal,
            AuditError::WrongAnswer(number) => Fault::WrongAnswer(number),
            AuditError::Memory => Fault::NoMemory,
        }
    }
}

impl From<NoRandomSeed> for Fault {
    ghost use Rattle.nfs_program.specs.declared.fault.Fault.TheVariants as faults;

    ghost from_gives = { λ _ f. f ≡ faults.NoRandomSeed };

    fn from(_refused: NoRandomSeed) -> Fault {
        Fault::NoRandomSeed
    }
}

impl Fault {
    /// The fault with which a connection ended, if there is one. An input that ends inside a record is also a fault.
    pub fn of(outcome: Result<usize, ServeError>) -> Option<Fault>
        ensures { result ≡ fault_of outcome }
    {
        match outcome {
            Ok(0) => None,
            Ok(_) => Some(Fault::EndsInsideRecord),
            Err(ServeError::Read) => Some(Fault::InputNotRead),
            Err(ServeError::Write) => Some(Fault::OutputNotWritten),
            Err(ServeError::TooLong) => Some(Fault::RecordTooLong),
            Err(ServeError::Memory) => Some(Fault::NoMemory),
            Err(ServeError::TooMuch) => Some(Fault::InputTooLong),
        }
    }

    /// The words that stand behind `fault: ` in its line.
    pub(crate) fn words(self) -> FaultWords {
        FaultWords(self)
    }

    /// Reports the fault by a line, and returns the program's exit status, which is 1.
    pub fn report<E: Write>(self, errors: &mut E) -> u8
        ensures { result ≡ 1 }
    {
        // If this line can't be written, there is no other place to report it.
        let _ = writeln!(errors, "{self}");
        1
    }
}

/// Reports the fault of a run, if there is one. Returns the program's exit status.
pub fn exit_status<E: Write>(errors: &mut E, fault: Option<Fault>) -> u8
    ensures { result ≡ status_of fault }
{
    match fault {
        None => 0,
        Some(fault) => fault.report(errors),
    }
}
