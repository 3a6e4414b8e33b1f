//! The file of a journal: written, read again, and audited.
#![tactic(auto)]

mod audit_error;
mod auditing;
mod exact;
mod file;
mod filed_journal;
mod journal_laws;
mod journals;
mod opening;

pub use audit_error::AuditError;
pub use auditing::audit;
pub use file::File;
pub use filed_journal::FiledJournal;
pub use journal_laws::{calls_in_no_journal, files_have_their_journals};
pub use journals::{read_journal, write_journal};
pub use opening::{Edition, Opening, SecondStart, Start, ThirdStart};
