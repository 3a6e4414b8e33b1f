//! A run of the program, except its command line: what it needs before it begins, the run over one device, and how it
//! ends. The journal's file and the audit of a journal are here, too.
#![tactic(auto)]

mod answers;
mod audit;
mod backlog;
mod beginning;
mod draft;
mod fault;
mod faults;
mod journal_file;
mod line;
mod line_kind;
mod lines;
mod memory_reach;
mod numbers;
mod once;
mod outgoing;
mod pieces;
mod rate;
mod reached_limits;
mod reporter;
mod serve_end;
mod shown_bytes;
mod sight;
mod teller;
mod tree_file;
mod values;
mod waiting;
mod writing;

pub use answers::Answers;
pub use audit::run_audit;
pub use beginning::Beginning;
pub use draft::Draft;
pub use fault::{Fault, exit_status};
pub use faults::first_fault;
pub use journal_file::{BUFFER_LEN, file_buffer, file_journal};
pub use line_kind::LineKind;
pub use lines::Lines;
pub use numbers::limits_of_files;
pub use once::run_once;
pub use reporter::Reporter;
pub use serve_end::{end_ongoing_run, end_run};
pub use teller::Teller;
pub use tree_file::read_tree;
pub use writing::{answers_to, lines_to};
