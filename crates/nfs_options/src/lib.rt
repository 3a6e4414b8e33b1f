//! The command line of `nfs4state`.
#![tactic(auto)]

mod command_line;
mod commands;
mod declined;
mod name;
mod number_option;
mod once_options;
mod serve_options;
mod until;

pub use command_line::{Subcommand, options};
pub use declined::Declined;
pub use once_options::OnceOptions;
pub use serve_options::ServeOptions;
pub use until::Until;
