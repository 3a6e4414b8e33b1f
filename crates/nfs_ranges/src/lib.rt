//! The bytes of a file that one lock owner holds, each for reading or for writing (RFC 7530, sections 9.2 and 9.3).
#![tactic(auto)]

mod bytes;
mod coverage;
mod laws;
mod limits;
mod mode;
mod named_calls;
mod piece;
mod range;
mod ranges;
mod ranges_error;
mod runs;
mod shifts;
mod splice;
mod splices;
mod stops;

pub use bytes::range_of;
pub use coverage::covers;
pub use laws::{
    at_most_one_first_conflict, at_most_one_range, at_most_one_run, first_change_has_place,
};
pub use limits::{RUN_LIMIT, limit_of_runs};
pub use mode::Mode;
pub use piece::Piece;
pub use range::Range;
pub use ranges::Ranges;
pub use ranges_error::RangesError;
