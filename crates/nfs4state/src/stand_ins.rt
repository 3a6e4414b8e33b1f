//! Opens /dev/null for each closed standard stream, so that no file of a run gets the number of standard error.

use std::fs::{File, OpenOptions};
use std::os::fd::AsRawFd;

// The number of standard error among the open files.
const ERRORS: i32 = 2;

/// Files in the places of the standard streams that are closed. Without them the next files that are opened would get
/// these, and the lines for standard error would be written into one of them.
#[derive(Drop)]
pub(crate) struct StandIns {
    files: [Option<File>; 3],
}

impl StandIns {
    /// No stand-ins: nothing is opened.
    pub(crate) fn none() -> StandIns {
        StandIns {
            files: [None, None, None],
        }
    }

    /// A stand-in for each closed standard stream, as long as files can be opened. What is written to a stand-in is
    /// discarded.
    pub(crate) fn of(rt: &HostRuntime) -> StandIns {
        let mut stand_ins = StandIns::none();
        for place in &mut stand_ins.files {
            match OpenOptions::new().write(true).open(rt, "/dev/null") {
                Ok(file) if file.as_raw_fd() <= ERRORS => *place = Some(file),
                _ => return stand_ins,
            }
        }
        stand_ins
    }
}
