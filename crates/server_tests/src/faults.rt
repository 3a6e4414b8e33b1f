//! The line of the one fault that no run of the program can have.

use nfs_program::Fault;
use nfs_server::ServeError;
use std::test::Fail;

/// No run of the program can be given as much as that; `test_program.py` has the lines of all other faults.
#[test]
fn too_much_input_is_a_fault(rt: HostRuntime) -> Result<(), Fail> {
    let fault = Fault::of(Err(ServeError::TooMuch)).ok_or("no fault")?;
    assert!(rt; fault.to_string(rt.alloc())?.as_str() == "fault: input too long");
    Ok(())
}
