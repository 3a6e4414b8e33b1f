//! The tests of `nfs_callbacks`: clients that are called back over sockets of this machine.
#![tactic(auto)]

#[cfg(test)]
mod calls;
#[cfg(test)]
mod faults;
#[cfg(test)]
mod memory;
#[cfg(test)]
mod peer;
#[cfg(test)]
mod toy;
