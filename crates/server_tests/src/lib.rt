//! The tests of `nfs_program`, `nfs_server`, `nfs_tree` and `nfs_rpc`, through what is public of them. They try what
//! neither rows (`crates/rows/data`) nor runs of the program (`tests/program`) can show.
#![tactic(auto)]

#[cfg(test)]
mod callbacks;
#[cfg(test)]
mod devices;
#[cfg(test)]
mod faults;
#[cfg(test)]
mod streams;
#[cfg(test)]
mod trees;
