//! The tests of `nfs_rows`, `nfs_ranges`, `nfs_share`, `nfs_leases` and the seeds of `nfs_state`: what no clause can
//! say, and no row shows. Each public function of `nfs_ranges` and `nfs_share` that takes memory and that no layer
//! above calls succeeds once. Whatever is refused for want of memory is asked for once more. So each test passes with
//! ample memory, and where any one growth is refused.
#![tactic(auto)]

#[cfg(test)]
mod delegations;
#[cfg(test)]
mod names;
#[cfg(test)]
mod opens;
#[cfg(test)]
mod ranges;
#[cfg(test)]
mod renewing;
#[cfg(test)]
mod rows;
#[cfg(test)]
mod seeds;
#[cfg(test)]
mod sweeps;
