//! States as a law that a lease table which only one thread uses refuses no closing.

ghost use Rattle.nfs_leases.specs.PlainLaws.{SeenLeasesClose};

/// The law that in a plain book nothing comes between a look and the attempt to close the lease that it showed.
pub fn seen_leases_close()
    ensures { SeenLeasesClose }
{}
