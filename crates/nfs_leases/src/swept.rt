//! The counts that a sweep returns.

ghost use Rattle.std.specs.Prelude.{◌≡◌, ◌-◌, ◌<◌, ◌^◌};
ghost use Rattle.nfs_leases.specs.Visit.{total, with_case};

use crate::visit_case::VisitCase;
use nfs_core::CoreError;

/// How many clients a sweep treated in which way, how many delegations it revoked, and how many open owners it forgot.
#[derive(Clone, Copy, PartialEq, Eq)]
pub struct Swept {
    /// Clients whose leases were closed, and that were removed.
    pub expired: u32,
    /// Clients whose leases aren't over.
    pub kept: u32,
    /// Clients whose leases were renewed between the look and the attempt to close them.
    pub changed: u32,
    /// Clients that stay because the journal had no room for an entry.
    pub refused: u32,
    /// How many delegations were revoked.
    pub revoked: u32,
    /// How many open owners were forgotten.
    pub forgotten: u32,
    /// Why the sweep stopped at a delegation that is due or at an owner that may be forgotten, if it did: the journal
    /// had no room for an entry, or memory ran out.
    pub stopped: Option<CoreError>,
}

impl Swept {
    /// The counts of a sweep that has visited no client.
    pub const NONE: Swept = Swept {
        expired: 0,
        kept: 0,
        changed: 0,
        refused: 0,
        revoked: 0,
        forgotten: 0,
        stopped: None,
    };

    /// These counts with one more client, which was treated so.
    pub(crate) fn and(self, case: VisitCase) -> Swept
        requires { total self < 2 ^ 32 - 1 }
        ensures { result ≡ with_case self case }
    {
        match case {
            VisitCase::Expired => Swept {
                expired: self.expired + 1,
                ..self
            },
            VisitCase::Kept => Swept {
                kept: self.kept + 1,
                ..self
            },
            VisitCase::Changed => Swept {
                changed: self.changed + 1,
                ..self
            },
            VisitCase::Refused => Swept {
                refused: self.refused + 1,
                ..self
            },
        }
    }
}
