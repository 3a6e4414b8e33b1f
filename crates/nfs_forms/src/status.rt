//! The statuses of operations and of COMPOUND, with their numbers.

ghost use Rattle.std.specs.Prelude.{◌≡◌};
ghost use Rattle.nfs_forms.specs.Status as statuses;
ghost use Rattle.nfs_forms.specs.Status.{number_of, number_of_refusal, status_of};
ghost use Rattle.xdr.specs.Reading.{Answers};

use std::alloc::Global;
use xdr::{Wire, WireError, read_u32, write_u32};

/// A status without further data, whatever the operation (nfsstat4), with its number on the wire.
#[derive(Clone, Copy, PartialEq, Eq)]
pub enum Refusal {
    NoEnt = 2,
    Access = 13,
    Exist = 17,
    NotDir = 20,
    IsDir = 21,
    Inval = 22,
    FBig = 27,
    Rofs = 30,
    NameTooLong = 63,
    BadHandle = 10001,
    BadCookie = 10003,
    NotSupp = 10004,
    TooSmall = 10005,
    Delay = 10008,
    Same = 10009,
    Expired = 10011,
    Locked = 10012,
    ShareDenied = 10015,
    Resource = 10018,
    NoFileHandle = 10020,
    MinorVersMismatch = 10021,
    StaleClientId = 10022,
    StaleStateId = 10023,
    OldStateId = 10024,
    BadStateId = 10025,
    BadSeqId = 10026,
    NotSame = 10027,
    RestoreFh = 10030,
    AttrNotSupp = 10032,
    NoGrace = 10033,
    BadXdr = 10036,
    LocksHeld = 10037,
    OpenMode = 10038,
    OpIllegal = 10044,
    CbPathDown = 10048,
}

impl Refusal {
    fn number(self) -> u32
        ensures { result ≡ number_of_refusal self }
    {
        self as u32
    }
}

/// The status of an operation or of a COMPOUND (nfsstat4). Statuses with which some operation returns data are separate
/// from refusals, so that a refusal can't be one of them.
#[derive(Clone, Copy, PartialEq, Eq)]
pub enum Status {
    /// NFS4_OK.
    Ok,
    /// NFS4ERR_DENIED: the results of LOCK and LOCKT give the conflicting lock.
    Denied,
    /// NFS4ERR_CLID_INUSE: the result of SETCLIENTID gives the callback address of the client that has the id.
    ClidInUse,
    Refused(Refusal),
}

/// Every status that this server knows.
pub const STATUSES: [Status; 38] = [
    Status::Ok,
    Status::Refused(Refusal::NoEnt),
    Status::Refused(Refusal::Access),
    Status::Refused(Refusal::Exist),
    Status::Refused(Refusal::NotDir),
    Status::Refused(Refusal::IsDir),
    Status::Refused(Refusal::Inval),
    Status::Refused(Refusal::FBig),
    Status::Refused(Refusal::Rofs),
    Status::Refused(Refusal::NameTooLong),
    Status::Refused(Refusal::BadHandle),
    Status::Refused(Refusal::BadCookie),
    Status::Refused(Refusal::NotSupp),
    Status::Refused(Refusal::TooSmall),
    Status::Refused(Refusal::Delay),
    Status::Refused(Refusal::Same),
    Status::Denied,
    Status::Refused(Refusal::Expired),
    Status::Refused(Refusal::Locked),
    Status::Refused(Refusal::ShareDenied),
    Status::ClidInUse,
    Status::Refused(Refusal::Resource),
    Status::Refused(Refusal::NoFileHandle),
    Status::Refused(Refusal::MinorVersMismatch),
    Status::Refused(Refusal::StaleClientId),
    Status::Refused(Refusal::StaleStateId),
    Status::Refused(Refusal::OldStateId),
    Status::Refused(Refusal::BadStateId),
    Status::Refused(Refusal::BadSeqId),
    Status::Refused(Refusal::NotSame),
    Status::Refused(Refusal::RestoreFh),
    Status::Refused(Refusal::AttrNotSupp),
    Status::Refused(Refusal::NoGrace),
    Status::Refused(Refusal::BadXdr),
    Status::Refused(Refusal::LocksHeld),
    Status::Refused(Refusal::OpenMode),
    Status::Refused(Refusal::OpIllegal),
    Status::Refused(Refusal::CbPathDown),
];

impl Status {
    /// The status's number on the wire.
    pub fn number(self) -> u32
        ensures { result ≡ number_of self }
    {
        match self {
            Status::Ok => 0,
            Status::Denied => 10010,
            Status::ClidInUse => 10017,
            Status::Refused(refusal) => refusal.number(),
        }
    }

    /// The status that has this number, if there is one.
    pub fn from_number(number: u32) -> Option<Status>
        ensures { result ≡ status_of number }
    {
        STATUSES.iter().copied().find(|s| s.number() == number)
    }
}

impl Wire for Status {
    ghost form = { statuses.status };

    #[tactic(auto, unfolding(crate::specs::Status::status, xdr::specs::Reading::value_at))]
    fn read(alloc: Global, bytes: &[u8]) -> Result<(Status, &[u8]), WireError>
        ensures { Answers (λ x. (x.0, x.1.now)) result (statuses.status.at bytes.now) }
    {
        let (number, rest) = read_u32(bytes)?;
        match Status::from_number(number) {
            Some(status) => Ok((status, rest)),
            None => Err(WireError::Short),
        }
    }

    #[tactic(auto, unfolding(crate::specs::Status::status))]
    fn write(&self, out: &mut Vec<u8>) -> Result<(), WireError> {
        write_u32(out, self.number())
    }
}
