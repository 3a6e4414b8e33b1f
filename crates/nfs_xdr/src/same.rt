//! Whether two operations, or two results, are the same.

ghost use Rattle.std.specs.Prelude.{◌≡◌, ◌≢◌, MatchBool};

use crate::opnum::each_operation;
use crate::{
    Address, Answer, Bitmap, Fattr, FileHandle, LockDenied, Op, OpResult, Stateid, Verifier,
};
use nfs_operations::access::AccessBits;
use nfs_operations::close::Close;
use nfs_operations::commit::Commit;
use nfs_operations::delegreturn::Delegreturn;
use nfs_operations::lock::Lock;
use nfs_operations::lockt::Lockt;
use nfs_operations::locku::Locku;
use nfs_operations::open::{Open, OpenOk};
use nfs_operations::open_confirm::OpenConfirm;
use nfs_operations::open_downgrade::OpenDowngrade;
use nfs_operations::read::{Read, ReadOk};
use nfs_operations::readdir::{Readdir, ReaddirOk};
use nfs_operations::release_lockowner::ReleaseLockowner;
use nfs_operations::renew::Renew;
use nfs_operations::setattr::{Setattr, SetattrResult};
use nfs_operations::setclientid::Setclientid;
use nfs_operations::setclientid_confirm::SetclientidConfirm;
use nfs_operations::write::{Write, WriteOk};
use xdr::Bytes;

// Matches two operations, and compares their arguments if they are one.
macro_rules! is_same_op {
    (
        [$($With:ident = $n:literal $c:ident,)*]
        [$($Without:ident = $m:literal $d:ident,)*]
        $op:expr, $other:expr
    ) => {
        match ($op, $other) {
            $((Op::$With(args), Op::$With(other)) => args.is_same(other),)*
            $((Op::$Without, Op::$Without) => true,)*
            _ => false,
        }
    };
}

// Matches two results, and compares the answers inside them if they are of one operation.
macro_rules! is_same_answer {
    (
        [$($X:ident = $n:literal $c:ident,)*]
        [$($Y:ident = $m:literal $d:ident,)*]
        $result:expr, $other:expr
    ) => {
        match ($result, $other) {
            $((OpResult::$X(answer), OpResult::$X(other)) => answer.is_same(other),)*
            $((OpResult::$Y(answer), OpResult::$Y(other)) => answer.is_same(other),)*
            (OpResult::Unsupported(op), OpResult::Unsupported(other)) => op == other,
            (OpResult::ReadOnly(change), OpResult::ReadOnly(other)) => change == other,
            (OpResult::Illegal(answer), OpResult::Illegal(other)) => answer.is_same(other),
            _ => false,
        }
    };
}

impl Op {
    /// Whether the other is the same operation with the same arguments.
    pub fn is_same(&self, other: &Op) -> bool
        ensures { MatchBool result (self.now ≡ other.now) (self.now ≢ other.now) }
    {
        each_operation!(is_same_op self, other)
    }
}

impl OpResult {
    /// Whether the other is the same result of the same operation.
    pub fn is_same(&self, other: &OpResult) -> bool
        ensures { MatchBool result (self.now ≡ other.now) (self.now ≢ other.now) }
    {
        each_operation!(is_same_answer self, other)
    }
}

/// The arguments of an operation, or the data of an answer, which can be compared with others of the same operation or
/// answer.
trait Same {
    fn is_same(&self, other: &Self) -> bool
        ensures { MatchBool result (self.now ≡ other.now) (self.now ≢ other.now) };
}

impl<T: Same, D: Same, C: Same> Same for Answer<T, D, C> {
    fn is_same(&self, other: &Answer<T, D, C>) -> bool {
        match (self, other) {
            (Answer::Done(value), Answer::Done(other)) => value.is_same(other),
            (Answer::Denied(value), Answer::Denied(other)) => value.is_same(other),
            (Answer::ClidInUse(value), Answer::ClidInUse(other)) => value.is_same(other),
            (Answer::Refused(refusal), Answer::Refused(other)) => refusal == other,
            _ => false,
        }
    }
}

impl Same for () {
    fn is_same(&self, _: &()) -> bool {
        true
    }
}

impl Same for OpenOk {
    fn is_same(&self, other: &OpenOk) -> bool {
        self.stateid == other.stateid
            && self.change == other.change
            && self.rflags == other.rflags
            && self.attrset == other.attrset
            && self.delegation == other.delegation
    }
}

impl Same for Lock {
    fn is_same(&self, other: &Lock) -> bool {
        self.is_same(other)
    }
}

impl Same for Open {
    fn is_same(&self, other: &Open) -> bool {
        self.is_same(other)
    }
}

impl Same for ReaddirOk {
    fn is_same(&self, other: &ReaddirOk) -> bool {
        self.is_same(other)
    }
}

// All others are the same where they are equal.

impl Same for u32 {
    fn is_same(&self, other: &u32) -> bool {
        self == other
    }
}

impl Same for AccessBits {
    fn is_same(&self, other: &AccessBits) -> bool {
        self == other
    }
}

impl Same for Address {
    fn is_same(&self, other: &Address) -> bool {
        self == other
    }
}

impl Same for Bitmap {
    fn is_same(&self, other: &Bitmap) -> bool {
        self == other
    }
}

impl Same for Bytes {
    fn is_same(&self, other: &Bytes) -> bool {
        self == other
    }
}

impl Same for Close {
    fn is_same(&self, other: &Close) -> bool {
        self == other
    }
}

impl Same for Commit {
    fn is_same(&self, other: &Commit) -> bool {
        self == other
    }
}

impl Same for Delegreturn {
    fn is_same(&self, other: &Delegreturn) -> bool {
        self == other
    }
}

impl Same for Fattr {
    fn is_same(&self, other: &Fattr) -> bool {
        self == other
    }
}

impl Same for FileHandle {
    fn is_same(&self, other: &FileHandle) -> bool {
        self == other
    }
}

impl Same for LockDenied {
    fn is_same(&self, other: &LockDenied) -> bool {
        self == other
    }
}

impl Same for Lockt {
    fn is_same(&self, other: &Lockt) -> bool {
        self == other
    }
}

impl Same for Locku {
    fn is_same(&self, other: &Locku) -> bool {
        self == other
    }
}

impl Same for OpenConfirm {
    fn is_same(&self, other: &OpenConfirm) -> bool {
        self == other
    }
}

impl Same for OpenDowngrade {
    fn is_same(&self, other: &OpenDowngrade) -> bool {
        self == other
    }
}

impl Same for Read {
    fn is_same(&self, other: &Read) -> bool {
        self == other
    }
}

impl Same for ReadOk {
    fn is_same(&self, other: &ReadOk) -> bool {
        self == other
    }
}

impl Same for Readdir {
    fn is_same(&self, other: &Readdir) -> bool {
        self == other
    }
}

impl Same for ReleaseLockowner {
    fn is_same(&self, other: &ReleaseLockowner) -> bool {
        self == other
    }
}

impl Same for Renew {
    fn is_same(&self, other: &Renew) -> bool {
        self == other
    }
}

impl Same for Setattr {
    fn is_same(&self, other: &Setattr) -> bool {
        self == other
    }
}

impl Same for SetattrResult {
    fn is_same(&self, other: &SetattrResult) -> bool {
        self == other
    }
}

impl Same for Setclientid {
    fn is_same(&self, other: &Setclientid) -> bool {
        self == other
    }
}

impl Same for SetclientidConfirm {
    fn is_same(&self, other: &SetclientidConfirm) -> bool {
        self == other
    }
}

impl Same for Stateid {
    fn is_same(&self, other: &Stateid) -> bool {
        self == other
    }
}

impl Same for Verifier {
    fn is_same(&self, other: &Verifier) -> bool {
        self == other
    }
}

impl Same for Write {
    fn is_same(&self, other: &Write) -> bool {
        self == other
    }
}

impl Same for WriteOk {
    fn is_same(&self, other: &WriteOk) -> bool {
        self == other
    }
}
