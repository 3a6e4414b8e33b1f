//! The law that results fit their forms, and that none is longer than its operation's limit.

ghost use Rattle.std.specs.Prelude.{◌≡◌, ℕ, ◌+◌, ◌^◌, ◌<◌, ◌≤◌, length};
ghost use Rattle.nfs_xdr.specs.Opnum.{answer_limit};
ghost use Rattle.nfs_xdr.specs.OpResult.{op_result, opnum_of};
ghost use Rattle.nfs_xdr.specs.Short.{Any, AreFewAttributes, AreFewBytes, AreFewEntries, HasShortName, IsShort, IsShortAddress, IsShortAnswer, SetsFew, SetsNothing};

use crate::op_result::of_answer;
use crate::opnum::each_operation;
use crate::{
    Address, Answer, ClientId, Fattr, FileHandle, LockDenied, OpResult, OpenDelegation, StableHow,
    Stateid, Verifier,
};
use nfs_operations::access::AccessBits;
use nfs_operations::open::OpenOk;
use nfs_operations::read::ReadOk;
use nfs_operations::readdir::ReaddirOk;
use nfs_operations::setattr::SetattrResult;
use nfs_operations::setclientid_confirm::SetclientidConfirm;
use nfs_operations::write::WriteOk;
use xdr::Wire;

/// The data of an answer: it fits its form, and is at most so many bytes long, if what its type doesn't bound is short.
trait Bounded: Wire {
    ghost most: { ℕ };

    ghost IsShort: { Self → Type 0 };

    fn fits(&self)
        requires { IsShort self.now }
        ensures form { Self.form.Fits self.now }
        ensures short { length (Self.form.encoding self.now) ≤ most };
}

impl Bounded for () {
    ghost most = { 0 };

    ghost IsShort = { Any };

    fn fits(&self) {}
}

impl Bounded for u32 {
    ghost most = { 4 };

    ghost IsShort = { Any };

    #[tactic(auto, unfolding(xdr::specs::Writing::written_number))]
    fn fits(&self) {
        is_u32(*self);
    }
}

fn is_u32(number: u32)
    ensures { number < 2 ^ 32 }
{}

impl Bounded for u64 {
    ghost most = { 8 };

    ghost IsShort = { Any };

    #[tactic(auto, unfolding(xdr::specs::Writing::written_number))]
    fn fits(&self) {
        is_u64(*self);
    }
}

fn is_u64(number: u64)
    ensures { number < 2 ^ 64 }
{}

impl Bounded for StableHow {
    ghost most = { 4 };

    ghost IsShort = { Any };

    #[tactic(auto, unfolding(nfs_forms::specs::StableHow::stable_how, xdr::specs::Writing::written_number))]
    fn fits(&self) {}
}

impl Bounded for Verifier {
    ghost most = { 8 };

    ghost IsShort = { Any };

    #[tactic(auto, unfolding(nfs_forms::specs::Verifier::verifier))]
    fn fits(&self) {
        are_eight(self.0);
    }
}

fn are_eight(bytes: [u8; 8])
    ensures { length bytes ≡ 8 }
{}

impl Bounded for ClientId {
    ghost most = { 8 };

    ghost IsShort = { Any };

    #[tactic(auto, unfolding(nfs_forms::specs::ClientId::client_id))]
    fn fits(&self) {
        self.epoch.fits();
        self.number.fits();
    }
}

impl Bounded for Stateid {
    ghost most = { 16 };

    ghost IsShort = { Any };

    #[tactic(auto, unfolding(nfs_forms::specs::Stateid::stateid))]
    fn fits(&self) {
        self.seqid.fits();
        self.client.fits();
        self.number.fits();
    }
}

impl Bounded for AccessBits {
    ghost most = { 8 };

    ghost IsShort = { Any };

    #[tactic(auto, unfolding(nfs_operations::specs::Access::access_bits))]
    fn fits(&self) {
        self.supported.fits();
        self.access.fits();
    }
}

impl Bounded for SetclientidConfirm {
    ghost most = { 16 };

    ghost IsShort = { Any };

    #[tactic(auto, unfolding(nfs_operations::specs::SetclientidConfirm::arguments))]
    fn fits(&self) {
        self.client.fits();
        self.confirm.fits();
    }
}

impl Bounded for FileHandle {
    ghost most = { 136 };

    ghost IsShort = { Any };

    #[tactic(auto, unfolding(xdr::specs::Writing::written_opaque, xdr::specs::Writing::written_number))]
    fn fits(&self) {
        let _bytes = self.as_slice();
    }
}

impl Bounded for Fattr {
    ghost most = { 1_024 };

    ghost IsShort = { AreFewAttributes };

    fn fits(&self) {}
}

impl Bounded for LockDenied {
    ghost most = { 1_060 };

    ghost IsShort = { HasShortName };

    #[tactic(auto, unfolding(nfs_forms::specs::LockDenied::lock_denied, nfs_forms::specs::LockOwner::lock_owner, nfs_forms::specs::LockType::lock_type, xdr::specs::Writing::written_number, xdr::specs::Writing::written_opaque))]
    fn fits(&self) {
        self.offset.fits();
        self.length.fits();
        self.owner.client.fits();
    }
}

impl Bounded for OpenDelegation {
    ghost most = { 52 };

    ghost IsShort = { Any };

    #[tactic(auto, unfolding(nfs_forms::specs::DelegationType::delegation_type, nfs_forms::specs::OpenDelegation::open_delegation, nfs_forms::specs::OpenDelegation::read_delegation, nfs_forms::specs::OpenDelegation::write_delegation, nfs_forms::specs::OpenDelegation::empty_ace, nfs_forms::specs::OpenDelegation::space_limit, xdr::specs::Writing::written_number))]
    fn fits(&self) {
        match self {
            OpenDelegation::None => {}
            OpenDelegation::Read(stateid) | OpenDelegation::Write(stateid) => stateid.fits(),
        }
    }
}

impl Bounded for OpenOk {
    ghost most = { 96 };

    ghost IsShort = { SetsNothing };

    #[tactic(auto, unfolding(nfs_operations::specs::Open::open_ok, nfs_forms::specs::ChangeInfo::change_info, xdr::specs::Writing::written_number))]
    fn fits(&self) {
        self.stateid.fits();
        self.change.before.fits();
        self.change.after.fits();
        self.rflags.fits();
        self.delegation.fits();
    }
}

impl Bounded for ReadOk {
    ghost most = { 65_548 };

    ghost IsShort = { AreFewBytes };

    #[tactic(auto, unfolding(nfs_operations::specs::Read::read_ok, xdr::specs::Writing::written_opaque, xdr::specs::Writing::written_number))]
    fn fits(&self) {}
}

impl Bounded for ReaddirOk {
    ghost most = { 65_536 };

    ghost IsShort = { AreFewEntries };

    fn fits(&self) {}
}

impl Bounded for SetattrResult {
    ghost most = { 16 };

    ghost IsShort = { SetsFew };

    #[tactic(auto, using(crate::proofs::Refusals::set_len, crate::proofs::Refusals::status_fits), unfolding(nfs_operations::specs::Setattr::result, nfs_forms::specs::Status::status))]
    fn fits(&self) {}
}

impl Bounded for WriteOk {
    ghost most = { 16 };

    ghost IsShort = { Any };

    #[tactic(auto, unfolding(nfs_operations::specs::Write::write_ok))]
    fn fits(&self) {
        self.count.fits();
        self.committed.fits();
        self.verifier.fits();
    }
}

impl Bounded for Address {
    ghost most = { 272 };

    ghost IsShort = { IsShortAddress };

    #[tactic(auto, unfolding(nfs_forms::specs::Callback::address, xdr::specs::Writing::written_opaque, xdr::specs::Writing::written_number))]
    fn fits(&self) {}
}

impl<T: Bounded, D: Bounded, C: Bounded> Bounded for Answer<T, D, C> {
    ghost most = { 4 + T.most + D.most + C.most };

    ghost IsShort = { IsShortAnswer T.IsShort D.IsShort C.IsShort };

    #[tactic(auto, using(crate::proofs::Refusals::refusal_fits), unfolding(nfs_forms::specs::Answer::answer, nfs_forms::specs::Status::status, xdr::specs::Writing::written_number))]
    fn fits(&self) {
        match self {
            Answer::Done(value) => value.fits(),
            Answer::Denied(value) => value.fits(),
            Answer::ClidInUse(value) => value.fits(),
            Answer::Refused(_) => {}
        }
    }
}

impl OpResult {
    /// The law that the result fits its form and the room of its operation, if what its type doesn't bound is short.
    #[tactic(auto, using(crate::proofs::Refusals::unsupported_fits, crate::proofs::Refusals::unsupported_len, crate::proofs::Refusals::read_only_fits, crate::proofs::Refusals::read_only_len), unfolding(crate::specs::OpResult::op_result, crate::specs::Opnum::opnum, xdr::specs::Writing::written_number))]
    pub fn fits(&self)
        requires short { IsShort self.now }
        ensures form { op_result.Fits self.now }
        ensures short { length (op_result.encoding self.now) ≤ answer_limit (opnum_of self.now) }
    {
        each_operation!(
            of_answer self, answer => answer.fits();
            OpResult::Unsupported(_) | OpResult::ReadOnly(_) => {},
            OpResult::Illegal(answer) => answer.fits(),
        )
    }
}
