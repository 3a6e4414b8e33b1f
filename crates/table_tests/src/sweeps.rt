//! A sweep between whose look and closing a worker renews the lease. Its other answers are in rows.

ghost use Rattle.std.specs.Prelude.{IfSome, IsTrue};
ghost use Rattle.nfs_tree.specs.Profiles.{has_entry};
ghost use Rattle.nfs_tree.specs.declared.profile.Profile.{Profile};

use crate::renewing::Renewing;
use nfs_core::Core;
use nfs_leases::{LeaseBook, LeasedCore, Swept};
use nfs_operations::setclientid::Setclientid;
use nfs_operations::setclientid_confirm::SetclientidConfirm;
use nfs_state::{Moment, Request, Seeds};
use nfs_tree::Tree;
use nfs_xdr::{Address, Answer, Callback, Op, OpResult, Principal, Refusal, Verifier};
use std::alloc::Global;
use std::process::Abort;
use std::test::Fail;
use xdr::{Bytes, Opaque};

/// SETCLIENTID of this id; none where memory was refused.
fn setclientid(alloc: Global, id: &[u8]) -> Option<Setclientid> {
    let address = Address {
        netid: Bytes::copy_of(alloc, b"tcp").ok()?,
        addr: Bytes::copy_of(alloc, b"127.0.0.1.8.1").ok()?,
    };
    Some(Setclientid {
        verifier: Verifier([1; 8]),
        id: Opaque::copy_of(alloc, id).ok()?,
        callback: Callback {
            program: 0x4000_0000,
            address,
            ident: 1,
        },
    })
}

/// SETCLIENTID of this id, which is asked for once more where memory was refused.
fn introduction(alloc: Global, id: &[u8]) -> Option<Op>
    ensures { IfSome result (λ op. (profile : Profile) → IsTrue (has_entry profile op)) }
{
    let arguments = match setclientid(alloc, id) {
        None => setclientid(alloc, id)?,
        Some(arguments) => arguments,
    };
    Some(Op::Setclientid(arguments))
}

/// A core that no client has come to, with lease words in which a worker renews behind the sweep's back; none where
/// memory was refused.
fn start(alloc: Global, seeds: Seeds) -> Option<LeasedCore<Renewing>> {
    let tree = Tree::from_toml(alloc, "file = [{ path = \"a\" }]").ok()?;
    let Ok(book) = Renewing::new(alloc, 90) else {
        return None;
    };
    let Ok(core) = Core::new(alloc, &tree, 90, 7, tree.policy(), seeds) else {
        return None;
    };
    Some(LeasedCore::new(core, book))
}

/// A core as `start` makes it, which is tried a second time if memory was refused.
fn started(alloc: Global, seeds: &Seeds) -> Option<LeasedCore<Renewing>> {
    match start(alloc, *seeds) {
        None => start(alloc, *seeds),
        some => some,
    }
}

/// The answer to the operation at the moment 100, which is asked once more where memory was refused.
fn answer_to<B: LeaseBook>(leased: &mut LeasedCore<B>, op: &Op) -> OpResult
    requires entry { (profile : Profile) → IsTrue (has_entry profile op.now) }
{
    match answer_once(leased, op) {
        (answer, true) => answer,
        (_, false) => answer_once(leased, op).0,
    }
}

/// The answer to the operation at the moment 100, and whether it has an entry.
fn answer_once<B: LeaseBook>(leased: &mut LeasedCore<B>, op: &Op) -> (OpResult, bool)
    requires entry { (profile : Profile) → IsTrue (has_entry profile op.now) }
{
    let moment = Moment::new(100).unwrap();
    let Ok(request) = Request::of_copy(moment, Principal::AuthSys(1), op, None) else {
        return (op.opnum().refusal(Refusal::Resource), false);
    };
    let (answer, entered) = leased.call(request);
    (answer, entered.is_some())
}

/// The client with this id becomes live.
fn come<B: LeaseBook>(rt: &impl Abort, leased: &mut LeasedCore<B>, introduction: &Op)
    requires entry { (profile : Profile) → IsTrue (has_entry profile introduction.now) }
{
    let Some(args) = introduce(leased, introduction) else {
        panic!(rt; "no client");
    };
    assert!(rt; confirm(leased, args));
}

// The client is introduced. Returns what confirms it.
fn introduce<B: LeaseBook>(
    leased: &mut LeasedCore<B>,
    introduction: &Op,
) -> Option<SetclientidConfirm>
    requires entry { (profile : Profile) → IsTrue (has_entry profile introduction.now) }
{
    introduced(&answer_to(leased, introduction))
}

// Whether the client is confirmed by this.
fn confirm<B: LeaseBook>(leased: &mut LeasedCore<B>, args: SetclientidConfirm) -> bool {
    let confirmation = Op::SetclientidConfirm(args);
    is_confirmed(&answer_to(leased, &confirmation))
}

/// What confirms the client that was introduced with this answer.
fn introduced(answer: &OpResult) -> Option<SetclientidConfirm> {
    match answer {
        OpResult::Setclientid(Answer::Done(args)) => Some(*args),
        _ => None,
    }
}

fn is_confirmed(answer: &OpResult) -> bool {
    matches!(answer, OpResult::SetclientidConfirm(Answer::Done(())))
}

/// The client's lease is renewed after the look, and so the client stays. Without room for its end it isn't asked to
/// close, and the next sweep comes when the lease is over again.
fn change(rt: &impl Abort, leased: &mut LeasedCore<Renewing>) {
    let mut swept = leased.sweep(Moment::new(191).unwrap());
    if swept.refused == 1 {
        swept = leased.sweep(Moment::new(300).unwrap());
    }
    assert!(rt;
        swept
            == Swept {
                changed: 1,
                ..Swept::NONE
            }
    );
    assert!(rt; leased.core.live(1));
}

#[test]
fn a_renewal_between_look_and_close(rt: HostRuntime) -> Result<(), Fail> {
    let seeds = Seeds::new(&rt)?;
    let mut leased = started(rt.alloc(), &seeds).ok_or("a core")?;
    let end = come_and_change(&rt, rt.alloc(), &mut leased);
    drop(leased);
    end
}

fn come_and_change(
    rt: &impl Abort,
    alloc: Global,
    leased: &mut LeasedCore<Renewing>,
) -> Result<(), Fail> {
    let first = introduction(alloc, b"a").ok_or("a client")?;
    come(rt, leased, &first);
    change(rt, leased);
    Ok(())
}
