//! Renewals beside a hold of the lock.

ghost use Rattle.std.specs.Prelude.{◌<◌, [], IfSome, IsTrue};
ghost use Rattle.nfs_shared.specs.Ends.{AreFresh, IsKept};
ghost use Rattle.nfs_shared.specs.Naming.{CanBegin};
ghost use Rattle.nfs_tree.specs.Profiles.{has_entry};
ghost use Rattle.nfs_tree.specs.declared.profile.Profile.{Profile};

use nfs_core::{Core, Moment, Seeds};
use nfs_operations::release_lockowner::ReleaseLockowner;
use nfs_operations::setclientid::Setclientid;
use nfs_server::Service;
use nfs_shared::{Naming, Opened, Seat, Shared, SharedParts, Sweeper, sweep_held};
use nfs_state::Request;
use nfs_threads::Desk;
use nfs_tree::Tree;
use nfs_xdr::{Address, Answer, Callback, ClientId, LockOwner, Op, OpResult, Principal, Verifier};
use std::alloc::Global;
use std::marker::Brand;
use std::random::RandomSource;
use std::sync::Wait;
use std::sync::atomic::{AtomicU32, Ordering};
use std::thread;
use std::thread::Threads;
use std::time::{Clock as Sleeper, Duration};
use xdr::{Bytes, Opaque};

// How far the two threads are. The desk's client is there.
const CLIENT_IS_THERE: u32 = 1;
// The other thread has the lock.
const LOCK_IS_HELD: u32 = 2;
// The desk has answered RENEW, and is asked for an operation that waits for the lock.
const RENEW_IS_ANSWERED: u32 = 3;

// How often a thread looks whether the other one is so far, with a sleep of a millisecond each time.
const TURNS: u32 = 10_000;

// What was seen while one thread had the lock.
#[derive(Clone, Copy, Debug, PartialEq, Eq)]
struct Seen {
    // Whether the desk answered RENEW.
    renew_is_answered: bool,
    // Whether a sweep behind the end of the client's lease kept the client, for whom an operation waited.
    client_is_kept: bool,
}

// What is seen; none where memory or a thread was refused.
fn seen_beside<R: Threads + Wait + Sleeper + RandomSource + Sync>(
    rt: &R,
    alloc: Global,
) -> Option<Seen> {
    let tree = Tree::from_toml(alloc, "file = [{ path = \"a\" }]").ok()?;
    let Ok(opened) = Opened::new(alloc, 90, 1) else {
        return None;
    };
    let Ok(seeds) = Seeds::new(rt) else {
        return None;
    };
    let Ok(core) = Core::new(alloc, &tree, 90, 7, tree.policy(), seeds) else {
        return None;
    };
    seen_in::<Brand, R>(rt, alloc, opened, core)
}

// What `seen_beside` sees, in a run that is named `N`.
fn seen_in<N: Naming + Send + Sync, R: Threads + Wait + Sleeper + Sync>(
    rt: &R,
    alloc: Global,
    opened: Opened,
    core: Core,
) -> Option<Seen>
    requires beginning { CanBegin N.run N.start opened core }
{
    match Shared::<N>::new(alloc, opened, core) {
        Ok(parts) => seen_at(rt, alloc, parts),
        Err(core) => {
            drop(core);
            None
        }
    }
}

// What `seen_beside` sees of the shared state that these parts make.
fn seen_at<N: Naming + Send + Sync, R: Threads + Wait + Sleeper + Sync>(
    rt: &R,
    alloc: Global,
    parts: SharedParts<N>,
) -> Option<Seen>
    requires fresh { AreFresh N.run.words N.run.workers parts.seats.items }
{
    let SharedParts {
        shared,
        mut seats,
        sweeper,
        sender: _,
    } = parts;
    let seen = match seats.pop() {
        Some(seat) => seen_by_two(rt, alloc, &shared, seat, sweeper, &AtomicU32::new(0)),
        None => None,
    };
    drop(shared);
    seen
}

// One thread is at the desk, and another one has a hold of the lock meanwhile.
fn seen_by_two<N: Naming + Send + Sync, R: Threads + Wait + Sleeper + Sync>(
    rt: &R,
    alloc: Global,
    shared: &Shared<N>,
    seat: Seat<N>,
    sweeper: Sweeper<N>,
    stage: &AtomicU32,
) -> Option<Seen>
    requires unused { IsKept seat [] }
{
    thread::scope(
        thread::scope_env(),
        rt,
        |scope| -> Option<Seen>
            requires { IsKept seat [] }
        {
            let desk = scope.spawn(move || ask_at_desk(rt, alloc, shared, seat, stage));
            let seen = hold_beside(rt, shared, sweeper, stage);
            match desk {
                Ok(handle) => {
                    handle.join(rt);
                    seen
                }
                Err(_) => None,
            }
        },
    )
}

// Has the lock until the desk in another thread has answered RENEW, and a second longer, in which it is asked for an
// operation. Then a sweep comes when the lease that the client had before is over.
fn hold_beside<N: Naming, R: Wait + Sleeper>(
    rt: &R,
    shared: &Shared<N>,
    sweeper: Sweeper<N>,
    stage: &AtomicU32,
) -> Option<Seen> {
    let mut sweeper = sweeper;
    let behind_the_end = Moment::new(191)?;
    if !is_reached(rt, stage, CLIENT_IS_THERE) {
        return None;
    }
    let mut hold = shared.hold(rt);
    stage.store(LOCK_IS_HELD, Ordering::SeqCst);
    let renew_is_answered = is_reached(rt, stage, RENEW_IS_ANSWERED);
    thread::sleep(rt, Duration::from_millis(1000));
    let swept = sweep_held(&mut *hold.guard, &mut sweeper, behind_the_end);
    drop(hold);
    Some(Seen {
        renew_is_answered,
        client_is_kept: swept.kept == 1,
    })
}

// Waits until the other thread is so far, but not for long.
fn is_reached<R: Sleeper>(rt: &R, stage: &AtomicU32, wanted: u32) -> bool {
    for _ in 0..TURNS {
        if stage.load(Ordering::SeqCst) >= wanted {
            return true;
        }
        thread::sleep(rt, Duration::from_millis(1));
    }
    false
}

// A client is at a desk, while another thread has the lock.
fn ask_at_desk<'a, N: Naming, R: Wait + Sleeper>(
    rt: &'a R,
    alloc: Global,
    shared: &'a Shared<N>,
    seat: Seat<N>,
    stage: &AtomicU32,
)
    requires unused { IsKept seat [] }
{
    let mut desk = Desk::new(alloc, rt, shared, seat);
    let _ = ask_beside_hold(rt, alloc, &mut desk, stage);
    drop(desk.into_parts());
}

// A client comes to a desk. While another thread has the lock, the desk answers RENEW, alone and twice in a batch; then
// it is asked for an operation, when the lease would be over had nobody asked.
fn ask_beside_hold<S: Service, R: Sleeper>(
    rt: &R,
    alloc: Global,
    desk: &mut S,
    stage: &AtomicU32,
) -> Option<()> {
    let moment = Moment::new(100)?;
    let behind_the_end = Moment::new(191)?;
    let client = come(alloc, desk, moment)?;
    let release = release_of(alloc, client)?;
    stage.store(CLIENT_IS_THERE, Ordering::SeqCst);
    if !is_reached(rt, stage, LOCK_IS_HELD) {
        return None;
    }
    drop(desk.renew(moment, client));
    desk.begin_batch();
    drop(desk.renew(moment, client));
    drop(desk.renew(moment, client));
    desk.end_batch();
    stage.store(RENEW_IS_ANSWERED, Ordering::SeqCst);
    drop(ask(desk, behind_the_end, release));
    Some(())
}

// A client becomes live.
fn come<S: Service>(alloc: Global, desk: &mut S, moment: Moment) -> Option<ClientId> {
    let introduction = introduction(alloc)?;
    let OpResult::Setclientid(Answer::Done(args)) = ask(desk, moment, introduction)? else {
        return None;
    };
    drop(ask(desk, moment, Op::SetclientidConfirm(args)));
    Some(args.client)
}

// What is answered to an operation at this moment, in a batch, as a connection asks; none where memory was refused.
fn ask<S: Service>(desk: &mut S, moment: Moment, op: Op) -> Option<OpResult>
    requires entry { (profile : Profile) → IsTrue (has_entry profile op) }
{
    desk.room(1).ok()?;
    desk.begin_batch();
    let answer = desk.call(Request {
        moment,
        principal: Principal::AuthSys(1),
        op,
        filehandle: None,
    });
    desk.end_batch();
    Some(answer)
}

// SETCLIENTID.
fn introduction(alloc: Global) -> Option<Op>
    ensures { IfSome result (λ op. (profile : Profile) → IsTrue (has_entry profile op)) }
{
    let address = Address {
        netid: Bytes::copy_of(alloc, b"tcp").ok()?,
        addr: Bytes::copy_of(alloc, b"127.0.0.1.8.1").ok()?,
    };
    Some(Op::Setclientid(Setclientid {
        verifier: Verifier([1; 8]),
        id: Opaque::copy_of(alloc, b"a").ok()?,
        callback: Callback {
            program: 0x4000_0000,
            address,
            ident: 1,
        },
    }))
}

// RELEASE_LOCKOWNER of an owner of the client.
fn release_of(alloc: Global, client: ClientId) -> Option<Op>
    ensures { IfSome result (λ op. (profile : Profile) → IsTrue (has_entry profile op)) }
{
    let name = Opaque::copy_of(alloc, b"owner").ok()?;
    Some(Op::ReleaseLockowner(ReleaseLockowner {
        owner: LockOwner { client, name },
    }))
}

#[test]
fn renew_beside_hold(rt: HostRuntime) {
    assert_eq!(&rt;
        seen_beside(&rt, rt.alloc()),
        Some(Seen {
            renew_is_answered: true,
            client_is_kept: true
        })
    );
}
