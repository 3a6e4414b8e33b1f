//! Tests that two and eight links are served at once, with a receipt for each.

ghost use Rattle.std.specs.Prelude.{◌≡◌, IfSome, length, map};
ghost use Rattle.nfs_threads.specs.Worker.{seats_of};
ghost use Rattle.nfs_shared.specs.Ends.{AreFresh, AreKept};
ghost use Rattle.nfs_shared.specs.Naming.{CanBegin};

use crate::board::Board;
use crate::board_link::BoardLink;
use nfs_core::{Core, Moment, Seeds};
use nfs_server::ServeError;
use nfs_shared::{Naming, Opened, Receipt, Seat, Shared, SharedParts};
use nfs_threads::{NoRetry, WorkerEnd, serve_all, workers_keep_receipts};
use nfs_tree::Tree;
use std::alloc::Global;
use std::marker::Brand;
use std::random::RandomSource;
use std::sync::Wait;
use std::thread::Threads;
use std::time::Clock as Sleeper;

// How many links were served to their end, with a receipt each; in how many a read failed; and how many entries the
// journal has.
#[derive(Clone, Copy, Debug, PartialEq, Eq)]
struct Outcome {
    served: u32,
    read_failures: u32,
    entries: usize,
}

// Serves this number of links at once; none where memory was refused.
fn serve_links<R: Threads + Wait + Sleeper + RandomSource + Sync>(
    rt: &R,
    alloc: Global,
    links: u32,
) -> Option<Outcome> {
    let tree = Tree::from_toml(alloc, "file = [{ path = \"a\" }]").ok()?;
    let Ok(opened) = Opened::new(alloc, 90, links) else {
        return None;
    };
    let Ok(seeds) = Seeds::new(rt) else {
        return None;
    };
    let Ok(core) = Core::new(alloc, &tree, 90, 7, tree.policy(), seeds) else {
        return None;
    };
    serve_links_in::<Brand, R>(rt, alloc, opened, core, &tree)
}

// Serves this number of links at once, in a run that is named `N`.
fn serve_links_in<N: Naming + Send + Sync, R: Threads + Wait + Sleeper + Sync>(
    rt: &R,
    alloc: Global,
    opened: Opened,
    core: Core,
    tree: &Tree,
) -> Option<Outcome>
    requires beginning { CanBegin N.run N.start opened core }
    requires tree { N.start.nodes ≡ tree.now.nodes }
{
    match Shared::<N>::new(alloc, opened, core) {
        Ok(parts) => serve_parts(rt, alloc, parts, tree),
        Err(core) => {
            drop(core);
            None
        }
    }
}

// Serves a link at each seat of the shared state that these parts make.
fn serve_parts<N: Naming + Send + Sync, R: Threads + Wait + Sleeper + Sync>(
    rt: &R,
    alloc: Global,
    parts: SharedParts<N>,
    tree: &Tree,
) -> Option<Outcome>
    requires tree { N.start.nodes ≡ tree.now.nodes }
    requires fresh { AreFresh N.run.words N.run.workers parts.seats.items }
{
    let SharedParts {
        shared,
        seats,
        sweeper,
        sender,
    } = parts;
    match serve_seats(rt, alloc, &shared, seats, tree) {
        Some(
            SeatsBack {
                seats,
                receipts,
                served,
                read_failures,
            },
        ) => {
            let core = shared.end(receipts.as_slice(), seats, sweeper, sender);
            let entries = core.journal().len();
            drop(core);
            Some(Outcome {
                served,
                read_failures,
                entries,
            })
        }
        None => {
            drop(shared);
            None
        }
    }
}

// What came back of the links at some seats.
#[derive(Drop)]
struct SeatsBack<N: Naming> {
    seats: Vec<Seat<N>>,
    receipts: Vec<Vec<Receipt>>,
    served: u32,
    read_failures: u32,
}

// Serves a link at each of the seats.
fn serve_seats<N: Naming + Send + Sync, R: Threads + Wait + Sleeper + Sync>(
    rt: &R,
    alloc: Global,
    shared: &Shared<N>,
    seats: Vec<Seat<N>>,
    tree: &Tree,
) -> Option<SeatsBack<N>>
    requires tree { N.start.nodes ≡ tree.now.nodes }
    requires fresh { AreFresh N.run.words N.run.workers seats.items }
    ensures all { IfSome result (λ back. length back.seats.items ≡ N.run.workers) }
    ensures kept { IfSome result (λ back.
        AreKept back.seats.items (map (λ v. v.items) back.receipts.items)) }
{
    let board = Board::new(alloc, seats.len()).ok()?;
    let links = links_at(alloc, rt, &board, seats)?;
    let Ok(all) = serve_all(alloc, rt, &NoRetry, shared, tree, links) else {
        return None;
    };
    let (served, read_failures) = count(&all);
    let mut shifts = Vec::with_capacity(alloc, all.len()).ok()?;
    let mut seats = Vec::with_capacity(alloc, all.len()).ok()?;
    let mut receipts = Vec::with_capacity(alloc, all.len()).ok()?;
    WorkerEnd::split(all, &mut shifts, &mut seats, &mut receipts);
    workers_keep_receipts::<N, BoardLink<'_, R>>();
    Some(SeatsBack {
        seats,
        receipts,
        served,
        read_failures,
    })
}

// A link for each seat.
fn links_at<'a, N: Naming, R: Sleeper>(
    alloc: Global,
    rt: &'a R,
    board: &'a Board,
    seats: Vec<Seat<N>>,
) -> Option<Vec<(BoardLink<'a, R>, Seat<N>)>>
    ensures { IfSome result (λ links. seats_of links.items ≡ seats.items) }
{
    let moment = Moment::new(100)?;
    let mut links = Vec::new(alloc);
    for seat in seats {
        let place = links.len();
        links
            .push((BoardLink::new(rt, board, place, moment), seat))
            .ok()?;
    }
    Some(links)
}

// How many were served to the end, each with its own receipt, and in how many a read failed.
fn count<N: Naming>(all: &Vec<WorkerEnd<N>>) -> (u32, u32) {
    let mut served = 0u32;
    let mut read_failures = 0u32;
    for end in all.iter() {
        let [connection] = end.shift.connections.as_slice() else {
            continue;
        };
        if connection.result == Ok(0) && end.receipts.len() == 1 {
            served = served.saturating_add(1);
        }
        if connection.result == Err(ServeError::Read) {
            read_failures = read_failures.saturating_add(1);
        }
    }
    (served, read_failures)
}

#[test]
fn two_links_at_once(rt: HostRuntime) {
    let outcome = serve_links(&rt, rt.alloc(), 2);
    assert_eq!(&rt;
        outcome,
        Some(Outcome {
            served: 2,
            read_failures: 0,
            entries: 2
        })
    );
}

#[test]
fn eight_links_at_once(rt: HostRuntime) {
    let outcome = serve_links(&rt, rt.alloc(), 8);
    assert_eq!(&rt;
        outcome,
        Some(Outcome {
            served: 8,
            read_failures: 0,
            entries: 8
        })
    );
}
