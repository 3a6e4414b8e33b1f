//! Serves connections over memory as it is told, with a core of its own or with a state that threads share, and tells
//! what came of them. It is told by standard input, and tells by standard output, each order before it reads the next.
#![tactic(auto)]

mod alone;
mod answer;
mod batch;
mod calls;
mod connection;
mod failure;
mod head;
mod input;
mod memory_link;
mod order;
mod outcome;
mod rising;
mod seats_back;
mod session;
mod sweeping;
mod together;
mod way;
mod workers;
mod yielding;

use crate::alone::serve_alone;
use crate::answer::Answer;
use crate::failure::Failure;
use crate::head::Head;
use crate::session::Session;
use crate::together::serve_together;
use crate::way::Way;
use nfs_core::{Core, Journal, Seeds};
use nfs_tree::{Tree, TreeError};
use std::io::{Read, Write};
use std::process::ExitCode;
use std::sync::Wait;
use std::thread::Threads;

/// `rows < ORDERS > ANSWERS`: the status is 0, or with a line on standard error 2.
fn main(rt: HostRuntime) -> ExitCode {
    match rows(&rt, &rt) {
        Ok(()) => ExitCode::from(0),
        Err(failure) => {
            // There is nobody left to tell that this line isn't written either.
            let _ = eprintln!(rt; "rows: {failure}");
            ExitCode::from(2)
        }
    }
}

// `threads` is what threads are started and waited for by.
fn rows<R: Threads + Wait + Sync>(rt: &HostRuntime, threads: &R) -> Result<(), Failure> {
    let alloc = rt.alloc();
    let mut session = Session::new(alloc, rt.stdin(), rt.stdout())?;
    let head = Head::read(&mut session.input)?;
    let seeds = Seeds::new(rt)?;
    match Tree::from_toml(alloc, head.document.as_str()) {
        Ok(tree) => serve(threads, &mut session, &head, &tree, seeds),
        Err(TreeError::Memory) => Err(Failure::Memory),
        Err(refused) => session.tell_word(refused.number()),
    }
}

// Tells that the tree is one, serves it as the head says, and tells the journal.
fn serve<R: Threads + Wait + Sync, I: Read + Drop, O: Write + Drop>(
    threads: &R,
    session: &mut Session<I, O>,
    head: &Head,
    tree: &Tree,
    seeds: Seeds,
) -> Result<(), Failure> {
    session.tell_word(0)?;
    let (alloc, policy) = (session.alloc, tree.policy());
    let Ok(core) = Core::new(alloc, tree, head.lease, head.epoch, policy, seeds) else {
        return Err(Failure::Memory);
    };
    let core = match head.way {
        Way::Alone => serve_alone(session, tree, core)?,
        Way::Together => serve_together(threads, session, tree, core, head.seats)?,
    };
    let told = tell_journal(session, core.journal());
    drop(core);
    told
}

fn tell_journal<I: Read + Drop, O: Write + Drop>(
    session: &mut Session<I, O>,
    journal: &Journal,
) -> Result<(), Failure> {
    let mut answer = Answer::new(session.alloc);
    answer.put_journal(journal)?;
    session.tell(&answer)
}
