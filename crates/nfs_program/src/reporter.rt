//! The watcher of a run that goes on: it writes lines about the run, and keeps the journal's beginning.

use crate::line::Line;
use crate::shown_bytes::ShownBytes;
use crate::sight::Sight;
use crate::{Answers, Beginning, Draft, Fault, LineKind, Lines, Teller};
use nfs_callbacks::Fault as CallbackFault;
use nfs_core::{Core, Journal};
use nfs_orders::{Answer, OrderError};
use nfs_server::ServeError;
use nfs_threads::{Peer, Watcher};
use nfs_xdr::Callback;
use std::sync::{Mutex, Wait};
use std::time::Clock;

/// Watches a run that goes on: tells by lines what becomes of it, and keeps the beginning of its journal, if that is
/// wanted. It passes the answers to the run's orders on.
#[derive(Drop)]
pub struct Reporter<'a, R, D> {
    rt: &'a R,
    lines: &'a Lines,
    answers: Option<&'a Answers>,
    sight: Mutex<Sight<'a, D>>,
}

impl<'a, R: Wait + Clock, D: Draft + Drop> Reporter<'a, R, D> {
    /// For a run that begins, in which the memory of the entries has a bound of so many MiB, if it has one. Where the
    /// beginning of its journal can't be written, that is told.
    pub fn new(
        rt: &'a R,
        lines: &'a Lines,
        answers: Option<&'a Answers>,
        beginning: Option<Beginning<'a, D>>,
        memory: Option<u32>,
    ) -> Reporter<'a, R, D> {
        let mut sight = Sight::new(beginning, memory);
        let mut text = Line::new();
        sight.tell(&mut text);
        lines.tell(rt, LineKind::Journal, &text);
        Reporter {
            rt,
            lines,
            answers,
            sight: Mutex::new(sight),
        }
    }

    /// Looks once more, when the run has ended: how much memory its entries count, whether a call was refused for that,
    /// and which entries the beginning of the journal lacks. These are written.
    pub(crate) fn look_last(&self, journal: &Journal) {
        let mut sight = self.sight.lock(self.rt);
        sight.look_last(journal);
        let mut text = Line::new();
        sight.tell(&mut text);
        self.lines.tell(self.rt, LineKind::Journal, &text);
    }

    /// Ends with the run. The beginning of the journal is removed, unless this fault kept the journal's file from being
    /// written. How many lines were left out is told. Returns what tells the rest.
    pub fn end(self, unfiled: Option<Fault>) -> Teller<'a, R> {
        let Reporter {
            rt,
            lines,
            answers: _,
            sight,
        } = self;
        if let Some(mut beginning) = sight.into_inner().into_beginning() {
            if unfiled.is_none() {
                beginning.remove();
            }
        }
        lines.tell_left_out(rt);
        Teller::new(rt, lines, LineKind::Run)
    }
}

impl<'a, R: Wait + Clock, D> Reporter<'a, R, D> {
    fn teller(&self, kind: LineKind) -> Teller<'a, R> {
        Teller::new(self.rt, self.lines, kind)
    }

    // Tells why a callback failed; without a fault, that it has had no reply yet.
    fn tell_callback(&self, client: u32, callback: &Callback, fault: Option<CallbackFault>) {
        let teller = self.teller(LineKind::Callback);
        let netid = ShownBytes(callback.address.netid.as_slice());
        let addr = ShownBytes(callback.address.addr.as_slice());
        let _ = match fault {
            Some(fault) => {
                eprintln!(teller; "client {client}: callback to {netid} {addr} failed: {fault}")
            }
            None => {
                eprintln!(teller;
                    "client {client}: callback to {netid} {addr}: no reply for 5 s yet"
                )
            }
        };
    }
}

impl<'a, R: Wait + Clock, D: Draft> Watcher for Reporter<'a, R, D> {
    fn tell_end(&self, peer: Peer, outcome: Result<usize, ServeError>) {
        if let Some(fault) = Fault::of(outcome) {
            let teller = self.teller(LineKind::Connection);
            let (number, address) = (peer.number, peer.address);
            let _ = eprintln!(teller; "connection {number} from {address}: {}", fault.words());
        }
    }

    fn tell_full(&self, workers: u32) {
        let teller = self.teller(LineKind::Run);
        let _ = eprintln!(teller; "no more connections: {workers} of {workers}");
    }

    fn tell_refusal(&self) {
        let teller = self.teller(LineKind::Run);
        let _ = eprintln!(teller; "a connection isn't accepted; it is tried again");
    }

    fn tell_thread_refused(&self, begun: u32, workers: u32) {
        let teller = self.teller(LineKind::Run);
        let _ = eprintln!(teller;
            "no thread for a worker: {begun} of {workers} run; it is tried again each second"
        );
    }

    fn tell_all_begun(&self, workers: u32) {
        let teller = self.teller(LineKind::Run);
        let _ = eprintln!(teller; "all workers run: {workers} of {workers}");
    }

    fn tell_path_down(&self, client: u32, callback: &Callback, fault: CallbackFault) {
        self.tell_callback(client, callback, Some(fault));
    }

    fn tell_no_reply(&self, client: u32, callback: &Callback) {
        self.tell_callback(client, callback, None);
    }

    fn look(&self, core: &Core) -> bool {
        self.sight.lock(self.rt).look(core)
    }

    fn count_written(&self) -> Result<usize, OrderError> {
        self.sight.lock(self.rt).count_written()
    }

    fn tell_answer(&self, answer: Answer) {
        if let Some(answers) = self.answers {
            answers.tell(self.rt, self.lines, answer);
        }
    }

    fn write_down(&self) {
        let mut sight = self.sight.lock(self.rt);
        sight.write();
        let mut text = Line::new();
        sight.tell(&mut text);
        self.lines.tell(self.rt, LineKind::Journal, &text);
    }
}
