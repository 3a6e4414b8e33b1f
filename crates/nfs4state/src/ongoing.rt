//! `serve --until-input-ends` and `--until-killed`: serves until the run is ended, keeps the journal as it goes, and
//! writes lines.

ghost use Rattle.std.specs.Prelude.{◌≡◌, [], ℕ, IfSome, IsFalse};
ghost use Rattle.nfs_owners.specs.Registry.{is_live};

use crate::journal_place::{JournalPlace, OngoingFile};
use crate::listening::Listening;
use crate::part_file::PartDraft;
use crate::report;
use nfs_core::{Core, Journal};
use nfs_journal::AuditError;
use nfs_options::{ServeOptions, Until};
use nfs_orders::Answer;
use nfs_program::{
    Answers, Beginning, Fault, LineKind, Lines, Reporter, Teller, answers_to, end_ongoing_run,
    file_buffer, lines_to,
};
use nfs_threads::{Door, Orders, RunEnd, Shift, accept_for, close_at_end, serve_through};
use nfs_tree::Tree;
use std::alloc::{AllocError, Global};
use std::io::Eprint;
use std::net::{Net, TcpListener, TcpStream};
use std::sync::{Arc, Wait};
use std::thread::Threads;
use std::time::{Clock, Duration};

// How many milliseconds the end of a run waits for its last lines at most, and for its last answers.
const LAST_LINES_MILLIS: u64 = 1_000;

// A run that goes on, its lines, and its answers, if it goes by orders.
#[derive(Drop)]
struct Ongoing<'a, R> {
    rt: &'a HostRuntime,
    threads: &'a R,
    options: &'a ServeOptions<'a>,
    lines: &'a Lines,
    answers: &'a Option<Arc<Answers, Global>>,
}

/// Serves one connection after the other, as many at once as the options say, until what they name ends the run. Its
/// lines are written by a thread of their own, so that nothing waits for standard error, but the end for a second at
/// most. So are the answers to its orders, on standard output.
pub(crate) fn serve_ongoing<
    R: Threads
        + Wait
        + Clock
        + Net<Listener = TcpListener, Stream = TcpStream>
        + Copy
        + Send
        + Sync
        + 'static,
>(
    rt: &HostRuntime,
    threads: R,
    options: &ServeOptions<'_>,
    listening: Listening,
    core: Core,
    tree: &Tree,
) -> u8
    requires empty { core.journal.entries ≡ [] }
    requires nobody { (number : ℕ) → IsFalse (is_live number core.stored.clients) }
    requires nodes { core.journal.nodes ≡ tree.now.nodes }
{
    let Ok(lines) = lines_to(rt.alloc(), threads, rt.stderr()) else {
        drop(core);
        return report(rt, Fault::NoMemory);
    };
    let Ok(answers) = answers_of(rt, threads, options) else {
        drop(core);
        return report(rt, Fault::NoMemory);
    };
    let run = Ongoing {
        rt,
        threads: &threads,
        options,
        lines: &lines,
        answers: &answers,
    };
    let status = run.serve(listening, core, tree);
    let most = Duration::from_millis(LAST_LINES_MILLIS);
    if let Some(answers) = &answers {
        answers.finish(&threads, most);
    }
    lines.finish(&threads, most);
    status
}

// The answers of the run, if it goes by orders.
fn answers_of<R: Threads + Wait + Clock + Copy + Send + Sync + 'static>(
    rt: &HostRuntime,
    threads: R,
    options: &ServeOptions<'_>,
) -> Result<Option<Arc<Answers, Global>>, AllocError> {
    match options.until {
        Some(Until::OrdersEnd) => Ok(Some(answers_to(rt.alloc(), threads, rt.stdout())?)),
        _ => Ok(None),
    }
}

impl<
    'a,
    R: Threads
        + Wait
        + Clock
        + Net<Listener = TcpListener, Stream = TcpStream>
        + Copy
        + Send
        + Sync
        + 'static,
> Ongoing<'a, R> {
    // Serves until the run ends, and tells the fault, if it has one. Returns the program's exit status.
    fn serve(&self, listening: Listening, core: Core, tree: &Tree) -> u8
        requires empty { core.journal.entries ≡ [] }
        requires nobody { (number : ℕ) → IsFalse (is_live number core.stored.clients) }
        requires nodes { core.journal.nodes ≡ tree.now.nodes }
    {
        let Ok(mut buffer) = file_buffer(self.rt.alloc(), &self.options.journal) else {
            drop(core);
            return self.report_no_memory();
        };
        match self.journal_place() {
            Ok(place) => self.serve_into(&place, &mut buffer, listening, core, tree),
            Err(fault) => {
                drop(core);
                report(&self.teller(LineKind::Run), fault)
            }
        }
    }

    // The place of the journal, if it is to be written, which was tried.
    fn journal_place(&self) -> Result<Option<JournalPlace<'a, 'a>>, Fault> {
        match self.options.journal {
            Some(path) => {
                let teller = self.teller(LineKind::Journal);
                Ok(Some(JournalPlace::new(self.rt, path, &teller)?))
            }
            None => Ok(None),
        }
    }

    // Serves likewise, with the journal at this place.
    fn serve_into(
        &self,
        place: &Option<JournalPlace<'a, 'a>>,
        buffer: &mut Vec<u8>,
        listening: Listening,
        core: Core,
        tree: &Tree,
    ) -> u8
        requires empty { core.journal.entries ≡ [] }
        requires nobody { (number : ℕ) → IsFalse (is_live number core.stored.clients) }
        requires nodes { core.journal.nodes ≡ tree.now.nodes }
    {
        let alloc = self.rt.alloc();
        let mut journal = journal_of(place, self.teller(LineKind::Journal));
        let Ok(beginning) = beginning_of(alloc, place, core.journal()) else {
            drop(core);
            return self.report_no_memory();
        };
        listening.tell(&self.teller(LineKind::Run), self.rt, tree, self.options);
        let memory = self.options.memory;
        let answers = self.answers.as_deref();
        let reporter = Reporter::new(self.threads, self.lines, answers, beginning, memory);
        let Ok(door) = self.open_door(listening.listener) else {
            drop(core);
            let _ = reporter.end(None);
            return self.report_no_memory();
        };
        match serve_through(alloc, self.threads, &door, &reporter, core, tree) {
            Ok(run) => {
                self.tell_no_connection(&run);
                let status = end_ongoing_run(buffer, &run, reporter, &mut journal);
                self.answer_end(&door);
                drop(run);
                status
            }
            Err(core) => {
                drop(core);
                let _ = reporter.end(None);
                self.report_no_memory()
            }
        }
    }

    // The door for the connections of this listener, which is closed by what is to end the run.
    fn open_door(&self, listener: TcpListener) -> Result<Arc<Door, Global>, AllocError> {
        let (threads, options) = (*self.threads, self.options);
        let alloc = self.rt.alloc();
        let orders = match options.until {
            Some(Until::OrdersEnd) => Some(Orders::new(alloc)?),
            _ => None,
        };
        let door = Arc::new(alloc, Door::new(options.connections, orders))?;
        if !accept_for(threads, listener, Arc::try_clone(&door)?) {
            return Err(AllocError);
        }
        if options.until != Some(Until::Killed)
            && !close_at_end(threads, self.rt.stdin(), Arc::try_clone(&door)?)
        {
            return Err(AllocError);
        }
        Ok(door)
    }

    // Answers the order that ended the run, if one did.
    fn answer_end(&self, door: &Door) {
        if let Some(answers) = self.answers.as_deref() {
            if door.is_end_ordered(self.threads) {
                answers.tell(self.threads, self.lines, Answer::Ended);
            }
        }
    }

    // Where the input ended before any connection came, a line says which option doesn't look at it.
    fn tell_no_connection(&self, run: &RunEnd) {
        let is_unused = |shift: &Shift| shift.connections.is_empty();
        if self.options.until == Some(Until::InputEnds) && run.shifts.iter().all(is_unused) {
            let teller = self.teller(LineKind::Run);
            let _ = eprintln!(teller;
                "the input ended before a connection came; `--until-killed` doesn't look at it"
            );
        }
    }

    fn report_no_memory(&self) -> u8 {
        report(&self.teller(LineKind::Run), Fault::NoMemory)
    }

    // What tells the lines of this kind.
    fn teller(&self, kind: LineKind) -> Teller<'a, R> {
        Teller::new(self.threads, self.lines, kind)
    }
}

// The journal's file at its place, if it has one, which isn't touched yet. What is wrong with it goes to `errors`.
fn journal_of<'f, 'a, E: Eprint + Drop>(
    place: &'f Option<JournalPlace<'a, 'a>>,
    errors: E,
) -> Option<OngoingFile<'f, 'a, 'a, E>>
    ensures { IfSome result (λ file. file.failures ≡ 0) }
{
    match place {
        Some(place) => Some(place.file(errors)),
        None => None,
    }
}

// The beginning of the journal, if its file is to be kept as it goes.
fn beginning_of<'f, 'a>(
    alloc: Global,
    place: &'f Option<JournalPlace<'a, 'a>>,
    journal: &Journal,
) -> Result<Option<Beginning<'f, PartDraft<'f, 'a>>>, AuditError>
    requires none { journal.now.history.entries ≡ [] }
{
    let Some(part) = place.as_ref().and_then(|place| place.part()) else {
        return Ok(None);
    };
    let beginning = Beginning::new(alloc, part.name(), PartDraft::new(part), journal)?;
    Ok(Some(beginning))
}
