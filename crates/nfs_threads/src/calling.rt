//! The thread that calls clients back.
ghost use Rattle.std.specs.Prelude.{◌≡◌, IfOk};
ghost use Rattle.nfs_threads.specs.Calling.{HasCalled, probe_of, unused};

use crate::Watcher;
use crate::listening::Setting;
use nfs_callbacks::{CallbackSource, Caller, Fault, MarkError, Probe, TcpNetwork, steps_join};
use nfs_core::{CoreError, Recall};
use nfs_owners::ClientState;
use nfs_shared::{Naming, Sender, Shared};
use nfs_xdr::Callback;
use std::alloc::AllocError;
use std::marker::{Model, PhantomData};
use std::net::Net;
use std::sync::Wait;
use std::thread::Promise;
use std::time::{Clock as Timer, Duration};

// For how many milliseconds a look waits at most.
const LOOK_MILLIS: u64 = 100;

/// The state that threads share, as the callback thread asks it. The handle by which it may wait for the lock is part
/// of it, as it is asked without one. Contracts see what its sender took and knows.
#[derive(Drop)]
pub(crate) struct SharedSource<'a, N: Naming, R: Wait, W: Watcher> {
    rt: &'a R,
    shared: &'a Shared<N>,
    sender: Sender<N>,
    watcher: &'a W,
}

impl<'a, N: Naming, R: Wait, W: Watcher> Model for SharedSource<'a, N, R, W> {
    ghost use Rattle.nfs_shared.specs.Sender.{SenderView};

    ghost Value = { SenderView };

    ghost view = { λ s. s.sender };
}

impl<N: Naming, R: Wait, W: Watcher> CallbackSource for SharedSource<'_, N, R, W> {
    ghost use Rattle.nfs_threads.specs.Calling.{IsAnswered};

    ghost answers = { IsAnswered N.start };

    fn take(&mut self) -> Option<Recall> {
        self.shared.take(self.rt, &mut self.sender)
    }

    fn probe(&mut self, after: u32) -> Result<Option<Probe>, AllocError> {
        let Some(client) = self.shared.probe(self.rt, &mut self.sender, after)? else {
            return Ok(None);
        };
        match probe_in(&client) {
            Ok(probe) => Ok(Some(probe)),
            Err(error) => Err(error),
        }
    }

    fn is_live(&mut self, client: u32) -> bool {
        self.shared.is_live(self.rt, &mut self.sender, client)
    }

    fn has_callback(&mut self, client: u32, callback: &Callback) -> bool {
        let sender = &mut self.sender;
        self.shared.is_called_by(self.rt, sender, client, callback)
    }

    fn has_delegation(&mut self, recall: &Recall) -> bool {
        let sender = &mut self.sender;
        self.shared.has_delegation(self.rt, sender, recall.stateid)
    }

    fn mark(
        &mut self,
        client: u32,
        callback: &Callback,
        reached: Result<(), Fault>,
    ) -> Result<(), MarkError> {
        let up = reached.is_ok();
        let sender = &mut self.sender;
        let marked = match self
            .shared
            .mark_called(self.rt, sender, client, callback, up)
        {
            Ok(marked) => marked,
            Err(CoreError::Memory) => return Err(MarkError::Later),
            Err(CoreError::Full) => return Err(MarkError::Never),
            // A client that is called back so is live.
            Err(CoreError::NotLive | CoreError::NotDue) => unreachable!(),
        };
        let Some(_) = marked else {
            return Ok(());
        };
        if let Err(fault) = reached {
            self.watcher.tell_path_down(client, callback, fault);
        }
        Ok(())
    }

    fn notice(&mut self, client: u32, callback: &Callback) {
        self.watcher.tell_no_reply(client, callback);
    }
}

// The number of the client, and a copy of how it is called back.
fn probe_in(client: &ClientState) -> Result<Probe, AllocError>
    ensures { IfOk result (λ probe. probe ≡ probe_of client.now) }
{
    Ok(Probe {
        client: client.client.number,
        callback: client.callback.as_callback().clone()?,
    })
}

/// Calls clients back until the end of the connections is told, and gives the sender back. What waits then is left.
pub(crate) fn call_back_until<N: Naming, R: Net + Wait + Timer, W: Watcher>(
    setting: &Setting<'_, R, W>,
    shared: &Shared<N>,
    sender: Sender<N>,
) -> Sender<N>
    requires unused { sender ≡ unused }
    ensures { HasCalled N.start result }
{
    let rt = setting.rt;
    let Some(net) = network_until(setting) else {
        return sender;
    };
    // Without a waker the end is seen when a look is over.
    if let Ok(waker) = net.waker() {
        setting.bell.wake_by(rt, waker);
    }
    let source = SharedSource {
        rt,
        shared,
        sender,
        watcher: setting.watcher,
    };
    let mut caller = Caller::new(setting.alloc, source, net);
    steps_join::<SharedSource<'_, N, R, W>, TcpNetwork<'_, R>>();
    'looks: for _ in rt.forever() {
        if setting.bell.is_rung() {
            break;
        }
        caller.look(rt, Duration::from_millis(LOOK_MILLIS));
    }
    let (source, _) = caller.into_parts();
    let SharedSource {
        rt: _,
        shared: _,
        sender,
        watcher: _,
    } = source;
    sender
}

// What connections go over. Where the system refuses it, it is asked again, until the end of the connections is told.
fn network_until<'a, R: Net + Wait + Timer, W>(
    setting: &Setting<'a, R, W>,
) -> Option<TcpNetwork<'a, R>> {
    for _ in setting.rt.forever() {
        if let Ok(net) = TcpNetwork::new(setting.alloc, setting.rt) {
            return Some(net);
        }
        let most = Duration::from_millis(LOOK_MILLIS);
        if setting.bell.wait(setting.rt, most) {
            return None;
        }
    }
    unreachable!()
}

/// What is promised of the callback thread's result: that it called clients back with the sender.
#[derive(Drop)]
pub(crate) struct CallingPromise<N: Naming> {
    run: PhantomData<N>,
}

impl<N: Naming> CallingPromise<N> {
    pub(crate) fn new() -> CallingPromise<N> {
        CallingPromise { run: PhantomData }
    }
}

impl<N: Naming> Promise<Sender<N>> for CallingPromise<N> {
    ghost kept_by = { λ p sender. HasCalled N.start sender };
}
