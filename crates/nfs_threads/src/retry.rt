//! Asks the system for a worker's thread again where it was refused.

ghost use Rattle.std.specs.Prelude.{◌≡◌, IfErr, IfOk};

use std::snapshot::Snapshot;
use std::sync::Wait;
use std::thread::{Promise, PromisedHandle, Scope, SpawnError};

/// What a run does where the system makes no thread for a worker.
pub trait Retry {
    /// Is told that a thread was made for the next worker.
    fn note_begun(&self);

    /// Is told that no thread could be made for the next worker. Where there may be one later, this waits for a while,
    /// and returns whether it is to be tried again.
    fn wait_for_thread(&self) -> bool;
}

/// For a run that tries each thread once.
#[derive(Drop)]
pub struct NoRetry;

impl Retry for NoRetry {
    fn note_begun(&self) {}

    fn wait_for_thread(&self) -> bool {
        false
    }
}

/// The promise that another one makes, for as many threads as are tried.
#[derive(Drop)]
pub(crate) struct Again<P> {
    pub(crate) promise: Snapshot<P>,
}

impl<T, P: Promise<T>> Promise<T> for Again<P> {
    ghost kept_by = { λ p r. P.kept_by p.promise.value r };
}

/// Starts a thread of this scope with this promise, and tries it as often as the run does. Where there is no thread in
/// the end, the closure comes back.
pub(crate) fn spawn_again<
    's,
    E,
    R: Wait,
    Y: Retry,
    P: Promise<T>,
    F: FnOnce() -> T + Send + 's,
    T: Send + Drop + 's,
>(
    scope: &Scope<'s, E>,
    rt: &R,
    retry: &Y,
    promise: &P,
    closure: F,
) -> Result<PromisedHandle<T, Again<P>>, SpawnError<F>>
    requires runs { F.pre closure }
    requires keeps { (r : T) → F.post closure r → P.kept_by promise.now r }
    ensures ok { IfOk result (λ handle. handle.promise.promise.value ≡ promise.now) }
    ensures err { IfErr result (λ back. back.value ≡ closure) }
{
    let mut next = closure;
    for _ in rt.forever() {
        let again = Again {
            promise: Snapshot::of(promise),
        };
        match scope.spawn_with(again, next) {
            Ok(handle) => {
                retry.note_begun();
                return Ok(handle);
            }
            Err(back) => next = back.value,
        }
        if !retry.wait_for_thread() {
            break;
        }
    }
    Err(SpawnError { value: next })
}
