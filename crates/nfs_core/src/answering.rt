//! Entering a request with its answer in the journal.

ghost use Rattle.std.specs.Prelude.{◌≡◌, ◌≤◌, IfErr, IfOk, OnErr};
ghost use Rattle.nfs_core.specs.Following.{IsNext, StoreAgrees};
ghost use Rattle.nfs_core.specs.Entered.{IsEntered};
ghost use Rattle.nfs_core.specs.Server.{AreAlike, server_of};
ghost use Rattle.nfs_state.specs.Entries.{entry_of};
ghost use Rattle.nfs_state.specs.Room.{state_of};
ghost use Rattle.nfs_state.specs.Store.{OwnersAgree};

use crate::Entered;
use crate::committing::commit;
use crate::holdings::Holdings;
use nfs_rules::Decision;
use nfs_state::{Call, Entry, Request, Shortage, copy_of_answer};
use nfs_xdr::OpResult;
use std::alloc::Global;

/// Enters the request with the answer that was decided, and returns the answer, and what came of it. Fails for want of
/// memory alone.
pub(crate) fn enter_decided(
    alloc: Global,
    held: &mut Holdings,
    request: Request,
    decision: Decision,
) -> Result<(OpResult, Entered), Shortage>
    requires next { IsNext held.old.store.journal.history (state_of held.old.store.tables)
        (entry_of request decision.answer) decision.effect }
    requires stored { StoreAgrees held.old.store }
    ensures answer { IfOk result (λ r. r.0 ≡ decision.answer) }
    ensures entered { IfOk result (λ r. IsEntered (server_of held.old) (server_of held.new)
        (entry_of request r.0) r.1) }
    ensures kept { OwnersAgree held.new.store }
    ensures memory { IfErr result (λ e. e ≡ Shortage.Memory) }
    ensures same { OnErr result (AreAlike (server_of held.old) (server_of held.new)) }
    ensures room { OnErr result (held.old.store.journal.room ≤ held.new.store.journal.room) }
{
    match copy_of_answer(&decision.answer) {
        Ok(copy) => {
            let Decision { answer, effect } = decision;
            let live = effect.live();
            let call = Call {
                request,
                answer: copy,
            };
            match commit(alloc, held, Entry::Call(call), effect) {
                Ok(number) => Ok((answer, Entered { number, live })),
                Err(shortage) => {
                    drop(answer);
                    Err(shortage)
                }
            }
        }
        Err(_) => {
            drop(request);
            drop(decision);
            Err(Shortage::Memory)
        }
    }
}
