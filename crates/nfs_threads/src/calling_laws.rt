//! What the callback thread's steps come to, as laws on each run with a start.
ghost use Rattle.nfs_callbacks.specs.Accounts.{MarksAreEarned};
ghost use Rattle.nfs_shared.specs.Sender.{SenderView};
ghost use Rattle.nfs_threads.specs.Calling.{HasCalled, NoneIsLost, calling};

use crate::calling::SharedSource;
use crate::watcher::Nobody;
use nfs_callbacks::{TcpNetwork, marks_are_earned, nothing_is_lost, nothing_is_overlooked};
use nfs_shared::Naming;
use std::net::Net;
use std::sync::Wait;

/// The law that no recall that the callback thread took is lost, doubled, sent to another client, or sent before an
/// earlier one to the same client: of each client those that were taken are those that have left its line, and then
/// those that are left there.
pub fn recalls_are_followed<N: Naming, R: Net + Wait>()
    ensures { (sender : SenderView) (called : HasCalled N.start sender)
        → NoneIsLost N.start sender called }
{
    nothing_is_lost::<SharedSource<'_, N, R, Nobody>, TcpNetwork<'_, R>>();
    nothing_is_overlooked::<SharedSource<'_, N, R, Nobody>, TcpNetwork<'_, R>>();
}

/// The law that the callback thread marks a client's path, as up or as down for a reason, only after a call to the
/// client that ended so.
pub fn marks_are_of_calls<N: Naming, R: Net + Wait>()
    ensures { MarksAreEarned (calling N.start) }
{
    marks_are_earned::<SharedSource<'_, N, R, Nobody>, TcpNetwork<'_, R>>();
}
