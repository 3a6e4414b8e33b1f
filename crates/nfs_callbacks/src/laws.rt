//! What follows from the steps of a caller, as laws for the crates above.
ghost use Rattle.nfs_callbacks.specs.Accounts.{MarksAreEarned, NothingIsLost, NothingIsOverlooked, StepsJoin};
ghost use Rattle.nfs_callbacks.specs.Steps.{rules};

use crate::{CallbackSource, Network};

/// The law that steps, and then steps, are steps.
pub fn steps_join<S: CallbackSource, D: Network>()
    ensures { StepsJoin (rules S.answers D.carries) }
{}

/// The law that each recall that a source handed over was taken, and no others.
pub fn nothing_is_overlooked<S: CallbackSource, D: Network>()
    ensures { NothingIsOverlooked (rules S.answers D.carries) }
{}

/// The law that no recall that was taken is lost, doubled, sent to another client, or overtaken by a later one.
pub fn nothing_is_lost<S: CallbackSource, D: Network>()
    ensures { NothingIsLost (rules S.answers D.carries) }
{}

/// The law that a path is marked only as a call to it ended, with its reason.
pub fn marks_are_earned<S: CallbackSource, D: Network>()
    ensures { MarksAreEarned (rules S.answers D.carries) }
{}
