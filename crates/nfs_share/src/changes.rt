//! Changes of single opens and delegations, which borrow only a part of a file's tables.

ghost use Rattle.std.specs.Prelude.{◌≡◌, IfNone, IfSome, None, Some, find};
ghost use Rattle.std.specs.Vec.{vec_capacity};
ghost use Rattle.nfs_rows.specs.Rows.{is_numbered as is_row, value_in};
ghost use Rattle.nfs_share.specs.Delegations.{with_recalls};
ghost use Rattle.nfs_share.specs.KeptOpens.{with_change};
ghost use Rattle.nfs_share.specs.Opens.{after_downgrade, after_open, share_of, with_next_seqid};
ghost use Rattle.nfs_share.specs.declared.open_state.OpenState.{OpenState};

use crate::{Delegation, FileUse, OpenState, Share};
use nfs_forms::Moment;
use nfs_rows::Rows;

/// Adds the share to the open with this number, if there is one, and returns all that the open does and denies then.
pub(crate) fn join_in(opens: &mut Rows<OpenState>, number: u32, share: Share) -> Option<Share>
    ensures rows { opens.new ≡ record opens.old {
      rows = with_change number (after_open share) opens.old.rows;
    } }
    ensures some { IfSome result (λ after. (o : OpenState)
        → Some o ≡ value_in (find (is_row number) opens.old.rows)
        → after ≡ share_of (after_open share o)) }
    ensures none { IfNone result (None ≡ value_in (find (is_row number) opens.old.rows)) }
{
    match opens.find_mut(u64::from(number)) {
        Some(open) => {
            open.join(share);
            Some(open.share())
        }
        None => None,
    }
}

/// Gives the open with this number its next seqid.
pub(crate) fn advance_in(opens: &mut Rows<OpenState>, number: u32)
    ensures { opens.new ≡ record opens.old {
      rows = with_change number with_next_seqid opens.old.rows;
    } }
{
    if let Some(open) = opens.find_mut(u64::from(number)) {
        open.advance();
    }
}

/// Downgrades the open with this number to the share, if there is one, and returns all that the open does and denies
/// then.
pub(crate) fn downgrade_in(opens: &mut Rows<OpenState>, number: u32, share: Share) -> Option<Share>
    ensures rows { opens.new ≡ record opens.old {
      rows = with_change number (after_downgrade share) opens.old.rows;
    } }
    ensures some { IfSome result (λ after. (o : OpenState)
        → Some o ≡ value_in (find (is_row number) opens.old.rows)
        → after ≡ share_of (after_downgrade share o)) }
    ensures none { IfNone result (None ≡ value_in (find (is_row number) opens.old.rows)) }
{
    match opens.find_mut(u64::from(number)) {
        Some(open) => {
            open.downgrade(share);
            Some(open.share())
        }
        None => None,
    }
}

/// Calls back the delegations that are in the way of this use of the file.
pub(crate) fn recall_each(delegations: &mut Vec<Delegation>, file_use: FileUse, moment: Moment)
    ensures items { delegations.new.items ≡ with_recalls file_use moment delegations.old.items }
    ensures capacity { vec_capacity delegations.new ≡ vec_capacity delegations.old }
{
    recall_in(delegations, file_use, moment);
}

fn recall_in(delegations: &mut [Delegation], file_use: FileUse, moment: Moment)
    ensures { delegations.new ≡ with_recalls file_use moment delegations.old }
{
    for lent in delegations.iter_mut() {
        if lent.conflicts(file_use) {
            lent.recall(moment);
        }
    }
}
