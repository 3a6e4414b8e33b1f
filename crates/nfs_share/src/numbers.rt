//! What the indexes from numbers of opens and delegations to nodes ask a file, and changes of a file that tell how many
//! of these there were.

ghost use Rattle.std.specs.Prelude.{◌≡◌, ◌+◌, ◌<◌, ◌≤◌, is_none, length};
ghost use Rattle.nfs_share.specs.Delegations.{is_delegation_numbered, without_lent};
ghost use Rattle.nfs_share.specs.Opens.{IsNewestFor, is_numbered, open_of, with_opening, without};

use crate::{Delegation, FileShare, OpenState, Share};
use nfs_forms::OpenOwner;
use nfs_nodes::Numbered;

/// OPEN of the file, no matter what others deny, where there is room. Tells whether it made an open.
pub(crate) fn grant_in(file: &mut FileShare, owner: OpenOwner, share: Share, number: u32) -> bool
    requires room { 0 < file.old.room }
    requires newest { IsNewestFor owner number file.old.opens }
    ensures opens { file.new.opens ≡ with_opening owner share number file.old.opens }
    ensures delegations { file.new.delegations ≡ file.old.delegations }
    ensures lending { file.old.lending_room ≤ file.new.lending_room }
    ensures made { result ≡ is_none (open_of owner file.old.opens) }
{
    let before = file.len();
    file.grant(owner, share, number);
    before < file.len()
}

/// Removes the open of the file with this number, and tells how many there were.
pub(crate) fn close_in(file: &mut FileShare, number: u32) -> usize
    ensures opens { file.new.opens ≡ without (is_numbered number) file.old.opens }
    ensures delegations { file.new.delegations ≡ file.old.delegations }
    ensures gone { result + length file.new.opens ≡ length file.old.opens }
{
    let before = file.len();
    file.close(number);
    before - file.len()
}

/// Removes the delegation of the file with this number, and tells how many there were.
pub(crate) fn give_back_in(file: &mut FileShare, number: u32) -> usize
    ensures delegations { file.new.delegations
        ≡ without_lent (is_delegation_numbered number) file.old.delegations }
    ensures opens { file.new.opens ≡ file.old.opens }
    ensures room { file.old.lending_room ≤ file.new.lending_room }
    ensures opening { file.old.room ≤ file.new.room }
    ensures gone { result + length file.new.delegations ≡ length file.old.delegations }
{
    let before = file.delegations().len();
    file.give_back(number);
    before - file.delegations().len()
}

impl Numbered<OpenState> for FileShare {
    ghost use Rattle.nfs_share.specs.OpenNodes.{open_number};
    ghost use Rattle.nfs_share.specs.declared.open_state.OpenState.{OpenState};

    ghost State = { OpenState };

    ghost number_of = { open_number };

    ghost states = { λ f. f.opens };

    fn has_number(&self, number: u32) -> bool {
        self.find(number).is_some()
    }
}

impl Numbered<Delegation> for FileShare {
    ghost use Rattle.nfs_share.specs.OpenNodes.{lent_number};
    ghost use Rattle.nfs_share.specs.declared.delegation.Delegation.{Delegation};

    ghost State = { Delegation };

    ghost number_of = { lent_number };

    ghost states = { λ f. f.delegations };

    fn has_number(&self, number: u32) -> bool {
        self.delegation_with_number(number).is_some()
    }
}
