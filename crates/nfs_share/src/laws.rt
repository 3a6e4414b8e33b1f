//! Laws that opens of a file stay compatible, and delegations apart from others' opens.

ghost use Rattle.std.specs.Prelude.{ℕ, Bool, List, [], ◌∷◌, ◌++◌, IsFalse, IsTrue};
ghost use Rattle.nfs_forms.specs.declared.open_owner.OpenOwner.{OpenOwner};
ghost use Rattle.nfs_forms.specs.declared.client_id.ClientId.{ClientId};
ghost use Rattle.nfs_share.specs.Delegations.{can_delegate, first_delegation, has_conflict, with_recalls, without_lent};
ghost use Rattle.nfs_share.specs.Laws.{AllAreCompatible, AreApart, OneEach};
ghost use Rattle.nfs_share.specs.Opens.{with_next_seqid, after_downgrade, is_refused, with_each, with_opening, without};
ghost use Rattle.nfs_share.specs.declared.delegation.Delegation.{Delegation};
ghost use Rattle.nfs_share.specs.declared.delegation.DelegationKind.{DelegationKind};
ghost use Rattle.nfs_share.specs.declared.delegation.FileUse.{FileUse};
ghost use Rattle.nfs_share.specs.declared.delegation.FileUse.TheVariants as uses;
ghost use Rattle.nfs_share.specs.declared.open_state.OpenState.{OpenState};
ghost use Rattle.nfs_share.specs.declared.share.Share.{Share};

/// If all opens of a file are compatible, they stay so: when an OPEN that isn't refused is added, when opens advance or
/// are downgraded, and when opens are removed.
pub fn opens_stay_compatible()
    ensures try_open { (owner : OpenOwner) (share : Share) (number : ℕ)
        (opens : List OpenState) → AllAreCompatible opens →
        IsFalse (is_refused owner share opens) →
        AllAreCompatible (with_opening owner share number opens) }
    ensures advance { (test : OpenState → Bool) (opens : List OpenState) →
        AllAreCompatible opens → AllAreCompatible (with_each test with_next_seqid opens) }
    ensures downgrade { (test : OpenState → Bool) (share : Share) (opens : List OpenState) →
        AllAreCompatible opens → AllAreCompatible (with_each test (after_downgrade share) opens) }
    ensures removal { (test : OpenState → Bool) (opens : List OpenState) →
        AllAreCompatible opens → AllAreCompatible (without test opens) }
{}

/// If no delegation of a file is in the way of an open or a delegation of another client, this stays so: when an OPEN
/// is added that no delegation is in the way of, when opens advance, are downgraded or are removed, when delegations
/// are called back or removed, and when a delegation is lent that may be.
pub fn delegations_stay_apart()
    ensures try_open { (owner : OpenOwner) (share : Share) (number : ℕ)
        (opens : List OpenState) (lent : List Delegation) → AreApart opens lent →
        IsFalse (has_conflict (uses.Open owner.client share) lent) →
        AreApart (with_opening owner share number opens) lent }
    ensures advance { (test : OpenState → Bool) (opens : List OpenState)
        (lent : List Delegation) → AreApart opens lent →
        AreApart (with_each test with_next_seqid opens) lent }
    ensures downgrade { (test : OpenState → Bool) (share : Share) (opens : List OpenState)
        (lent : List Delegation) → AreApart opens lent →
        AreApart (with_each test (after_downgrade share) opens) lent }
    ensures removal { (test : OpenState → Bool) (opens : List OpenState)
        (lent : List Delegation) → AreApart opens lent → AreApart (without test opens) lent }
    ensures recall { (file_use : FileUse) (moment : ℕ)
        (opens : List OpenState) (lent : List Delegation) → AreApart opens lent →
        AreApart opens (with_recalls file_use moment lent) }
    ensures give_back { (test : Delegation → Bool) (opens : List OpenState)
        (lent : List Delegation) → AreApart opens lent → AreApart opens (without_lent test lent) }
    ensures lend { (client : ClientId) (kind : DelegationKind) (number : ℕ)
        (opens : List OpenState) (lent : List Delegation) → AreApart opens lent →
        IsTrue (can_delegate client kind opens lent) →
        AreApart opens (lent ++ first_delegation client kind number ∷ []) }
{}

/// If no client has two of the delegations, this stays so: when they are called back, when some are removed, and when
/// one is lent that may be.
pub fn delegations_stay_single()
    ensures recall { (file_use : FileUse) (moment : ℕ)
        (lent : List Delegation) → OneEach lent →
        OneEach (with_recalls file_use moment lent) }
    ensures give_back { (test : Delegation → Bool) (lent : List Delegation) → OneEach lent →
        OneEach (without_lent test lent) }
    ensures lend { (client : ClientId) (kind : DelegationKind) (number : ℕ)
        (opens : List OpenState) (lent : List Delegation) → OneEach lent →
        IsTrue (can_delegate client kind opens lent) →
        OneEach (lent ++ first_delegation client kind number ∷ []) }
{}
