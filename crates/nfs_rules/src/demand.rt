//! What an operation demands of the state that its stateid names.

ghost use Rattle.std.specs.Prelude.{◌≡◌};
ghost use Rattle.nfs_rules.specs.Stateids.{any_open, any_state, confirmed_open, delegation, delegation_of, lock_state};

use nfs_xdr::ClientId;

/// The kinds of state that an operation works on.
#[derive(Clone, Copy)]
pub struct Kinds {
    pub opens: bool,
    pub locks: bool,
    pub delegations: bool,
}

/// What an operation demands of the state that its stateid names.
#[derive(Clone, Copy)]
pub struct Demand {
    /// The node of the current filehandle, whose file has to be the state's.
    pub node: u32,
    pub kinds: Kinds,
    /// An unconfirmed owner's open is accepted as well.
    pub also_unconfirmed: bool,
    /// The client whose state it has to be, if not any client's is accepted.
    pub client: Option<ClientId>,
}

impl Demand {
    /// An open of the node's file, whose owner is confirmed.
    pub(crate) fn confirmed_open(node: u32) -> Demand
        ensures { result ≡ confirmed_open node }
    {
        Demand {
            node,
            kinds: Kinds {
                opens: true,
                locks: false,
                delegations: false,
            },
            also_unconfirmed: false,
            client: None,
        }
    }

    /// An open of the node's file, whether its owner is confirmed or not.
    pub(crate) fn any_open(node: u32) -> Demand
        ensures { result ≡ any_open node }
    {
        Demand {
            node,
            kinds: Kinds {
                opens: true,
                locks: false,
                delegations: false,
            },
            also_unconfirmed: true,
            client: None,
        }
    }

    /// A lock state of the node's file.
    pub(crate) fn lock_state(node: u32) -> Demand
        ensures { result ≡ lock_state node }
    {
        Demand {
            node,
            kinds: Kinds {
                opens: false,
                locks: true,
                delegations: false,
            },
            also_unconfirmed: false,
            client: None,
        }
    }

    /// A delegation of the node's file.
    pub(crate) fn delegation(node: u32) -> Demand
        ensures { result ≡ delegation node }
    {
        Demand {
            node,
            kinds: Kinds {
                opens: false,
                locks: false,
                delegations: true,
            },
            also_unconfirmed: false,
            client: None,
        }
    }

    /// An open of the node's file whose owner is confirmed, a lock state or a delegation of it.
    pub(crate) fn any_state(node: u32) -> Demand
        ensures { result ≡ any_state node }
    {
        Demand {
            node,
            kinds: Kinds {
                opens: true,
                locks: true,
                delegations: true,
            },
            also_unconfirmed: false,
            client: None,
        }
    }

    /// A delegation of the node's file that this client has.
    pub(crate) fn delegation_of(client: ClientId, node: u32) -> Demand
        ensures { result ≡ delegation_of client node }
    {
        Demand {
            client: Some(client),
            ..Demand::delegation(node)
        }
    }
}
