//! Principals, by which the server tells whether two calls come from the same user.

ghost use Rattle.std.specs.Prelude.{◌≡◌};

/// Who sends a call: the flavor of its RPC credential, and under AUTH_SYS the uid (RFC 5531, section 8.2).
#[derive(Clone, Copy)]
pub enum Principal {
    /// AUTH_NONE.
    AuthNone,
    /// AUTH_SYS with this uid.
    AuthSys(u32),
}

impl Principal {
    ghost use Rattle.nfs_forms.specs.Principal.{is_same_principal};

    /// Whether the two principals are the same.
    pub fn is(self, other: Principal) -> bool
        ensures { result ≡ is_same_principal self other }
    {
        match (self, other) {
            (Principal::AuthNone, Principal::AuthNone) => true,
            (Principal::AuthSys(a), Principal::AuthSys(b)) => a == b,
            _ => false,
        }
    }
}
