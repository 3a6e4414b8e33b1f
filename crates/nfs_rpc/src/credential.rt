//! Reads credentials and verifiers, and turns a credential into the principal that it authenticates.

ghost use Rattle.std.specs.Prelude.{◌≡◌};
ghost use Rattle.nfs_rpc.specs.AuthSys.{auth_sys};
ghost use Rattle.nfs_rpc.specs.Credential.{opaque_auth, principal_of, user_of};
ghost use Rattle.xdr.specs.Reading.{Answers, as_value};

use crate::auth_sys::read_uid;
use nfs_xdr::Principal;
use xdr::{WireError, read_opaque, read_u32};

/// The flavors of credentials that the server accepts (RFC 5531, section 8.2).
pub const AUTH_NONE: u32 = 0;

pub const AUTH_SYS: u32 = 1;

/// The greatest length of the body of a credential or a verifier, in bytes.
pub const BODY_LIMIT: u32 = 400;

// The principal of a credential, or `None` if the server doesn't accept its flavor or can't read its body.
pub(crate) fn read_credential(bytes: &[u8]) -> Result<(Option<Principal>, &[u8]), WireError>
    ensures { Answers (λ x. (x.0, x.1.now)) result
        (as_value principal_of opaque_auth.at bytes.now) }
{
    let ((flavor, body), rest) = read_opaque_auth(bytes)?;
    Ok((principal_of(flavor, body), rest))
}

// The flavor and the body of a credential or a verifier.
pub(crate) fn read_opaque_auth(bytes: &[u8]) -> Result<((u32, &[u8]), &[u8]), WireError>
    ensures { Answers (λ x. ((x.0.0, x.0.1.now), x.1.now)) result (opaque_auth.at bytes.now) }
{
    let (flavor, rest) = read_u32(bytes)?;
    let (body, rest) = read_opaque(rest, BODY_LIMIT)?;
    Ok(((flavor, body), rest))
}

fn principal_of(flavor: u32, body: &[u8]) -> Option<Principal>
    ensures { result ≡ principal_of (flavor, body.now) }
{
    match flavor {
        AUTH_NONE => Some(Principal::AuthNone),
        AUTH_SYS => user_of(body),
        _ => None,
    }
}

fn user_of(body: &[u8]) -> Option<Principal>
    ensures { result ≡ user_of (auth_sys.at body.now) }
{
    match read_uid(body) {
        Ok((uid, _)) => Some(Principal::AuthSys(uid)),
        Err(_) => None,
    }
}
