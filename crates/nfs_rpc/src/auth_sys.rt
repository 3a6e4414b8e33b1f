//! Reads the user in a credential of AUTH_SYS; the server uses nothing else of such a credential.

ghost use Rattle.std.specs.Prelude.{List, ℕ};
ghost use Rattle.nfs_rpc.specs.AuthSys.{AuthSys, auth_sys, gids};
ghost use Rattle.xdr.specs.Reading.{Answers, as_value};

use xdr::{WireError, read_opaque, read_u32};

/// The greatest length of a machine's name, in bytes (RFC 5531, appendix A).
pub const MACHINE_NAME_LIMIT: u32 = 255;

/// How many groups a user can have, not counting the user's first group.
pub const GID_LIMIT: u32 = 16;

// The user in the body of an AUTH_SYS credential. The rest of the body is read and ignored.
#[tactic(auto, unfolding(crate::specs::AuthSys::auth_sys))]
pub(crate) fn read_uid(body: &[u8]) -> Result<(u32, &[u8]), WireError>
    ensures { Answers (λ x. (x.0, x.1.now)) result
        (as_value (λ (a : AuthSys). a.uid) auth_sys.at body.now) }
{
    let (_, rest) = read_u32(body)?;
    let (_, rest) = read_opaque(rest, MACHINE_NAME_LIMIT)?;
    let (uid, rest) = read_u32(rest)?;
    let (_, rest) = read_u32(rest)?;
    let (_, rest) = pass_gids(rest)?;
    Ok((uid, rest))
}

// Skips the groups.
#[tactic(auto, unfolding(xdr::specs::Reading::many_at, xdr::specs::Reading::number_at))]
fn pass_gids(bytes: &[u8]) -> Result<((), &[u8]), WireError>
    ensures { Answers (λ x. (x.0, x.1.now)) result
        (as_value (λ (numbers : List ℕ). tt) gids.at bytes.now) }
{
    let (count, rest) = read_u32(bytes)?;
    if count > GID_LIMIT {
        return Err(WireError::TooLong);
    }
    let len = 4 * count as usize;
    if rest.len() < len {
        return Err(WireError::Short);
    }
    Ok(((), &rest[len..]))
}
