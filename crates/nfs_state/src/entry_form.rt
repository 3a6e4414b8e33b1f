//! The entries of a journal as its file has them.

ghost use Rattle.std.specs.Prelude.{◌≡◌};
ghost use Rattle.nfs_state.specs.EntryForm as forms;
ghost use Rattle.nfs_state.specs.EntryForm.{entry_case, filehandle_of, principal_of, words_of_filehandle, words_of_principal};
ghost use Rattle.xdr.specs.Reading.{Gives};
ghost use Rattle.xdr.specs.Switch.{case_at};

use crate::entry_kind::each_kind;
use crate::{Call, Entry, EntryKind, Expire, Forget, Moment, Path, Request, Revoke};
use nfs_forms::OpenOwner;
use nfs_xdr::{Op, OpResult, Principal};
use std::alloc::Global;
use xdr::{Wire, WireError, write_four, write_three, write_two};

impl Wire for Expire {
    ghost form = { forms.expire };

    #[tactic(auto, unfolding(crate::specs::EntryForm::expire))]
    fn read(alloc: Global, bytes: &[u8]) -> Result<(Expire, &[u8]), WireError> {
        let (client, rest) = u32::read(alloc, bytes)?;
        let (seen, rest) = match Moment::read(alloc, rest) {
            Ok(read) => read,
            Err(error) => return Err(error),
        };
        match Moment::read(alloc, rest) {
            Ok((now, rest)) => Ok((Expire { client, seen, now }, rest)),
            Err(error) => Err(error),
        }
    }

    #[tactic(auto, unfolding(crate::specs::EntryForm::expire))]
    fn write(&self, out: &mut Vec<u8>) -> Result<(), WireError> {
        write_three(out, &self.client, &self.seen, &self.now)
    }
}

impl Wire for Revoke {
    ghost form = { forms.revoke };

    #[tactic(auto, unfolding(crate::specs::EntryForm::revoke))]
    fn read(alloc: Global, bytes: &[u8]) -> Result<(Revoke, &[u8]), WireError> {
        let (number, rest) = u32::read(alloc, bytes)?;
        match Moment::read(alloc, rest) {
            Ok((now, rest)) => Ok((Revoke { number, now }, rest)),
            Err(error) => Err(error),
        }
    }

    #[tactic(auto, unfolding(crate::specs::EntryForm::revoke))]
    fn write(&self, out: &mut Vec<u8>) -> Result<(), WireError> {
        write_two(out, &self.number, &self.now)
    }
}

impl Wire for Path {
    ghost form = { forms.path };

    #[tactic(auto, unfolding(crate::specs::EntryForm::path))]
    fn read(alloc: Global, bytes: &[u8]) -> Result<(Path, &[u8]), WireError> {
        let (client, rest) = u32::read(alloc, bytes)?;
        let (up, rest) = bool::read(alloc, rest)?;
        Ok((Path { client, up }, rest))
    }

    #[tactic(auto, unfolding(crate::specs::EntryForm::path))]
    fn write(&self, out: &mut Vec<u8>) -> Result<(), WireError> {
        write_two(out, &self.client, &self.up)
    }
}

impl Wire for Forget {
    ghost form = { forms.forget };

    #[tactic(auto, unfolding(crate::specs::EntryForm::forget))]
    fn read(alloc: Global, bytes: &[u8]) -> Result<(Forget, &[u8]), WireError> {
        let (owner, rest) = OpenOwner::read(alloc, bytes)?;
        match Moment::read(alloc, rest) {
            Ok((now, rest)) => Ok((Forget { owner, now }, rest)),
            Err(error) => Err(error),
        }
    }

    #[tactic(auto, unfolding(crate::specs::EntryForm::forget))]
    fn write(&self, out: &mut Vec<u8>) -> Result<(), WireError> {
        write_two(out, &self.owner, &self.now)
    }
}

impl Wire for Request {
    ghost form = { forms.request };

    #[tactic(auto, unfolding(crate::specs::EntryForm::request, crate::specs::EntryForm::principal, crate::specs::EntryForm::filehandle))]
    fn read(alloc: Global, bytes: &[u8]) -> Result<(Request, &[u8]), WireError> {
        let (moment, rest) = match Moment::read(alloc, bytes) {
            Ok(read) => read,
            Err(error) => return Err(error),
        };
        let (principal, rest) = read_principal(alloc, rest)?;
        let (filehandle, rest) = read_filehandle(alloc, rest)?;
        let (op, rest) = Op::read(alloc, rest)?;
        let request = Request {
            moment,
            principal,
            op,
            filehandle,
        };
        Ok((request, rest))
    }

    #[tactic(auto, unfolding(crate::specs::EntryForm::request, crate::specs::EntryForm::principal, crate::specs::EntryForm::filehandle), using(crate::specs::EntryForm::principal_again, crate::specs::EntryForm::filehandle_again))]
    fn write(&self, out: &mut Vec<u8>) -> Result<(), WireError> {
        let principal = words_of_principal(self.principal);
        let filehandle = words_of_filehandle(self.filehandle);
        write_four(out, &self.moment, &principal, &filehandle, &self.op)
    }
}

// Reads who sent a request.
#[tactic(auto, unfolding(crate::specs::EntryForm::principal))]
fn read_principal(alloc: Global, bytes: &[u8]) -> Result<(Principal, &[u8]), WireError>
    ensures { Gives (λ x. (x.0, x.1.now)) result (forms.principal.at bytes.now) }
{
    let ((has_uid, uid), rest) = <(bool, u32)>::read(alloc, bytes)?;
    match principal_of(has_uid, uid) {
        Some(principal) => Ok((principal, rest)),
        None => Err(WireError::Short),
    }
}

// Reads the node of the current filehandle, if there is one.
#[tactic(auto, unfolding(crate::specs::EntryForm::filehandle))]
fn read_filehandle(alloc: Global, bytes: &[u8]) -> Result<(Option<u32>, &[u8]), WireError>
    ensures { Gives (λ x. (x.0, x.1.now)) result (forms.filehandle.at bytes.now) }
{
    let ((is_present, node), rest) = <(bool, u32)>::read(alloc, bytes)?;
    match filehandle_of(is_present, node) {
        Some(filehandle) => Ok((filehandle, rest)),
        None => Err(WireError::Short),
    }
}

// Who a flavor and a uid stand for; nobody, if a uid comes with AUTH_NONE.
fn principal_of(has_uid: bool, uid: u32) -> Option<Principal>
    ensures { result ≡ principal_of (has_uid, uid) }
{
    if has_uid {
        Some(Principal::AuthSys(uid))
    } else if uid == 0 {
        Some(Principal::AuthNone)
    } else {
        None
    }
}

fn words_of_principal(principal: Principal) -> (bool, u32)
    ensures { result ≡ words_of_principal principal }
{
    match principal {
        Principal::AuthNone => (false, 0),
        Principal::AuthSys(uid) => (true, uid),
    }
}

// The node of a filehandle that is present, or no filehandle; neither, if there is a node without one.
fn filehandle_of(is_present: bool, node: u32) -> Option<Option<u32>>
    ensures { result ≡ filehandle_of (is_present, node) }
{
    if is_present {
        Some(Some(node))
    } else if node == 0 {
        Some(None)
    } else {
        None
    }
}

fn words_of_filehandle(filehandle: Option<u32>) -> (bool, u32)
    ensures { result ≡ words_of_filehandle filehandle }
{
    match filehandle {
        None => (false, 0),
        Some(node) => (true, node),
    }
}

impl Wire for Call {
    ghost form = { forms.call };

    #[tactic(auto, unfolding(crate::specs::EntryForm::call))]
    fn read(alloc: Global, bytes: &[u8]) -> Result<(Call, &[u8]), WireError> {
        let (request, rest) = Request::read(alloc, bytes)?;
        let (answer, rest) = OpResult::read(alloc, rest)?;
        Ok((Call { request, answer }, rest))
    }

    #[tactic(auto, unfolding(crate::specs::EntryForm::call))]
    fn write(&self, out: &mut Vec<u8>) -> Result<(), WireError> {
        write_two(out, &self.request, &self.answer)
    }
}

macro_rules! read_of_kind {
    ([$($Kind:ident = $n:literal),*] $kind:expr, $alloc:expr, $bytes:expr) => {
        match $kind {
            $(EntryKind::$Kind => match $Kind::read($alloc, $bytes) {
                Ok((content, rest)) => Ok((Entry::$Kind(content), rest)),
                Err(error) => Err(error),
            },)*
        }
    };
}

macro_rules! write_of_kind {
    ([$($Kind:ident = $n:literal),*] $entry:expr, $out:expr) => {
        match $entry {
            $(Entry::$Kind(content) => write_two($out, &EntryKind::$Kind, content),)*
        }
    };
}

// Reads an entry of this kind.
fn read_of_kind(alloc: Global, kind: EntryKind, bytes: &[u8]) -> Result<(Entry, &[u8]), WireError>
    ensures { Gives (λ x. (x.0, x.1.now)) result (case_at (entry_case kind) bytes.now) }
{
    each_kind!(read_of_kind kind, alloc, bytes)
}

impl Wire for Entry {
    ghost form = { forms.entry };

    #[tactic(auto, unfolding(crate::specs::EntryForm::entry))]
    fn read(alloc: Global, bytes: &[u8]) -> Result<(Entry, &[u8]), WireError> {
        let (kind, rest) = EntryKind::read(alloc, bytes)?;
        read_of_kind(alloc, kind, rest)
    }

    #[tactic(auto, unfolding(crate::specs::EntryForm::entry))]
    fn write(&self, out: &mut Vec<u8>) -> Result<(), WireError> {
        each_kind!(write_of_kind self, out)
    }
}
