//! Entries of a COMPOUND's list, of which the first that can't be run ends the list.

ghost use Rattle.std.specs.Prelude.{◌≡◌, IfOk};
ghost use Rattle.nfs_xdr.specs.ArgOp as arg_ops;
ghost use Rattle.nfs_xdr.specs.ArgOp.{IsEncodedAt, arg_op_at, arg_op_of, or_bad_arguments};
ghost use Rattle.nfs_xdr.specs.Op.{op_case};
ghost use Rattle.xdr.specs.Switch.{case_at};

use crate::{Op, Opnum, Unsupported};
use std::alloc::{AllocError, Global};
use xdr::{WireError, read_u32};

/// An entry in the list of a COMPOUND: an operation to run, or an entry that ends the list because it can't be run.
#[derive(Clone, Drop)]
pub enum ArgOp {
    Run(Op),
    /// The arguments of this operation can't be read. It is `Opnum::Illegal` if even the operation's number can't.
    BadArgs(Opnum),
    /// This server doesn't implement the operation.
    Unsupported(Unsupported),
    /// A number that no operation has.
    Illegal(u32),
}

impl ArgOp {
    /// Whether the entry ends the list: it isn't run, and nothing after it is read.
    pub fn ends_list(&self) -> bool
        ensures { result ≡ arg_ops.ends_list self.now }
    {
        match self {
            ArgOp::Run(_) => false,
            ArgOp::BadArgs(_) | ArgOp::Unsupported(_) | ArgOp::Illegal(_) => true,
        }
    }
}

/// The entry at the front of the list, and the bytes after it. Fails only if memory runs out: an entry that can't be
/// read ends the list instead.
pub fn read_op(alloc: Global, bytes: &[u8]) -> Result<(ArgOp, &[u8]), AllocError>
    ensures encoded { IfOk result (λ x. IsEncodedAt bytes.now x.0 x.1.now) }
    ensures reads { IfOk result (λ x. (x.0, x.1.now) ≡ arg_op_at bytes.now) }
{
    op_from(alloc, bytes)
}

fn op_from(alloc: Global, bytes: &[u8]) -> Result<(ArgOp, &[u8]), AllocError>
    ensures { IfOk result (λ x. (x.0, x.1.now) ≡ arg_op_at bytes.now) }
{
    match read_u32(bytes) {
        Ok((number, rest)) => read_numbered(alloc, number, rest),
        Err(_) => Ok((ArgOp::BadArgs(Opnum::Illegal), bytes)),
    }
}

fn read_numbered(alloc: Global, number: u32, bytes: &[u8]) -> Result<(ArgOp, &[u8]), AllocError>
    ensures { IfOk result (λ x. (x.0, x.1.now) ≡ arg_op_of number bytes.now) }
{
    match Opnum::from_number(number) {
        None | Some(Opnum::Illegal) => Ok((ArgOp::Illegal(number), bytes)),
        Some(Opnum::Unsupported(op)) => Ok((ArgOp::Unsupported(op), bytes)),
        Some(opnum) => read_ruled(alloc, opnum, bytes),
    }
}

fn read_ruled(alloc: Global, opnum: Opnum, bytes: &[u8]) -> Result<(ArgOp, &[u8]), AllocError>
    ensures { IfOk result (λ x. (x.0, x.1.now)
        ≡ or_bad_arguments opnum bytes.now (case_at (op_case opnum) bytes.now)) }
{
    match Op::read_arguments(alloc, opnum, bytes) {
        Ok((op, rest)) => Ok((ArgOp::Run(op), rest)),
        Err(WireError::Memory) => Err(AllocError),
        Err(_) => Ok((ArgOp::BadArgs(opnum), bytes)),
    }
}
