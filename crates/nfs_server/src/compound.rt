//! Runs a COMPOUND: operation by operation, up to the first failure or the reply's size limit.

ghost use Rattle.std.specs.Prelude.{◌≡◌, ◌+◌, ◌-◌, ◌^◌, ◌<◌, ◌≤◌, true, false, max, List, [], map, length, vec_capacity, IsOk, None, OnOk};
ghost use Rattle.std.specs.List.{All, flat_map};
ghost use Rattle.nfs_server.specs.Answering.{compound_outcome, compound_reply, head_size, is_ok, last_status, operations_of, opnum_in, request_status};
ghost use Rattle.nfs_tree.specs.Exports.{export_seen};
ghost use Rattle.nfs_tree.specs.Profiles as profiles;
ghost use Rattle.nfs_server.specs.Asking.{Asks, question_of};
ghost use Rattle.nfs_rpc.specs.Reply.{written_compound_reply};
ghost use Rattle.nfs_rpc.specs.RpcCall.{HasFewOperations, IsWithinLimits};
ghost use Rattle.nfs_tree.specs.Filehandles.{AreNodes};
ghost use Rattle.nfs_server.specs.Folding.{IsAllowed, IsAnswered, IsDetermined, asker_of, start};
ghost use Rattle.nfs_xdr.specs.Compound.{compound_result};
ghost use Rattle.nfs_xdr.specs.declared.op_result.OpResult.{OpResult};
ghost use Rattle.nfs_xdr.specs.OpResult.{op_result, status_of};

use crate::Service;
use nfs_core::Moment;
use nfs_rpc::{ACCEPTED_LEN, CompoundReply, RECORD_LIMIT};
use nfs_state::Request;
use nfs_tree::{Export, Filehandles};
use nfs_xdr::{
    ArgOp, Compound, CompoundRequest, OPERATION_LIMIT, Op, OpResult, Opnum, Principal, Refusal,
    Status,
};
use std::alloc::AllocError;
use std::collections::VecDeque;
use xdr::{Bytes, Measure, Sequence, padding_of};

/// A COMPOUND that was answered.
#[derive(Drop)]
pub struct AnsweredCompound {
    pub reply: CompoundReply,
    /// The length of the reply's record.
    pub len: usize,
    /// The operations that were not run, with the memory of all, for the caller to let go when it will.
    pub rest: Option<VecDeque<ArgOp>>,
}

/// Answers a COMPOUND (RFC 7530, section 15.2), operation by operation, up to the first answer other than NFS4_OK. It
/// takes no memory itself. The service has to have room for as many questions as there are operations. `results` has to
/// be empty, with room for the results of as many operations as a COMPOUND may have.
pub fn run_compound<S: Service>(
    service: &mut S,
    export: &Export<'_>,
    moment: Moment,
    principal: Principal,
    compound: Compound,
    mut results: Vec<OpResult>,
) -> AnsweredCompound
    requires limits { IsWithinLimits RECORD_LIMIT compound }
    requires ready { length (operations_of compound.request) ≤ S.room service.old }
    requires serves { S.serves service.old ≡ export_seen export.now }
    requires empty { results.items ≡ [] }
    requires room { OPERATION_LIMIT ≤ vec_capacity results }
    // The service was asked what the COMPOUND asks given its answers, and the reply is the one
    // for these answers.
    ensures answers { (answers : List OpResult)
        × Asks S.gives service.old
        (map (question_of moment principal) (compound_outcome (export_seen export.now) compound answers).asked)
        answers service.new
        × (result.reply ≡ compound_reply (export_seen export.now) compound answers) }
    ensures serves { S.serves service.new ≡ export_seen export.now }
    ensures len { result.len ≡ ACCEPTED_LEN + length (written_compound_reply result.reply) }
    // The reply isn't too long for a record.
    ensures fits { ACCEPTED_LEN + length (written_compound_reply result.reply) ≤ RECORD_LIMIT }
    // The reply fits its form, and so do all of its results.
    ensures form { compound_result.Fits
        (result.reply.status, (result.reply.tag, result.reply.results)) }
{
    let context = Context {
        export,
        moment,
        principal,
    };
    let Compound { tag, request } = compound;
    let head = head_len(&tag);
    let AnsweredRequest { status, len, rest } = answer_request(
        service,
        &context,
        request,
        head,
        &mut results,
    );
    let reply = CompoundReply {
        status,
        tag,
        results: Sequence::new(results),
    };
    AnsweredCompound { reply, len, rest }
}

/// Makes room for the results of a COMPOUND. It takes no memory if there is enough room already, as in the list of
/// results of an earlier reply, which `Sequence::into_vec` returns.
pub(crate) fn make_result_room(results: &mut Vec<OpResult>) -> Result<(), AllocError>
    ensures empty { results.new.items ≡ [] }
    ensures room { OnOk result (OPERATION_LIMIT ≤ vec_capacity results.new) }
    ensures kept { OPERATION_LIMIT ≤ vec_capacity results.old → IsOk result }
    ensures capacity { vec_capacity results.old ≤ vec_capacity results.new }
{
    results.clear();
    results.reserve(OPERATION_LIMIT as usize)
}

/// How many operations of a COMPOUND may be answered one after the other.
pub(crate) fn operation_count(request: &CompoundRequest) -> usize
    requires few { HasFewOperations request.now }
    ensures { result ≡ length (operations_of request.now) }
{
    operations(request).len()
}

// What stays the same for all operations of a COMPOUND.
#[derive(Drop)]
struct Context<'a> {
    export: &'a Export<'a>,
    moment: Moment,
    principal: Principal,
}

// The operations that are answered one after the other: none if the whole COMPOUND is refused.
fn operations(request: &CompoundRequest) -> &[ArgOp]
    requires few { HasFewOperations request.now }
    ensures operations { result.now ≡ operations_of request.now }
    ensures few { length result.now ≤ OPERATION_LIMIT }
{
    match request {
        CompoundRequest::MinorVersion(_) | CompoundRequest::TooMany(_) => &[],
        CompoundRequest::Operations(ops) => ops.as_slice(),
    }
}

// The length of the reply's record before the first result.
#[tactic(auto, unfolding(xdr::specs::Writing::written_opaque, xdr::specs::Writing::written_number))]
fn head_len(tag: &Bytes) -> usize
    requires { length tag.now < 2 ^ 32 }
    ensures size { result ≡ head_size tag.now }
    ensures short { result ≤ length tag.now + 39 }
{
    let len = tag.as_slice().len();
    ACCEPTED_LEN + 4 + 4 + len + padding_of(len) + 4
}

// What a COMPOUND asked for was answered: the status of the reply, the length of its record, and the operations that
// were not run.
#[derive(Drop)]
struct AnsweredRequest {
    status: Status,
    len: usize,
    rest: Option<VecDeque<ArgOp>>,
}

// Answers what a COMPOUND asks for: the operations, one after the other, or nothing if the whole of it is refused. The
// results follow the first `head` bytes of the reply's record.
fn answer_request<S: Service>(
    service: &mut S,
    context: &Context<'_>,
    request: CompoundRequest,
    head: usize,
    results: &mut Vec<OpResult>,
) -> AnsweredRequest
    requires few { head < 2 ^ 40 }
    requires limit { HasFewOperations request }
    requires ready { length (operations_of request) ≤ S.room service.old }
    requires serves { S.serves service.old ≡ export_seen context.now.export.now }
    requires empty { results.old.items ≡ [] }
    requires room { OPERATION_LIMIT ≤ vec_capacity results.old }
    ensures answers { IsDetermined (asker_of S.gives context.now) (start service.old head)
        (operations_of request) results.new.items service.new }
    ensures status { result.status ≡ request_status results.new.items request }
    ensures serves { S.serves service.new ≡ export_seen context.now.export.now }
    ensures len { result.len ≡ head + length (flat_map op_result.encoding results.new.items) }
    ensures fits { result.len ≤ max (head + 12) RECORD_LIMIT }
    ensures form { All op_result.Fits results.new.items }
{
    let ops = match request {
        CompoundRequest::MinorVersion(_) => return refused(Refusal::MinorVersMismatch, head),
        CompoundRequest::TooMany(_) => return refused(Refusal::Resource, head),
        CompoundRequest::Operations(ops) => ops.into_vec(),
    };
    let mut ops = VecDeque::from_vec(ops);
    let len = answer_operations(service, context, &mut ops, head, results);
    AnsweredRequest {
        status: last_status(results.as_slice()),
        len,
        rest: Some(ops),
    }
}

// A COMPOUND that is refused as a whole.
fn refused(refusal: Refusal, head: usize) -> AnsweredRequest
    ensures status { result.status ≡ Status.Refused refusal }
    ensures len { result.len ≡ head }
{
    AnsweredRequest {
        status: Status::Refused(refusal),
        len: head,
        rest: None,
    }
}

// Answers operations, one after the other, up to the first answer other than NFS4_OK. The results follow the first
// `head` bytes of the reply's record. Returns the length of the record with them.
fn answer_operations<S: Service>(
    service: &mut S,
    context: &Context<'_>,
    ops: &mut VecDeque<ArgOp>,
    head: usize,
    results: &mut Vec<OpResult>,
) -> usize
    requires few { head < 2 ^ 40 }
    requires limit { length ops.old.items ≤ OPERATION_LIMIT }
    requires ready { length ops.old.items ≤ S.room service.old }
    requires serves { S.serves service.old ≡ export_seen context.now.export.now }
    requires empty { results.old.items ≡ [] }
    requires room { OPERATION_LIMIT ≤ vec_capacity results.old }
    ensures answers { IsDetermined (asker_of S.gives context.now) (start service.old head)
        ops.old.items results.new.items service.new }
    ensures serves { S.serves service.new ≡ export_seen context.now.export.now }
    ensures len { result ≡ head + length (flat_map op_result.encoding results.new.items) }
    ensures fits { result ≤ max (head + 12) RECORD_LIMIT }
    ensures form { All op_result.Fits results.new.items }
{
    let mut handles = Filehandles::new();
    let mut size = head;
    while let Some(op) = ops.pop_front() {
        let answer = answer_one(service, context, &mut handles, op, size);
        size += answer.written_len();
        let continues = is_ok(&answer);
        results.push_reserved(answer);
        if !continues {
            return size;
        }
    }
    size
}

// The status of the last result, or NFS4_OK without one.
fn last_status(results: &[OpResult]) -> Status
    ensures { result ≡ last_status results.now }
{
    match results.last() {
        Some(answer) => answer.status(),
        None => Status::Ok,
    }
}

// Whether the answer is NFS4_OK.
fn is_ok(answer: &OpResult) -> bool
    ensures { result ≡ is_ok (status_of answer.now) }
{
    matches!(answer.status(), Status::Ok)
}

// Answers an entry of the list, whose result follows the first `size` bytes of the reply's record. What the profile
// answers whatever the arguments are comes first, without any room; it ends the list.
fn answer_one<S: Service>(
    service: &mut S,
    context: &Context<'_>,
    handles: &mut Filehandles,
    op: ArgOp,
    size: usize,
) -> OpResult
    requires few { size < 2 ^ 41 }
    requires ready { 0 < S.room service.old }
    requires serves { S.serves service.old ≡ export_seen context.now.export.now }
    requires nodes { AreNodes context.now.export.now.tree.now handles.old }
    ensures answer { IsAnswered (asker_of S.gives context.now)
        (record { service = service.old; handles = handles.old; size = size }) op
        (record { answer = result; after = handles.new }) service.new }
    ensures ready { S.room service.old ≤ S.room service.new + 1 }
    ensures serves { S.serves service.new ≡ export_seen context.now.export.now }
    ensures nodes { AreNodes context.now.export.now.tree.now handles.new }
    ensures form { op_result.Fits result }
    ensures last { is_ok (status_of result) ≡ false
        → size + length (op_result.encoding result) ≤ max (size + 12) (RECORD_LIMIT - 12) }
    ensures continues { is_ok (status_of result) ≡ true
        → size + length (op_result.encoding result) ≤ RECORD_LIMIT - 12 }
{
    let opnum = opnum_in(&op);
    match context.export.profile.refusal(opnum) {
        Some(refusal) => {
            drop(op);
            opnum.refusal(refusal)
        }
        None => answer_allowed(service, context, handles, op, size),
    }
}

// The operation of an entry of the list.
fn opnum_in(op: &ArgOp) -> Opnum
    ensures { result ≡ opnum_in op.now }
{
    match op {
        ArgOp::Run(op) => op.opnum(),
        ArgOp::BadArgs(opnum) => *opnum,
        ArgOp::Unsupported(op) => Opnum::Unsupported(*op),
        ArgOp::Illegal(_) => Opnum::Illegal,
    }
}

// Answers such an entry that the profile doesn't refuse. An entry that ends the list isn't run, nor is an operation for
// whose answer the reply may not have enough room. The service is asked for one that needs more than the tree; after an
// OPEN that it answers NFS4_OK its file is the current one.
fn answer_allowed<S: Service>(
    service: &mut S,
    context: &Context<'_>,
    handles: &mut Filehandles,
    op: ArgOp,
    size: usize,
) -> OpResult
    requires few { size < 2 ^ 41 }
    requires ready { 0 < S.room service.old }
    requires serves { S.serves service.old ≡ export_seen context.now.export.now }
    requires nodes { AreNodes context.now.export.now.tree.now handles.old }
    requires allowed { profiles.refusal context.now.export.now.profile (opnum_in op) ≡ None }
    ensures answer { IsAllowed (asker_of S.gives context.now)
        (record { service = service.old; handles = handles.old; size = size }) op
        (record { answer = result; after = handles.new }) service.new }
    ensures ready { S.room service.old ≤ S.room service.new + 1 }
    ensures serves { S.serves service.new ≡ export_seen context.now.export.now }
    ensures nodes { AreNodes context.now.export.now.tree.now handles.new }
    ensures form { op_result.Fits result }
    ensures last { is_ok (status_of result) ≡ false
        → size + length (op_result.encoding result) ≤ max (size + 12) (RECORD_LIMIT - 12) }
    ensures continues { is_ok (status_of result) ≡ true
        → size + length (op_result.encoding result) ≤ RECORD_LIMIT - 12 }
{
    let op = match op {
        ArgOp::Run(op) => op,
        ArgOp::BadArgs(opnum) => return opnum.refusal(Refusal::BadXdr),
        ArgOp::Unsupported(op) => return Opnum::Unsupported(op).refusal(Refusal::NotSupp),
        ArgOp::Illegal(_) => return Opnum::Illegal.refusal(Refusal::OpIllegal),
    };
    let opnum = op.opnum();
    if size + opnum.room() > RECORD_LIMIT {
        drop(op);
        return opnum.refusal(Refusal::Resource);
    }
    if op.is_on_tree() {
        let answer = handles.run(context.export, &op);
        drop(op);
        return answer;
    }
    if let Op::Renew(args) = &op {
        return service.renew(context.moment, args.client);
    }
    let mut handles_after = *handles;
    handles_after.follow(context.export.tree, &op);
    let answer = service.call(Request {
        moment: context.moment,
        principal: context.principal,
        op,
        filehandle: handles.current,
    });
    if is_ok(&answer) {
        *handles = handles_after;
    }
    answer
}
