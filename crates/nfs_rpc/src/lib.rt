//! RPC over a stream (RFC 5531): records of bytes, the calls in them, the replies to these, and calls to clients.
#![tactic(auto)]

mod auth_sys;
mod callback_call;
mod callback_reply;
mod credential;
mod numbers;
mod place;
mod recall;
mod records;
mod reply;
mod rpc_call;
mod unfinished;
mod universal_address;

pub use auth_sys::{GID_LIMIT, MACHINE_NAME_LIMIT};
pub use callback_call::{CALLBACK_VERSION, CB_COMPOUND, CB_NULL, OP_CB_RECALL, write_null_call};
pub use callback_reply::{CallbackReply, read_cb_reply};
pub use credential::{AUTH_NONE, AUTH_SYS, BODY_LIMIT};
pub use numbers::numbers_of_messages;
pub use recall::{Recall, write_recall_call};
pub use records::{
    HEADER_LEN, LAST_FRAGMENT, RECORD_LIMIT, RecordError, Records, one_split, split_goes_on,
};
pub use reply::{
    ACCEPTED_GARBAGE_ARGS, ACCEPTED_LEN, ACCEPTED_PROC_UNAVAIL, ACCEPTED_PROG_MISMATCH,
    ACCEPTED_PROG_UNAVAIL, ACCEPTED_SUCCESS, ACCEPTED_SYSTEM_ERR, AUTH_BADCRED, CompoundReply,
    DENIED_AUTH_ERROR, DENIED_RPC_MISMATCH, MESSAGE_REPLY, REPLY_ACCEPTED, REPLY_DENIED, Reply,
    SHORT_REPLY_LEN, write_reply,
};
pub use rpc_call::{
    MESSAGE_CALL, NFS_PROGRAM, NFS_VERSION, PROC_COMPOUND, PROC_NULL, RPC_VERSION, RpcCall,
    one_call, read_call,
};
pub use universal_address::socket_address;
