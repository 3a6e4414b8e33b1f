//! What a callback is for, and which bytes call it.
ghost use Rattle.std.specs.Prelude.{◌≡◌, IfOk};
ghost use Rattle.nfs_callbacks.specs.Errands as specs;
ghost use Rattle.nfs_callbacks.specs.Source.{current, due};

use crate::CallbackSource;
use nfs_rpc::{Recall, write_null_call, write_recall_call};
use nfs_xdr::Callback;
use std::alloc::Global;
use xdr::WireError;

/// What a callback to a client is for.
#[derive(Drop)]
pub(crate) enum Errand {
    /// To recall a delegation, by a CB_COMPOUND.
    Recall(Recall),
    /// To learn whether callbacks reach the client, by CB_NULL.
    Null(Callback),
}

impl Errand {
    /// How the client is called.
    pub(crate) fn callback(&self) -> &Callback
        ensures { result.now ≡ specs.callback_of self.now }
    {
        match self {
            Errand::Recall(recall) => &recall.callback,
            Errand::Null(callback) => callback,
        }
    }

    /// Whether the call is a CB_COMPOUND.
    pub(crate) fn is_compound(&self) -> bool
        ensures { result ≡ specs.is_compound self.now }
    {
        matches!(self, Errand::Recall(_))
    }

    /// The record of the call with this xid. It fails only if memory is refused.
    pub(crate) fn call(&self, alloc: Global, xid: u32) -> Result<Vec<u8>, WireError>
        ensures { IfOk result (λ call. call.items ≡ specs.call_of xid self.now) }
    {
        let mut call = Vec::new(alloc);
        match self {
            Errand::Recall(recall) => write_recall_call(&mut call, xid, recall)?,
            Errand::Null(callback) => write_null_call(&mut call, xid, callback.program)?,
        }
        Ok(call)
    }

    /// Whether there is still reason for the call. A recall goes to the callback that it names, even if its client
    /// has another callback by now.
    pub(crate) fn is_due<S: CallbackSource>(&self, client: u32, source: &mut S) -> bool
        ensures { S.answers source.old (due client self.now result) source.new }
    {
        match self {
            Errand::Recall(recall) => source.has_delegation(recall),
            Errand::Null(callback) => source.has_callback(client, callback),
        }
    }

    /// Whether this is still the client's callback.
    pub(crate) fn is_current<S: CallbackSource>(&self, client: u32, source: &mut S) -> bool
        ensures { S.answers source.old (current client self.now result) source.new }
    {
        source.has_callback(client, self.callback())
    }
}
