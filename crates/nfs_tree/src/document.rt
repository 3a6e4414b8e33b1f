//! Reads the TOML document that `--tree` names, and refuses keys that it doesn't know.

ghost use Rattle.std.specs.Prelude.{◌≡◌, ◌∷◌, [], codes, map, option_map};
ghost use Rattle.std.specs.List.{list_any};
ghost use Rattle.std.specs.Str.{bytes_eq};
ghost use Rattle.nfs_tree.specs.Document.{Reads, callbacks_of, close_locks_of, delegations_of, document_at, document_of, entries_of, entry_of, has_only, entries_in, or_absent, or_missing, policy_of, profile_of, table_of};
ghost use Rattle.toml.specs.Data.{as_str, get_member};
ghost use Rattle.toml.specs.View.{items_view, table_view, view};

use crate::{
    Callbacks, CloseLocks, DEFAULT_POLICY, Delegations, NodeKind, Policy, Profile, TreeEntry,
    TreeError,
};
use std::alloc::Global;
use toml::{Table, Value};
use xdr::{Bytes, Sequence};

/// An array in a document: that of the directories, or that of the files.
#[derive(Clone, Copy)]
pub enum Listing {
    Directories,
    Files,
}

/// What a document contains: its entries, first those of directories, and its policy.
#[derive(Drop)]
pub struct Document {
    pub entries: Sequence<TreeEntry>,
    pub policy: Policy,
}

/// Reads the document in a text; Syntax if there is none.
pub(crate) fn read_document(alloc: Global, text: &str) -> Result<Document, TreeError>
    ensures { Reads result (document_at text.now) }
{
    match toml::table_from_str(alloc, text) {
        Ok(table) => document_of(alloc, &table),
        Err(refused) if refused.is_memory() => Err(TreeError::Memory),
        Err(_) => Err(TreeError::Syntax),
    }
}

// Reads the document in a TOML table.
fn document_of(alloc: Global, table: &Table) -> Result<Document, TreeError>
    ensures { Reads result (document_of (table_view table.now)) }
{
    if !has_only(table, &["directory", "file", "policy"]) {
        return Err(TreeError::Syntax);
    }
    let directories = read_listing(alloc, Listing::Directories, member(table, "directory"))?;
    let files = read_listing(alloc, Listing::Files, member(table, "file"))?;
    let policy = match member(table, "policy") {
        None => DEFAULT_POLICY,
        Some(policy) => read_policy(policy)?,
    };
    let mut entries = directories.into_vec();
    entries.append(&mut files.into_vec())?;
    Ok(Document {
        entries: Sequence::new(entries),
        policy,
    })
}

// Reads the entries of an optional array.
fn read_listing(
    alloc: Global,
    listing: Listing,
    value: Option<&Value>,
) -> Result<Sequence<TreeEntry>, TreeError>
    ensures { Reads result (or_absent [] (entries_in listing)
        (option_map (λ v. view v.now) value.entry)) }
{
    let Some(value) = value else {
        return Ok(Sequence::new(Vec::new(alloc)));
    };
    match value.as_array() {
        Some(array) => read_entries(alloc, listing, array),
        None => Err(TreeError::Syntax),
    }
}

fn read_entries(
    alloc: Global,
    listing: Listing,
    array: &[Value],
) -> Result<Sequence<TreeEntry>, TreeError>
    ensures { Reads result (entries_of listing (items_view array.now)) }
{
    let mut entries = Vec::new(alloc);
    for value in array {
        let entry = read_entry(alloc, listing, value)?;
        entries.reserve(1)?;
        entries.push_reserved(entry);
    }
    Ok(Sequence::new(entries))
}

fn read_entry(alloc: Global, listing: Listing, value: &Value) -> Result<TreeEntry, TreeError>
    ensures { Reads result (entry_of listing (view value.now)) }
{
    match listing {
        Listing::Directories => read_directory(alloc, value),
        Listing::Files => read_file(alloc, value),
    }
}

fn read_directory(alloc: Global, value: &Value) -> Result<TreeEntry, TreeError>
    ensures { Reads result (entry_of Listing.Directories (view value.now)) }
{
    let Some(table) = table_of(value, &["path"]) else {
        return Err(TreeError::Syntax);
    };
    let path = read_bytes(alloc, member(table, "path"))?;
    Ok(TreeEntry {
        path,
        kind: NodeKind::Directory,
    })
}

fn read_file(alloc: Global, value: &Value) -> Result<TreeEntry, TreeError>
    ensures { Reads result (entry_of Listing.Files (view value.now)) }
{
    let Some(table) = table_of(value, &["path", "text"]) else {
        return Err(TreeError::Syntax);
    };
    let path = read_bytes(alloc, member(table, "path"))?;
    let text = match member(table, "text") {
        None => Bytes::new(Vec::new(alloc)),
        text => read_bytes(alloc, text)?,
    };
    Ok(TreeEntry {
        path,
        kind: NodeKind::File(text),
    })
}

fn read_policy(value: &Value) -> Result<Policy, TreeError>
    ensures { Reads result (policy_of (view value.now)) }
{
    let Some(table) = table_of(
        value,
        &["delegations", "callbacks", "close_locks", "profile"],
    ) else {
        return Err(TreeError::Syntax);
    };
    let delegations = match member(table, "delegations") {
        None => Delegations::All,
        Some(word) => read_delegations(word)?,
    };
    let callbacks = match member(table, "callbacks") {
        None => Callbacks::Probe,
        Some(word) => read_callbacks(word)?,
    };
    let close_locks = match member(table, "close_locks") {
        None => CloseLocks::Free,
        Some(word) => read_close_locks(word)?,
    };
    let profile = match member(table, "profile") {
        None => Profile::Plain,
        Some(word) => read_profile(word)?,
    };
    Ok(Policy {
        delegations,
        callbacks,
        close_locks,
        profile,
    })
}

fn read_delegations(value: &Value) -> Result<Delegations, TreeError>
    ensures { Reads result (delegations_of (view value.now)) }
{
    match value.as_str() {
        Some("none") => Ok(Delegations::None),
        Some("read") => Ok(Delegations::Read),
        Some("all") => Ok(Delegations::All),
        _ => Err(TreeError::Syntax),
    }
}

fn read_callbacks(value: &Value) -> Result<Callbacks, TreeError>
    ensures { Reads result (callbacks_of (view value.now)) }
{
    match value.as_str() {
        Some("probe") => Ok(Callbacks::Probe),
        Some("assume") => Ok(Callbacks::Assume),
        _ => Err(TreeError::Syntax),
    }
}

fn read_close_locks(value: &Value) -> Result<CloseLocks, TreeError>
    ensures { Reads result (close_locks_of (view value.now)) }
{
    match value.as_str() {
        Some("free") => Ok(CloseLocks::Free),
        Some("refuse") => Ok(CloseLocks::Refuse),
        _ => Err(TreeError::Syntax),
    }
}

fn read_profile(value: &Value) -> Result<Profile, TreeError>
    ensures { Reads result (profile_of (view value.now)) }
{
    match value.as_str() {
        Some("plain") => Ok(Profile::Plain),
        Some("clients") => Ok(Profile::Clients),
        _ => Err(TreeError::Syntax),
    }
}

// Reads a required string, as bytes.
fn read_bytes(alloc: Global, value: Option<&Value>) -> Result<Bytes, TreeError>
    ensures { Reads result (or_missing as_str (option_map (λ v. view v.now) value.entry)) }
{
    match value.and_then(Value::as_str) {
        Some(text) => Ok(Bytes::copy_of(alloc, text.as_bytes())?),
        None => Err(TreeError::Syntax),
    }
}

// The table that a value is, if it has no keys other than these.
fn table_of<'a>(value: &'a Value, keys: &[&str]) -> Option<&'a Table>
    ensures { option_map (λ t. table_view t.now) result
        ≡ table_of (map (λ k. k.now) keys.now) (view value.now) }
{
    match value.as_table() {
        Some(table) if has_only(table, keys) => Some(table),
        _ => None,
    }
}

// Whether a table has no keys other than these.
fn has_only(table: &Table, keys: &[&str]) -> bool
    ensures { result ≡ has_only (map (λ k. k.now) keys.now) (table_view table.now) }
{
    for (key, _value) in table.iter() {
        if !is_among(keys, key.as_str()) {
            return false;
        }
    }
    true
}

fn is_among(keys: &[&str], key: &str) -> bool
    ensures { result ≡ list_any (bytes_eq key.now) (map (λ k. k.now) keys.now) }
{
    for k in keys {
        if key == *k {
            return true;
        }
    }
    false
}

// The value of a table at a key, if there is one.
fn member<'a>(table: &'a Table, key: &str) -> Option<&'a Value>
    ensures { option_map (λ v. view v.now) result ≡ get_member key.now (table_view table.now) }
{
    table.get(key)
}
