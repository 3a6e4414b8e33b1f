//! What keeps a TOML table from being a tree's document: a key, a value or a word.

use crate::document_lines::{Place, line_of};
use std::alloc::Global;
use std::fmt::{self, Display, Formatter};
use strsim::osa_distance;
use toml::{Table, Value};

// How many edits a misspelt key may be away from the key that is meant.
const EDITS_LIMIT: usize = 2;

const TOP: Place = Place {
    section: "",
    index: 0,
};

const POLICY: Place = Place {
    section: "policy",
    index: 0,
};

/// What is wrong, and where: displayed as `unknown key "txet"; did you mean "text"?`.
#[derive(Clone, Copy)]
pub(crate) struct Misfit<'t> {
    place: Place,
    // The key that is wrong; without it the whole section is.
    key: Option<&'t str>,
    reason: Reason<'t>,
}

#[derive(Clone, Copy)]
enum Reason<'t> {
    // A key that no such section has; which is meant, if it is misspelt; and the keys that there are.
    Unknown(&'t str, Option<&'static str>, &'static [&'static str]),
    // The value of this key has to be such a value.
    NotA(&'t str, &'static str),
    // Each section of this name has to have this key.
    Missing(&'static str, &'static str),
    // The value of this key has to be one of these words.
    NoWord(&'static str, &'static [&'static str]),
}

impl Misfit<'_> {
    /// The number of the line, from 1 on, with what is wrong.
    pub(crate) fn line(&self, text: &str) -> Option<usize> {
        line_of(text, self.place, self.key)
    }
}

impl Display for Misfit<'_> {
    fn fmt<W: fmt::Write>(&self, f: &mut Formatter<W>) -> fmt::Result {
        match self.reason {
            Reason::Unknown(key, Some(meant), _) => {
                write!(f, "unknown key \"{key}\"; did you mean \"{meant}\"?")
            }
            Reason::Unknown(key, None, keys) => {
                write!(f, "unknown key \"{key}\"; there is {}", Quoted(keys))
            }
            Reason::NotA(key, kind) => write!(f, "\"{key}\" has to be {kind}"),
            Reason::Missing(section, key) => write!(f, "[[{section}]] has to have a \"{key}\""),
            Reason::NoWord(key, words) => write!(f, "\"{key}\" has to be {}", Quoted(words)),
        }
    }
}

// Words, displayed in quotes, with "or" between them.
#[derive(Clone, Copy)]
struct Quoted(&'static [&'static str]);

impl Display for Quoted {
    fn fmt<W: fmt::Write>(&self, f: &mut Formatter<W>) -> fmt::Result {
        for (index, word) in self.0.iter().enumerate() {
            if index > 0 {
                f.write_str(" or ")?;
            }
            write!(f, "\"{word}\"")?;
        }
        Ok(())
    }
}

/// What is wrong first: with the keys of the document, its directories, its files, or its policy.
pub(crate) fn misfit_in(alloc: Global, table: &Table) -> Option<Misfit<'_>> {
    let found = unknown_key(alloc, table, TOP, &["directory", "file", "policy"]);
    if found.is_some() {
        return found;
    }
    let found = misfit_in_listing(alloc, table, "directory", &["path"]);
    if found.is_some() {
        return found;
    }
    let found = misfit_in_listing(alloc, table, "file", &["path", "text"]);
    if found.is_some() {
        return found;
    }
    misfit_in_policy(alloc, table)
}

fn misfit_in_listing<'t>(
    alloc: Global,
    table: &'t Table,
    section: &'static str,
    keys: &'static [&'static str],
) -> Option<Misfit<'t>> {
    let value = table.get(section)?;
    let Some(entries) = value.as_array() else {
        return Some(not_a(TOP, section, "an array of tables"));
    };
    for (index, entry) in entries.iter().enumerate() {
        let found = misfit_in_entry(alloc, entry, Place { section, index }, keys);
        if found.is_some() {
            return found;
        }
    }
    None
}

fn misfit_in_entry<'t>(
    alloc: Global,
    entry: &'t Value,
    place: Place,
    keys: &'static [&'static str],
) -> Option<Misfit<'t>> {
    let Some(table) = entry.as_table() else {
        return Some(not_a(TOP, place.section, "an array of tables"));
    };
    let found = unknown_key(alloc, table, place, keys);
    if found.is_some() {
        return found;
    }
    if table.get("path").is_none() {
        return Some(Misfit {
            place,
            key: None,
            reason: Reason::Missing(place.section, "path"),
        });
    }
    for key in keys {
        if table.get(*key).is_some_and(|value| !value.is_str()) {
            return Some(not_a(place, key, "a string"));
        }
    }
    None
}

fn misfit_in_policy(alloc: Global, table: &Table) -> Option<Misfit<'_>> {
    let value = table.get("policy")?;
    let Some(policy) = value.as_table() else {
        return Some(not_a(TOP, "policy", "a table"));
    };
    let keys = &["callbacks", "close_locks", "delegations", "profile"];
    let found = unknown_key(alloc, policy, POLICY, keys);
    if found.is_some() {
        return found;
    }
    for key in keys {
        let words = words_of(key);
        if policy.get(*key).is_some_and(|value| !is_word(value, words)) {
            return Some(Misfit {
                place: POLICY,
                key: Some(key),
                reason: Reason::NoWord(key, words),
            });
        }
    }
    None
}

// The words that this key of the policy can have.
fn words_of(key: &str) -> &'static [&'static str] {
    match key {
        "callbacks" => &["probe", "assume"],
        "close_locks" => &["free", "refuse"],
        "delegations" => &["none", "read", "all"],
        _ => &["plain", "clients"],
    }
}

fn is_word(value: &Value, words: &[&str]) -> bool {
    let Some(word) = value.as_str() else {
        return false;
    };
    words.iter().any(|it| *it == word)
}

fn not_a<'t>(place: Place, key: &'t str, kind: &'static str) -> Misfit<'t> {
    Misfit {
        place,
        key: Some(key),
        reason: Reason::NotA(key, kind),
    }
}

// The first key of the table that isn't among these.
fn unknown_key<'t>(
    alloc: Global,
    table: &'t Table,
    place: Place,
    keys: &'static [&'static str],
) -> Option<Misfit<'t>> {
    for key in table.keys() {
        let key = key.as_str();
        if !keys.iter().any(|it| *it == key) {
            return Some(Misfit {
                place,
                key: Some(key),
                reason: Reason::Unknown(key, meant_by(alloc, key, keys), keys),
            });
        }
    }
    None
}

// The first of these keys that is a few edits away from the misspelt key.
fn meant_by(alloc: Global, key: &str, keys: &'static [&'static str]) -> Option<&'static str> {
    for meant in keys {
        if let Ok(edits) = osa_distance(alloc, key, *meant) {
            if edits <= EDITS_LIMIT {
                return Some(*meant);
            }
        }
    }
    None
}
