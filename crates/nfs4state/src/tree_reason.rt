//! Why a tree's document is refused, and where, for the line before the fault: by a second look at its text.

use crate::document_lines::{headers_of, line_at, up_to_section};
use crate::misfit::misfit_in;
use crate::told::tell;
use nfs_tree::{Tree, TreeError};
use std::alloc::Global;
use std::io::Eprint;
use std::str;

/// Tells by a line on `errors` why the bytes of this file make no tree: `files.toml:3: unknown key "txet"; did you mean
/// "text"?`.
pub(crate) fn tell_refused_tree<E: Eprint>(
    alloc: Global,
    errors: &E,
    path: &str,
    bytes: &[u8],
    refused: TreeError,
) {
    match str::from_utf8(bytes) {
        Err(error) => {
            let line = line_at(bytes, error.valid_up_to());
            let _ = eprintln!(errors; "{path}:{line}: a byte isn't UTF-8");
        }
        Ok(text) if refused == TreeError::Syntax => tell_misfit(alloc, errors, path, text),
        Ok(text) => match refused_section(alloc, text, refused) {
            Some(line) => {
                let _ = eprintln!(errors; "{path}:{line}: {refused}");
            }
            None => tell(errors, path, refused),
        },
    }
}

// Tells why the text is no document of a tree.
fn tell_misfit<E: Eprint>(alloc: Global, errors: &E, path: &str, text: &str) {
    let table = match toml::table_from_str(alloc, text) {
        Ok(table) => table,
        Err(error) => {
            let at = error.span().map_or(0, |span| span.start);
            let (line, why) = (line_at(text.as_bytes(), at), error.message());
            let _ = eprintln!(errors; "{path}:{line}: {why}");
            return;
        }
    };
    match misfit_in(alloc, &table) {
        None => tell(errors, path, TreeError::Syntax),
        Some(misfit) => match misfit.line(text) {
            Some(line) => {
                let _ = eprintln!(errors; "{path}:{line}: {misfit}");
            }
            None => tell(errors, path, misfit),
        },
    }
}

// The number of the line of the section by which the text is refused so: up to its end it is, and before it isn't.
fn refused_section(alloc: Global, text: &str, refused: TreeError) -> Option<usize> {
    let headers = headers_of(alloc, text).ok()?;
    let headers = headers.as_slice();
    // The section is one from `first` on, and before `end`.
    let (mut first, mut end) = (0usize, headers.len());
    for _ in 0..usize::BITS {
        let middle = first.saturating_add(end.saturating_sub(first) / 2);
        let Some(part) = up_to_section(text, headers, middle) else {
            break;
        };
        if is_refused(alloc, part, refused) {
            end = middle;
        } else {
            first = middle.saturating_add(1);
        }
    }
    let header = headers.get(first)?;
    let part = up_to_section(text, headers, first)?;
    is_refused(alloc, part, refused).then_some(header.line)
}

fn is_refused(alloc: Global, text: &str, refused: TreeError) -> bool {
    Tree::from_toml(alloc, text).is_err_and(|error| error == refused)
}
