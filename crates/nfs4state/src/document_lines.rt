//! Where headers and keys stand in a TOML text, so that a line can say where a tree's document is wrong.

use std::alloc::{AllocError, Global};

/// A part of a document: the section of this name that has this index among those of its name. The part before all
/// sections has no name.
#[derive(Clone, Copy)]
pub(crate) struct Place {
    pub(crate) section: &'static str,
    pub(crate) index: usize,
}

// What a line begins.
#[derive(Clone, Copy)]
enum Start<'t> {
    // A section, by its header: `[[file]]`, `[policy]`.
    Section(&'t str),
    Key(&'t str),
    Other,
}

// How far a text is read.
#[derive(Clone, Copy)]
struct Scan {
    place: Place,
    // How many sections of the place's name have begun.
    begun: usize,
    is_in_place: bool,
    // What ends the text of several lines in which the next line begins.
    quotes: Option<&'static str>,
}

impl Scan {
    fn new(place: Place) -> Scan {
        Scan {
            place,
            begun: 0,
            is_in_place: place.section.is_empty(),
            quotes: None,
        }
    }

    // Reads a line. It returns whether it is that of this key in the place, or without a key that of its header.
    fn finds(&mut self, line: &str, key: Option<&str>) -> bool {
        let is_within_text = self.quotes.is_some();
        self.quotes = quotes_after(self.quotes, line);
        if is_within_text {
            return false;
        }
        match start_of(line) {
            Start::Section(name) => {
                let is_key = self.place.section.is_empty() && key == Some(name);
                self.enter(name);
                is_key || self.is_in_place && key.is_none()
            }
            Start::Key(name) => self.is_in_place && key == Some(name),
            Start::Other => false,
        }
    }

    fn enter(&mut self, section: &str) {
        let is_named = section == self.place.section;
        self.is_in_place = is_named && self.begun == self.place.index;
        if is_named {
            self.begun = self.begun.saturating_add(1);
        }
    }
}

/// The number of the line, from 1 on, on which the key stands in this place; without a key, that of its header. None is
/// found if the text has inline tables or dotted keys in their stead.
pub(crate) fn line_of(text: &str, place: Place, key: Option<&str>) -> Option<usize> {
    let mut scan = Scan::new(place);
    for (index, line) in text.lines().enumerate() {
        if scan.finds(line, key) {
            return Some(index.saturating_add(1));
        }
    }
    None
}

/// The header of a section: the number of its line, from 1 on, and where in the text that begins.
#[derive(Clone, Copy)]
pub(crate) struct Header {
    pub(crate) line: usize,
    start: usize,
}

/// The headers of all sections of a text.
pub(crate) fn headers_of(alloc: Global, text: &str) -> Result<Vec<Header>, AllocError> {
    let mut headers = Vec::new(alloc);
    let mut quotes = None;
    let mut start = 0usize;
    for (index, line) in text.split_inclusive('\n').enumerate() {
        if quotes.is_none() && matches!(start_of(line), Start::Section(_)) {
            let line = index.saturating_add(1);
            headers.push(Header { line, start })?;
        }
        quotes = quotes_after(quotes, line);
        start = start.saturating_add(line.len());
    }
    Ok(headers)
}

/// The text up to the end of the section that has this index among these of its headers.
pub(crate) fn up_to_section<'t>(
    text: &'t str,
    headers: &[Header],
    index: usize,
) -> Option<&'t str> {
    headers.get(index)?;
    match headers.get(index.saturating_add(1)) {
        Some(next) => text.get(..next.start),
        None => Some(text),
    }
}

/// The number of the line, from 1 on, with the byte at this index.
pub(crate) fn line_at(bytes: &[u8], index: usize) -> usize {
    let before = bytes.iter().take(index);
    before
        .filter(|byte| **byte == b'\n')
        .count()
        .saturating_add(1)
}

// The quotes that end the text in which the next line begins, if these do so of this line.
fn quotes_after(quotes: Option<&'static str>, line: &str) -> Option<&'static str> {
    match quotes {
        Some(quotes) if line.contains(quotes) => None,
        Some(quotes) => Some(quotes),
        None => ["\"\"\"", "'''"]
            .into_iter()
            .find(|it| line.matches(*it).count() % 2 == 1),
    }
}

fn start_of(line: &str) -> Start<'_> {
    let line = line.trim_start();
    let header = line.strip_prefix("[[").or_else(|| line.strip_prefix('['));
    if let Some((name, _)) = header.and_then(|rest| rest.split_once(']')) {
        return Start::Section(name.trim());
    }
    match line.split_once('=') {
        Some((key, _)) => Start::Key(key.trim().trim_matches('"')),
        None => Start::Other,
    }
}
