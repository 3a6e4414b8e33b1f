//! Counts the bytes written to each link, by which links wait for each other's replies.

use std::alloc::{AllocError, Global};
use std::sync::atomic::{AtomicUsize, Ordering};

/// How many bytes were written to each link.
#[derive(Drop)]
pub struct Board {
    written: Vec<AtomicUsize>,
}

impl Board {
    /// For this number of links, to which nothing was written.
    pub fn new(alloc: Global, links: usize) -> Result<Board, AllocError> {
        let mut written = Vec::new(alloc);
        for _ in 0..links {
            written.push(AtomicUsize::new(0))?;
        }
        Ok(Board { written })
    }

    /// Notes that this many bytes more were written to the link. It fails if there is no such link.
    pub fn add(&self, place: usize, count: usize) -> bool {
        match self.written.get(place) {
            Some(written) => {
                written.fetch_add(count, Ordering::SeqCst);
                true
            }
            None => false,
        }
    }

    /// Whether to every link but this one so many bytes were written.
    pub fn others_have(&self, place: usize, count: usize) -> bool {
        self.written.iter().enumerate().all(|(i, written)| i == place
            || written.load(Ordering::SeqCst) >= count)
    }
}
