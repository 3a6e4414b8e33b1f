//! The bytes that the program writes for an order: words with the highest byte first, and parts after their length.

use crate::failure::Failure;
use nfs_core::{CoreError, Journal, Recall};
use nfs_journal::write_journal;
use nfs_leases::Swept;
use nfs_owners::ClientState;
use nfs_rpc::write_recall_call;
use std::alloc::{AllocError, Global};

/// The bytes of an answer: numbers with the highest byte first, and bytes behind their length.
#[derive(Drop)]
pub(crate) struct Answer {
    alloc: Global,
    bytes: Vec<u8>,
}

impl Answer {
    pub(crate) fn new(alloc: Global) -> Answer {
        Answer {
            alloc,
            bytes: Vec::new(alloc),
        }
    }

    pub(crate) fn bytes(&self) -> &[u8] {
        self.bytes.as_slice()
    }

    pub(crate) fn put_word(&mut self, word: u32) -> Result<(), AllocError> {
        self.bytes.extend_from_slice(&word.to_be_bytes())
    }

    /// A number of things, or the greatest word where that is less.
    pub(crate) fn put_count(&mut self, count: usize) -> Result<(), AllocError> {
        self.put_word(u32::try_from(count).unwrap_or(u32::MAX))
    }

    /// How many bytes these are, and then these.
    pub(crate) fn put_part(&mut self, part: &[u8]) -> Result<(), AllocError> {
        self.put_count(part.len())?;
        self.bytes.extend_from_slice(part)
    }

    /// How many words these are, and then these.
    pub(crate) fn put_words(&mut self, words: &[u32]) -> Result<(), AllocError> {
        self.put_count(words.len())?;
        for word in words {
            self.put_word(*word)?;
        }
        Ok(())
    }

    /// How many clients a sweep treated in which way, how many delegations it revoked, and how many open owners it
    /// forgot.
    pub(crate) fn put_swept(&mut self, swept: Swept) -> Result<(), AllocError> {
        self.put_word(swept.expired)?;
        self.put_word(swept.kept)?;
        self.put_word(swept.changed)?;
        self.put_word(swept.refused)?;
        self.put_word(swept.revoked)?;
        self.put_word(swept.forgotten)?;
        self.put_word(swept.stopped.is_some() as u32)
    }

    /// Why a path wasn't marked, or 0.
    pub(crate) fn put_marked(&mut self, marked: Result<u32, CoreError>) -> Result<(), AllocError> {
        match marked {
            Ok(_) => self.put_word(0),
            Err(error) => self.put_word(error.number()),
        }
    }

    /// Why a delegation or an open owner that is due wasn't removed, or 0; how many were; and the number of the entry,
    /// or 0.
    pub(crate) fn put_removed(
        &mut self,
        removed: Result<Option<u32>, CoreError>,
    ) -> Result<(), AllocError> {
        let (error, count, entry) = match removed {
            Ok(Some(entry)) => (0, 1, entry),
            Ok(None) => (0, 0, 0),
            Err(error) => (error.number(), 0, 0),
        };
        self.put_word(error)?;
        self.put_word(count)?;
        self.put_word(entry)
    }

    /// The record by which the recall is sent, with this xid, behind its length; or a length of 0 where none waits.
    pub(crate) fn put_recall(&mut self, xid: u32, recall: Option<Recall>) -> Result<(), Failure> {
        let mut record = Vec::new(self.alloc);
        if let Some(recall) = recall {
            // Only for want of memory is a recall not written.
            let Ok(()) = write_recall_call(&mut record, xid, &recall) else {
                return Err(Failure::Memory);
            };
        }
        self.put_part(record.as_slice())?;
        Ok(())
    }

    /// The client's number, or 0 where there is none.
    pub(crate) fn put_client(&mut self, client: Option<&ClientState>) -> Result<(), AllocError> {
        self.put_word(client.map_or(0, |client| client.client.number))
    }

    /// The file of the journal, behind its length.
    pub(crate) fn put_journal(&mut self, journal: &Journal) -> Result<(), Failure> {
        let mut file = Vec::new(self.alloc);
        // Only for want of memory is a journal not written.
        let Ok(()) = write_journal(&mut file, journal) else {
            return Err(Failure::Memory);
        };
        self.put_part(file.as_slice())?;
        Ok(())
    }
}
