//! Reads orders: words with the highest byte first, and parts after their length.

use crate::failure::Failure;
use nfs_core::Moment;
use std::alloc::Global;
use std::io::{BufReader, Read};

/// What a reader gives, as numbers with the highest byte first, and as bytes behind their length.
#[derive(Drop)]
pub(crate) struct Input<R> {
    alloc: Global,
    reader: BufReader<R>,
}

impl<R: Read + Drop> Input<R> {
    pub(crate) fn new(alloc: Global, reader: R) -> Result<Input<R>, Failure> {
        match BufReader::new(alloc, reader) {
            Ok(reader) => Ok(Input { alloc, reader }),
            Err(_) => Err(Failure::Memory),
        }
    }

    /// The next word, or none where the input ends before it.
    pub(crate) fn next_word(&mut self) -> Result<Option<u32>, Failure> {
        let mut bytes = [0; 4];
        match self.reader.read(&mut bytes[..1]) {
            Ok(0) => return Ok(None),
            Ok(_) => {}
            Err(_) => return Err(Failure::Input),
        }
        self.fill(&mut bytes[1..])?;
        Ok(Some(u32::from_be_bytes(bytes)))
    }

    pub(crate) fn word(&mut self) -> Result<u32, Failure> {
        let mut bytes = [0; 4];
        self.fill(&mut bytes)?;
        Ok(u32::from_be_bytes(bytes))
    }

    /// A word that says yes, by 1, or no, by 0.
    pub(crate) fn flag(&mut self) -> Result<bool, Failure> {
        match self.word()? {
            0 => Ok(false),
            1 => Ok(true),
            _ => Err(Failure::Input),
        }
    }

    /// Bytes behind their length.
    pub(crate) fn part(&mut self) -> Result<Vec<u8>, Failure> {
        let len = self.word()?;
        let mut bytes = vec![in self.alloc; 0; len as usize]?;
        self.fill(bytes.as_mut_slice())?;
        Ok(bytes)
    }

    pub(crate) fn moment(&mut self) -> Result<Moment, Failure> {
        let mut bytes = [0; 8];
        self.fill(&mut bytes)?;
        match Moment::new(u64::from_be_bytes(bytes)) {
            Some(moment) => Ok(moment),
            None => Err(Failure::Input),
        }
    }

    // Reads as many bytes as the buffer has.
    fn fill(&mut self, buffer: &mut [u8]) -> Result<(), Failure> {
        match self.reader.read_exact(buffer) {
            Ok(()) => Ok(()),
            Err(_) => Err(Failure::Input),
        }
    }
}
