//! A member's disk, which outlives its process. A real one writes each entry as bytes, and waits until they are synced.

use example_engine::parts::Entry;
use simplex_member::member::Stored;
use simplex_types::types::Fault;
use std::alloc::{AllocError, Global};

/// The stored entries of a record, and what is stored beside them, once something was.
#[derive(Drop)]
pub struct Disk {
    alloc: Global,
    entries: Vec<Entry>,
    stored: Option<Stored>,
}

impl Disk {
    /// Returns an empty disk.
    pub(crate) fn new(alloc: Global) -> Disk {
        Disk {
            alloc,
            entries: Vec::new(alloc),
            stored: None,
        }
    }

    /// Appends entries to those that are stored.
    pub(crate) fn append(&mut self, mut entries: Vec<Entry>) -> Result<(), AllocError> {
        self.entries.append(&mut entries)?;
        Ok(())
    }

    /// Stores entries in place of all that are stored, in one step.
    pub(crate) fn replace(&mut self, entries: Vec<Entry>, stored: Stored) {
        self.entries = entries;
        self.stored = Some(stored);
    }

    /// Returns how many entries are stored.
    pub(crate) fn count(&self) -> usize {
        self.entries.len()
    }

    /// Returns what is stored beside the entries, once something was.
    pub(crate) fn stored(&self) -> Option<Stored> {
        self.stored
    }

    /// Returns copies of the stored entries.
    pub(crate) fn read(&self) -> Result<Vec<Entry>, Fault> {
        let mut copies = Vec::new(self.alloc);
        for entry in &self.entries {
            copies.push(entry.clone(self.alloc)?)?;
        }
        Ok(copies)
    }
}
