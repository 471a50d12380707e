use std::alloc::{AllocError, Global};

/// The numbers of the edits behind a copy, a bit for each.
#[derive(Drop)]
pub struct EditSet {
    words: Vec<u64>,
}

impl EditSet {
    /// No edit, with room for so many words of 64.
    pub fn empty(heap: Global, words: usize) -> Result<EditSet, AllocError> {
        let words = vec![in heap; 0; words]?;
        Ok(EditSet { words })
    }

    /// The same set once more.
    pub fn copied(&self) -> Result<EditSet, AllocError> {
        let words = self.words.clone()?;
        Ok(EditSet { words })
    }

    /// Adds the edit of this number; nothing where there is no room for it.
    pub fn add(&mut self, edit: usize) -> Option<()> {
        let word = self.words.get_mut(edit / 64)?;
        *word |= 1 << (edit % 64);
        Some(())
    }

    /// Adds the other's edits.
    pub fn unite(&mut self, other: &EditSet) {
        for (mine, theirs) in self.words.iter_mut().zip(&other.words) {
            *mine |= *theirs;
        }
    }

    // Whether every edit is one of the other's.
    fn is_inside(&self, other: &EditSet) -> bool {
        self.words
            .iter()
            .zip(&other.words)
            .all(|(mine, theirs)| *mine & !*theirs == 0)
    }

    /// The number of the verdict on this copy against the other: 0 for the same
    /// edits, 1 where these are properly inside, 2 properly around, else 3.
    pub fn against(&self, other: &EditSet) -> u8 {
        match (self.is_inside(other), other.is_inside(self)) {
            (true, true) => 0,
            (true, false) => 1,
            (false, true) => 2,
            (false, false) => 3,
        }
    }
}
