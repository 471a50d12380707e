use crate::drawing::Given;
use crate::samples::Sample;
use crate::tables::Tables;
use anyhow::Result;
use clock::Clock;
use std::alloc::Global;
use yard::{OpenCard, SealedCard, seal};

/// The cards of a season, open or sealed: the yard's, and two of other sizes.
#[derive(Drop)]
pub struct Cards<K> {
    pub own: K,
    other_berths: K,
    other_files: K,
}

impl<K> Cards<K> {
    /// The card that a call is given.
    pub fn of(&self, given: Given) -> &K {
        match given {
            Given::Own => &self.own,
            Given::OtherBerths => &self.other_berths,
            Given::OtherFiles => &self.other_files,
        }
    }
}

impl Cards<OpenCard> {
    /// The yard's card, and two from yards that are opened for them alone.
    pub fn beside<C: Clock, P: Sample>(
        heap: Global,
        own: OpenCard,
        berths: usize,
        files: usize,
    ) -> Result<Cards<OpenCard>> {
        Ok(Cards {
            own,
            other_berths: card_of::<C, P>(heap, berths % 16 + 1, files)?,
            other_files: card_of::<C, P>(heap, berths, files % 32 + 1)?,
        })
    }

    /// The three cards, sealed.
    pub fn seal(self) -> Cards<SealedCard> {
        let Cards {
            own,
            other_berths,
            other_files,
        } = self;
        Cards {
            own: seal(own),
            other_berths: seal(other_berths),
            other_files: seal(other_files),
        }
    }
}

fn card_of<C: Clock, P: Sample>(heap: Global, berths: usize, files: usize) -> Result<OpenCard> {
    let copies = berths.saturating_mul(files);
    let (card, _tables) = Tables::<C, P>::open(heap, berths, files, copies)??;
    Ok(card)
}
