use crate::cards::{Card, Own};
use std::marker::Model;
use yard_rules::Sizes;

/// The right to read a sealed yard, with its sizes. Only `seal` makes one.
// Two types of cards and not one with a parameter: a reader is to see the two.
#[derive(Drop)]
pub struct SealedCard {
    pub(crate) sizes: Sizes,
}

/// A clause sees a card as the sizes that it stands for.
impl Model for SealedCard {
    ghost use Rattle.yard_rules.specs.declared.tables.Sizes.{Sizes};

    ghost Value = { Sizes };

    ghost view = { λ c. c.sizes };
}

impl Own for SealedCard {}

impl Card for SealedCard {
    ghost sizes = { λ c. c };

    fn sizes(&self) -> Sizes {
        self.sizes
    }
}
