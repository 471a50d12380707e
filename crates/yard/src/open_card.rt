use crate::cards::{Card, Own};
use std::marker::Model;
use yard_rules::Sizes;

/// The right to change a yard, with its sizes. Only `open` makes one, and it
/// cannot be copied: `seal` takes it away.
#[derive(Drop)]
pub struct OpenCard {
    pub(crate) sizes: Sizes,
}

/// A clause sees a card as the sizes that it stands for.
impl Model for OpenCard {
    ghost use Rattle.yard_rules.specs.declared.tables.Sizes.{Sizes};

    ghost Value = { Sizes };

    ghost view = { λ c. c.sizes };
}

impl Own for OpenCard {}

impl Card for OpenCard {
    ghost sizes = { λ c. c };

    fn sizes(&self) -> Sizes {
        self.sizes
    }
}
