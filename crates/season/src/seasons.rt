use clock::Clock;
use payload::Payload;
use std::marker::Model;
use yard::Card;
use yard_rules::{Berth, Record};

/// A yard with its tables and its card, open or sealed. Some list of calls leads
/// to these tables, from what an accepted open left.
#[derive(Drop)]
pub struct Season<K: Card, C: Clock, P: Payload> {
    pub(crate) card: K,
    pub(crate) berths: Vec<Berth<C::Pen>>,
    pub(crate) copies: Vec<Record<C, P>>,
}

/// A clause sees a season as its card's sizes and its two tables.
impl<K: Card, C: Clock, P: Payload> Model for Season<K, C, P> {
    ghost use Rattle.season.specs.Held.{Held, held};
    ghost use Rattle.season.specs.Replays.{Replayed};

    ghost Value = { Held C.Pen C P };

    ghost view = { λ s. held (K.sizes s.card) s.berths.items s.copies.items };

    ghost invariant = { λ s. ∥ Replayed C.meaning P.same s.berths.items s.copies.items ∥₁ };
}
