ghost use Rattle.std.specs.Prelude.{◌≡◌};
ghost use Rattle.yard_rules.specs.declared.tables.Sizes.{Sizes};

use yard_rules::Sizes;

/// What only this crate's cards have, so that no other crate makes a card.
pub trait Own {}

/// A card, open or sealed: what `judge` and `report` ask for.
pub trait Card: Own {
    ghost sizes: { Self → Sizes };

    /// How many berths and files the yard has.
    fn sizes(&self) -> Sizes
        ensures { result ≡ sizes self.now };

    /// How many berths the yard has.
    fn berths(&self) -> usize
        ensures { result ≡ (sizes self.now).berths }
    {
        self.sizes().berths
    }

    /// How many files the yard has.
    fn files(&self) -> usize
        ensures { result ≡ (sizes self.now).files }
    {
        self.sizes().files
    }
}
