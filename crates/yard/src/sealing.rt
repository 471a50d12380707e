ghost use Rattle.std.specs.Prelude.{◌≡◌};

use crate::open_card::OpenCard;
use crate::sealed_card::SealedCard;

/// Seals a yard: the open card is given away for a sealed one of the same
/// sizes, so no further call can change the yard. The tables stay.
pub fn seal(card: OpenCard) -> SealedCard
    ensures { result ≡ card }
{
    SealedCard { sizes: card.sizes }
}
