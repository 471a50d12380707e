ghost use Rattle.std.specs.Prelude.{◌≡◌};
ghost use Rattle.yard_rules.specs.Tables.{Made};

use crate::seasons::Season;
use clock::Clock;
use payload::Payload;
use yard::Card;
use yard_rules::history_law;

impl<K: Card, C: Clock, P: Payload> Season<K, C, P> {
    // By the law of histories, whatever calls led here: pens and clocks are well made.
    pub(crate) fn law(&self)
        ensures made { Made C.meaning self.now.berths self.now.copies }
    {
        let _ = &self.card;
        history_law::<C, P>()
    }
}
