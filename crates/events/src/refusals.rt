// The number of each refusal.
ghost use Rattle.std.specs.Prelude.{◌≡◌};
ghost use Rattle.events.specs.Refusals.{refusal_number};

use super::Refusal;

impl From<Refusal> for u32 {
    ghost from_gives = { λ r n. n ≡ refusal_number r };

    fn from(r: Refusal) -> u32 {
        match r {
            Refusal::ShortSpace => 1,
            Refusal::BadFrame => 2,
            Refusal::BadField => 3,
            Refusal::UnknownStrategy => 4,
            Refusal::BadDefinition => 5,
            Refusal::SeriesShut => 6,
            Refusal::UnknownOrder => 7,
            Refusal::AuctionStarter => 8,
            Refusal::NoAuction => 9,
            Refusal::NothingRemoved => 10,
            Refusal::EarlyClock => 11,
            Refusal::TableFull => 12,
            Refusal::NumbersOut => 13,
            Refusal::BidAboveOffer => 14,
            Refusal::NothingBettered => 15,
        }
    }
}
