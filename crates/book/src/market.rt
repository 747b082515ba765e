// What a desk's market says, handed on by value where a bound depends on it.
ghost use Rattle.std.specs.Prelude.{◌≡◌};
ghost use Rattle.book.specs.Market.{market_of_kind};

#[derive(Clone, Copy)]
pub struct Market {
    pub largest: u64,
}

// The market by the kind of desk, a word of a memory that may hold anything: every number has a market.
#[tactic(auto, unfolding(crate::specs::Market::market_of_kind, crate::specs::Market::largest_of))]
pub fn market_of_kind(kind: u64) -> Market
    ensures { result.largest ≡ (market_of_kind kind).largest }
{
    Market {
        largest: match kind {
            1 => 1_000_000_000,
            _ => 0,
        },
    }
}
