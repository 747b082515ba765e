// An order and what its events do to it, by value.
ghost use Rattle.std.specs.Prelude.{◌≡◌, ◌+◌, ◌^◌, ◌<◌};
ghost use Rattle.ledger.specs.Orders.{remaining, filled_by, replaced_total};
ghost use Rattle.ledger.specs.Positions.{opposite, way_of};
ghost use Rattle.ledger.specs.Records.{side_of};

// The sides of an order.
#[derive(Clone, Copy, PartialEq, Eq)]
pub enum Side {
    Buy,
    Sell,
}

impl Side {
    // The other side: no operator of std's means it.
    pub fn opposite(self) -> Side
        ensures { way_of result ≡ opposite (way_of self) }
    {
        match self {
            Side::Buy => Side::Sell,
            Side::Sell => Side::Buy,
        }
    }
}

// By its number in an event: 1 buy, 2 sell. Another number stands in no event, and `side_of` has a side for each, so that this cannot fail.
#[tactic(auto, unfolding(crate::specs::Records::side_of))]
impl From<u8> for Side {
    ghost from_gives = { λ n side. side ≡ side_of n };

    fn from(n: u8) -> Side {
        match n {
            1 => Side::Buy,
            _ => Side::Sell,
        }
    }
}

// An open order: `total` contracts, of which `filled` are filled.
#[derive(Clone, Copy)]
pub struct Order {
    pub id: u64,
    pub account: u64,
    pub instrument: u64,
    pub side: Side,
    pub total: u64,
    pub filled: u64,
}

#[tactic(auto, unfolding(crate::specs::Orders::remaining, crate::specs::Orders::filled_by, crate::specs::Orders::replaced_total))]
impl Order {
    // What remains of the order: 0 where more than its total is filled.
    pub fn remaining(self) -> u64
        ensures { result ≡ remaining self }
    {
        self.total.saturating_sub(self.filled)
    }

    // The order with `n` more contracts filled. Nothing calls it: document 01 names the form, and a detail has the method that is called.
    pub fn filled_by(self, n: u64) -> Order
        requires { self.filled + n < 2 ^ 64 }
        ensures { result ≡ filled_by self n }
    {
        Order {
            filled: self.filled + n,
            ..self
        }
    }

    // The order at the new total `n`.
    pub fn replaced_total(self, n: u64) -> Order
        ensures { result ≡ replaced_total self n }
    {
        Order { total: n, ..self }
    }
}
