// An order but for its id, as the word that its record holds. What an event does to an order is done to the word.
ghost use Rattle.std.specs.Prelude.{◌≡◌, cond, ℕ, ◌+◌, ◌-◌, ◌≤◌, ◌<◌, eqb};
ghost use Rattle.ledger.specs.Roster.{Numbered};
ghost use Rattle.ledger.specs.Orders.{remaining, filled_by, replaced_total};
ghost use Rattle.ledger.specs.Records.{packed, Packable, packed_side, packed_account, packed_instrument, detail_packed};
ghost use Rattle.ledger.specs.Records.{detail_filled, detail_remaining, Storable, Within, order_of};

use crate::order::{Order, Side};

#[derive(Clone, Copy)]
pub struct Detail(pub u64);

// Side, account and instrument as one number.
#[tactic(auto, unfolding(crate::specs::Records::packed))]
pub fn pack(side: Side, account: u64, instrument: u64) -> u64
    requires { Packable account instrument }
    ensures { result ≡ packed side account instrument }
{
    match side {
        Side::Buy => (account - 1) * 64 + (instrument - 1),
        Side::Sell => (account - 1) * 64 + 32 + (instrument - 1),
    }
}

#[tactic(auto, unfolding(crate::specs::Orders::remaining, crate::specs::Records::order_of, crate::specs::Records::packed_side))]
impl Detail {
    pub fn of(o: Order) -> Detail
        requires { Storable o }
        ensures { order_of o.id result.0 ≡ o }
    {
        Detail(
            pack(o.side, o.account, o.instrument)
                + o.filled * 1024
                + (o.total - o.filled) * 137438953472,
        )
    }

    // The order with that id.
    pub fn order(self, id: u64) -> Order
        ensures { result ≡ order_of id self.0 }
    {
        Order {
            id,
            account: self.account(),
            instrument: self.instrument(),
            side: self.side(),
            total: self.filled() + self.remaining(),
            filled: self.filled(),
        }
    }

    // Side, account and instrument as one number, then each of them.
    pub fn packed(self) -> u64
        ensures { result ≡ detail_packed self.0 }
    {
        self.0 % 1024
    }

    pub fn side(self) -> Side
        ensures { result ≡ packed_side self.0 }
    {
        if self.0 / 32 % 2 == 0 {
            Side::Buy
        } else {
            Side::Sell
        }
    }

    pub fn account(self) -> u64
        ensures { result ≡ packed_account self.0 }
    {
        self.0 / 64 % 16 + 1
    }

    pub fn instrument(self) -> u64
        ensures { result ≡ packed_instrument self.0 }
    {
        self.0 % 32 + 1
    }

    pub fn filled(self) -> u64
        ensures in_detail { result ≡ detail_filled self.0 }
        ensures of_order { (id : ℕ) → result ≡ (order_of id self.0).filled }
    {
        self.0 / 1024 % 134217728
    }

    pub fn remaining(self) -> u64
        ensures in_detail { result ≡ detail_remaining self.0 }
        ensures of_order { (id : ℕ) → result ≡ remaining (order_of id self.0) }
    {
        self.0 / 137438953472
    }

    // What remains where the account is the given one, else 0; with no branch, so that none is mispredicted. `near` is 15 for that
    // account alone.
    pub fn remaining_for(self, account: u64) -> u64
        requires { Numbered 16 account }
        ensures { result ≡ cond (eqb (packed_account self.0) account) (detail_remaining self.0) 0 }
    {
        let near = (self.0 / 64 + (16 - account)) % 16;
        self.remaining() * ((near + 1) / 16)
    }

    // The bits of both: each figure is at least that of either. No operator: a detail is no set of bits to its callers.
    pub fn with_bits_of(self, other: Detail) -> Detail
        ensures own { (o : Order) → Within self.0 o → Within result.0 o }
        ensures of_other { (id : ℕ) → Within result.0 (order_of id other.0) }
    {
        Detail(self.0 | other.0)
    }

    // With `n` more contracts filled, of those that remain.
    pub fn filled_by(self, n: u64) -> Detail
        requires { (n ≤ detail_remaining self.0) × (detail_filled self.0 + n < 134217728) }
        ensures { (id : ℕ) → order_of id result.0 ≡ filled_by (order_of id self.0) n }
    {
        Detail(self.0 - n * 137438953472 + n * 1024)
    }

    // At the new total `n`, at least what is filled.
    pub fn replaced_total(self, n: u64) -> Detail
        requires { (detail_filled self.0 ≤ n) × (n - detail_filled self.0 < 134217728) }
        ensures { (id : ℕ) → order_of id result.0 ≡ replaced_total (order_of id self.0) n }
    {
        Detail(self.0 % 137438953472 + (n - self.filled()) * 137438953472)
    }
}
