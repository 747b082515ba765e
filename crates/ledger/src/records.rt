// Orders in records of two words: the id, then the detail.
ghost use Rattle.std.specs.Prelude.{◌≡◌};
ghost use Rattle.ledger.specs.Records.{id_at, detail_at, order_at, side_of};

use crate::detail::Detail;
use crate::order::{Order, Side};
use words::word;

// The side that a number stands for: 1 buy, any other sell.
#[tactic(auto, unfolding(crate::specs::Records::side_of))]
pub fn side_of(n: u64) -> Side
    ensures { result ≡ side_of n }
{
    u8::try_from(n).map_or(Side::Sell, Side::from)
}

// An order's record, as it is lent.
pub type Record = [u8; 16];

// The id and the detail in a record.
pub fn id_of(order: &Record) -> u64
    ensures { result ≡ id_at order.now 0 }
{
    word(order, 0)
}

pub fn detail_of(order: &Record) -> Detail
    ensures { result.0 ≡ detail_at order.now 0 }
{
    Detail(word(order, 1))
}

// The order in a record.
#[tactic(auto, unfolding(crate::specs::Records::order_at))]
pub fn order_of(order: &Record) -> Order
    ensures { result ≡ order_at order.now 0 }
{
    detail_of(order).order(id_of(order))
}
