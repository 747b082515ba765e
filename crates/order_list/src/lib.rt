// The open orders as a list of 256 order structs, lent as a slice: the form that document 01 names. The group's reader goes over the
// records, as by the list it took 1.07 µs instead of 0.59.
#![tactic(auto)]

ghost use Rattle.std.specs.Prelude.{◌≡◌, ◌≤◌, pos, nat_abs, length};
ghost use Rattle.ledger.specs.declared.order.Side.{Side};
ghost use Rattle.ledger.specs.declared.order.Side.TheVariants.{Buy, Sell};
ghost use Rattle.ledger.specs.Positions.{open_on};
ghost use Rattle.ledger.specs.Records.{orders_of};
ghost use Rattle.ledger.specs.Derivatives.{one};
ghost use Rattle.positions.specs.Answers.{InInstrument};
ghost use Rattle.positions.specs.Bounds.{InstrumentBounds};
ghost use Rattle.order_list.specs.OrderList.{loaded_to, counted_to};

use ledger::order::{Order, Side};
use ledger::records::{Record, order_of};
use ledger::units::Contracts;
use positions::{InstrumentPosition, counted, position_by};
use words::signed_word;

// B and V of an account and instrument: what remains of its open buys and sells.
#[derive(Clone, Copy)]
pub struct Open {
    pub buys: u64,
    pub sells: u64,
}

// Loads the orders of the records to the first places.
pub fn load_into(orders: &mut [Order], records: &[Record])
    requires { length records.now ≤ length orders.old }
    ensures { orders.new ≡ loaded_to orders.old records.now (length records.now) }
{
    // By index: tried over `zip(orders.iter_mut())`, and the proof did not close, as it leaves nothing known of what was written.
    for (p, order) in records.iter().enumerate() {
        orders[p] = order_of(order);
    }
}

// What the orders count for in B (side Buy) or V (side Sell) of the account and instrument.
pub fn counted_to(orders: &[Order], side: Side, account: u64, instrument: u64) -> u64
    requires { counted_to orders.now (length orders.now) side account instrument ≤ 9000000000000000000 }
    ensures { result ≡ counted_to orders.now (length orders.now) side account instrument }
{
    orders
        .iter()
        .map(|o| counted(*o, side, account, instrument))
        .sum()
}

// B and V of the account and instrument, by a list of the orders of the records.
fn open_in(records: &[Record], account: u64, instrument: u64) -> Open
    requires { (length records.now ≤ 256)
        × ((s : Side) → nat_abs (open_on one (orders_of records.now) s account instrument) ≤ 9000000000000000000) }
    ensures { (pos result.buys ≡ open_on one (orders_of records.now) Buy account instrument)
        × (pos result.sells ≡ open_on one (orders_of records.now) Sell account instrument) }
{
    // What stands at a place that no order has, and is not lent on.
    let free = Order {
        id: 0,
        account: 0,
        instrument: 0,
        side: Side::Buy,
        total: 0,
        filled: 0,
    };
    let mut list = [free; 256];
    load_into(&mut list, records);
    let open = &list[..records.len()];
    Open {
        buys: counted_to(open, Side::Buy, account, instrument),
        sells: counted_to(open, Side::Sell, account, instrument),
    }
}

// The positions of the account in an instrument, by the list of the open orders; word `instrument` of `balances` is its balance.
pub fn listed_position(
    records: &[Record],
    balances: &[u8],
    account: u64,
    instrument: u64,
) -> InstrumentPosition
    requires { (length records.now ≤ 256) × InstrumentBounds (orders_of records.now) balances.now account instrument }
    ensures { InInstrument (orders_of records.now) balances.now account instrument result }
{
    let balance = Contracts(signed_word(balances, instrument as usize));
    let open = open_in(records, account, instrument);
    let buys = Contracts::of(open.buys);
    let sells = Contracts::of(open.sells);
    position_by(balance, buys, sells)
}
