// The search of an open order by its id, in the form that document 01 names: a loop that yields the place by `break`. `find_order` runs
// it over the one record that can match.
ghost use Rattle.std.specs.Prelude.{◌≡◌, ◌≤◌, length, drop};
ghost use Rattle.ledger.specs.Orders.{place_from};
ghost use Rattle.ledger.specs.Records.{orders_of};

use crate::records::{Record, id_of};

// The place of the first order with that id among the records from place `from` on.
#[tactic(auto, using(crate::proofs::RecordLists::search_turn))]
pub fn find(orders: &[Record], from: usize, id: u64) -> Option<usize>
    requires { from ≤ length orders.now }
    ensures { result ≡ place_from from id (drop from (orders_of orders.now)) }
{
    let mut p = from;
    loop {
        if p == orders.len() {
            break None;
        }
        if id_of(&orders[p]) == id {
            break Some(p);
        }
        p += 1;
    }
}
