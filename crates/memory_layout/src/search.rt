// The search of an open order by its id, and the place of a new id among the records, whose ids ascend. Whole blocks of sixteen records
// are passed over by the last id of each; these blocks, and then the records of one block, are counted without a branch: where an id stands
// cannot be foretold, and a branch that is taken wrongly costs more than the count.
#![tactic(auto, using(crate::proofs::Lengths::records_read))]

ghost use Rattle.std.specs.Prelude.{◌≡◌, List, ℕ, ◌+◌, ◌*◌, ◌-◌, ◌/◌, ◌≤◌, ◌<◌, length};
ghost use Rattle.words.specs.Words.{word_at};
ghost use Rattle.ledger.specs.Orders.{place_from};
ghost use Rattle.ledger.specs.Records.{orders_of};
ghost use Rattle.book.specs.Sound.{Ascending};
ghost use Rattle.memory_layout.specs.Layout.{count_word};
ghost use Rattle.memory_layout.specs.View.{open_orders};
ghost use Rattle.memory_layout.specs.Stores.{order_in, rank};

use crate::orders::OrderRecords;
use ledger::find::find;
use ledger::records::{Record, id_of};
use std::marker::Model;

// Order records whose ids ascend.
#[derive(Drop)]
pub struct RankedRecords<'a> {
    pub orders: OrderRecords<'a>,
}

// A clause sees the memory.
impl<'a> Model for RankedRecords<'a> {
    ghost Value = { List ℕ };

    ghost view = { λ ranked. ranked.orders };

    ghost invariant = { λ ranked. Ascending 0 (open_orders ranked.orders) };
}

impl<'a> RankedRecords<'a> {
    // The records of the open orders.
    fn records(&self) -> &'a [Record]
        ensures orders { orders_of result.now ≡ open_orders self.now }
        ensures few { length result.now ≤ 256 }
        ensures ascend { Ascending 0 (open_orders self.now) }
    {
        self.orders.records()
    }

    // How many whole blocks of sixteen records end with a smaller id: the first ones, since ids ascend.
    fn blocks_before(&self, id: u64) -> usize
        ensures { (result ≤ word_at self.now count_word / 16)
            × (1 ≤ result → (order_in self.now (result * 16 - 1)).id < id)
            × (result < word_at self.now count_word / 16 → id ≤ (order_in self.now (result * 16 + 15)).id) }
    {
        self.records()
            .as_chunks::<16>()
            .0
            .iter()
            .map(|block| usize::from(id_of(&block[15]) < id))
            .sum()
    }

    // How many of the records from `from` on, and before `to`, have an id that is not larger, the place being among them or at `to`.
    fn records_before(&self, from: usize, to: usize, id: u64) -> usize
        requires { (from ≤ rank id (open_orders self.now))
            × (rank id (open_orders self.now) ≤ to)
            × (to ≤ word_at self.now count_word) }
        ensures { from + result ≡ rank id (open_orders self.now) }
    {
        self.records()[from..to]
            .iter()
            .map(|order| usize::from(id_of(order) <= id))
            .sum()
    }

    // The place of the first larger id: in the first block that does not end with a smaller one, or behind the last whole block.
    fn place_among(&self, id: u64) -> usize
        ensures { result ≡ rank id (open_orders self.now) }
    {
        let n = self.records().len();
        let from = self.blocks_before(id) * 16;
        from + self.records_before(from, n.min(from + 16), id)
    }

    // The place of the open order with that id, which stands just before the first larger one.
    pub fn find_order(&self, id: u64) -> Option<usize>
        ensures { result ≡ place_from 0 id (open_orders self.now) }
    {
        let p = self.place_among(id);
        find(&self.records()[..p], p.saturating_sub(1), id)
    }

    // The place of the first open order with a larger id, else behind the last.
    pub fn place(&self, id: u64) -> usize
        ensures { result ≡ rank id (open_orders self.now) }
    {
        let records = self.records();
        let n = records.len();
        if 0 < n && id_of(&records[n - 1]) < id {
            return n;
        }
        self.place_among(id)
    }
}
