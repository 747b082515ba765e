// B and V of all accounts and instruments, gathered from the orders of a memory.
ghost use Rattle.std.specs.Prelude.{◌≡◌, true};
ghost use Rattle.memory_layout.specs.View.{open_orders};
ghost use Rattle.memory_soundness.specs.Cells.{Empty, SmallSums};
ghost use Rattle.memory_soundness.specs.Soundness.{orders_sound};

use ledger::records::detail_of;
use ledger::units::Contracts;
use memory_layout::orders::OrderRecords;
use positions::add_to;

// In one pass over the records. (A cell is named where it is used, by account and instrument or by what a detail packs: a type of these
// sums would have a method for each.)
#[tactic(auto, using(crate::proofs::Gathering::gathering))]
pub fn gather_sums(m: &OrderRecords, cells: &mut [u64; 1089])
    requires { (orders_sound m.now ≡ true) × Empty cells.old }
    ensures { SmallSums cells.new (open_orders m.now) }
{
    for order in m.records() {
        let w = detail_of(order);
        add_to(
            cells,
            65 + w.packed() as usize,
            Contracts::of(w.remaining()),
        );
    }
}
