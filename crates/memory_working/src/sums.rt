// B and V of all accounts, where they are kept as events are worked: an accepted event changes what counts of one order, and so one sum.
ghost use Rattle.std.specs.Prelude.{◌≡◌, ◌⊎◌, List, ℕ, length};
ghost use Rattle.ledger.specs.declared.order.Order.{Order};
ghost use Rattle.ledger.specs.Records.{order_of};
ghost use Rattle.memory_soundness.specs.Cells.{Sums};
ghost use Rattle.memory_working.specs.SumsChanged.{SumsChanged, Countable};

use ledger::detail::Detail;
use ledger::units::Contracts;

// What counts of the order of a detail goes from `before` contracts to `after`.
pub fn recount(cells: &mut [u64], w: Detail, before: u64, after: u64)
    requires { (length cells.old ≡ 0) ⊎ Countable cells.old w.0 before after }
    ensures { (id : ℕ) (orders orders' : List Order) →
        Sums cells.old orders →
        SumsChanged (order_of id w.0) before after orders orders' →
        Sums cells.new orders' }
{
    if cells.is_empty() {
        return;
    }
    let j = 65 + w.packed() as usize;
    cells[j] = (Contracts::of(cells[j]) + Contracts::of(after) - Contracts::of(before)).number();
}
