// Working NEW, REPLACE, CANCEL and FILL: the judge hands on the detail of the order of that id, and the place at which it joins the open
// orders, or stands there. The cells hold B and V of all accounts, before the event and after it, or there are none.
// Memory and cells are both written, and what is named of the event is handed on: a struct of them would hold `&mut` fields, whose lender
// learns nothing.
ghost use Rattle.std.specs.Prelude.{◌≡◌, ℕ, ◌≤◌, ◌<◌, nat_abs, ◌+ℤ◌};
ghost use Rattle.words.specs.Words.{word_at};
ghost use Rattle.ledger.specs.Positions.{toward, way_of};
ghost use Rattle.ledger.specs.Records.{order_of};
ghost use Rattle.book.specs.declared.Event.TheVariants.{Change};
ghost use Rattle.book.specs.Books.{order_after};
ghost use Rattle.memory_layout.specs.Layout.{count_word};
ghost use Rattle.memory_layout.specs.View.{open_orders};
ghost use Rattle.memory_layout.specs.Stores.{Records};
ghost use Rattle.memory_soundness.specs.Cells.{Sums};
ghost use Rattle.memory_working.specs.Working.{Workable, new_of, Fitting, order_kept, worked};

use crate::sums::recount;
use book::OrderChange;
use ledger::detail::Detail;
use ledger::order::Side;
use ledger::units::Contracts;
use memory_layout::memory::Memory;
use memory_layout::orders::{Named, insert_order, remove_order, replace_order};
use memory_layout::readable::ReadableDesk;
use memory_layout::stores::{set_balance, set_mark};

// NEW: the order joins, and its account is marked as trading. The id stands beside what is named, since it is the event's own.
pub fn enter(m: &mut [u8], cells: &mut [u64], id: u64, named: Named)
    requires { Workable m.old cells.old (new_of id named.detail.0) named }
    ensures memory { m.new ≡ worked m.old (new_of id named.detail.0) }
    ensures sums { Sums cells.new (open_orders m.new) }
{
    let w = named.detail;
    recount(cells, w, 0, w.remaining());
    insert_order(m, named.place, id, w);
    set_mark(m, w.account() as usize);
}

// What a change makes of the order of a detail.
fn detail_after(w: Detail, change: OrderChange) -> Detail
    requires { Fitting change w.0 }
    ensures { (id : ℕ) → order_of id result.0 ≡ order_after change (order_of id w.0) }
{
    match change {
        OrderChange::Replace { total } => w.replaced_total(total as u64),
        OrderChange::Cancel => w.replaced_total(w.filled()),
        OrderChange::Fill { quantity } => w.filled_by(quantity as u64),
    }
}

// The balance after a fill by `n`: a buy raises S, a sell lowers it.
fn balance_after(side: Side, balance: Contracts, n: Contracts) -> Contracts
    requires { (nat_abs balance.0 ≤ 1000000000) × (nat_abs n.0 ≤ 1000000) }
    ensures { result.0 ≡ balance.0 +ℤ toward (way_of side) n.0 }
{
    match side {
        Side::Buy => balance + n,
        Side::Sell => balance - n,
    }
}

// The order at a place becomes that of the id and the detail: at remaining 0 it leaves.
fn keep_order(m: &mut [u8], place: usize, id: u64, next: Detail)
    requires { Records m.old × (place < word_at m.old count_word) }
    ensures { m.new ≡ order_kept m.old place (order_of id next.0) }
{
    if next.remaining() == 0 {
        remove_order(m, place);
    } else {
        replace_order(m, place, id, next);
    }
}

// REPLACE, CANCEL and FILL: the open order becomes what the change makes of it, and S moves by what is filled.
pub fn change_order(m: &mut [u8], cells: &mut [u64], id: u64, named: Named, change: OrderChange)
    requires { Workable m.old cells.old (Change id change) named }
    ensures memory { m.new ≡ worked m.old (Change id change) }
    ensures sums { Sums cells.new (open_orders m.new) }
{
    let w = named.detail;
    let next = detail_after(w, change);
    recount(cells, w, w.remaining(), next.remaining());
    let account = w.account() as usize;
    let instrument = w.instrument() as usize;
    let memory = Memory { bytes: m };
    let desk = ReadableDesk { memory };
    let before = Contracts(desk.account(account).balance(instrument));
    keep_order(m, named.place, id, next);
    let filled = Contracts::of(next.filled() - w.filled());
    let after = balance_after(w.side(), before, filled);
    set_balance(m, account, instrument, after.0);
}
