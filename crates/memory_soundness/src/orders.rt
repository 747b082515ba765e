// The open orders that a memory holds. One pass over the records asks what each order alone can tell; what is then still open is asked of
// all at once, and where that does not tell, record by record.
ghost use Rattle.std.specs.Prelude.{◌≡◌, ◌↔◌, true, ◌&&◌, IsTrue, MatchOption};
ghost use Rattle.ledger.specs.Records.{Packable, Within, order_at};
ghost use Rattle.memory_layout.specs.View.{open_orders};
ghost use Rattle.memory_soundness.specs.Soundness.{ascend, orders_sound};
ghost use Rattle.memory_soundness.specs.Each.{Each, InOrder, OutOfOrder, TotalFits, Marked, Stops, GoesOn};

use crate::held_desk::HeldDesk;
use book::Item;
use ledger::detail::Detail;
use ledger::order::Order;
use ledger::records::{Record, detail_of, id_of, order_of};

// What the pass tells of the records that it has passed, where their ids ascend and something remains of each order: the last id, and a
// detail with the bits of all.
#[derive(Clone, Copy)]
struct Pass {
    last: u64,
    details: Detail,
}

// The pass goes on over a record.
#[tactic(auto, using(crate::proofs::Passing::one_record))]
fn with_record(order: &Record, before: Pass) -> Option<Pass>
    ensures { MatchOption result (Stops before.last (order_at order.now 0))
        (λ pass. GoesOn before.last before.details.0 (order_at order.now 0) pass.last pass.details.0) }
{
    let id = id_of(order);
    let w = detail_of(order);
    if id <= before.last || w.remaining() == 0 {
        return None;
    }
    Some(Pass {
        last: id,
        details: before.details.with_bits_of(w),
    })
}

// The pass over all records, two at a turn, which is faster (docs/PERFORMANCE.md): a detail with the bits of all.
fn pass_over(m: &HeldDesk) -> Option<Detail>
    ensures { MatchOption result (OutOfOrder m.now) (λ details. InOrder m.now × Each m.now (Within details.0)) }
{
    let mut passed = Pass {
        last: 0,
        details: Detail(0),
    };
    let (pairs, rest) = m.records().as_chunks::<2>();
    for [first, second] in pairs {
        passed = with_record(second, with_record(first, passed)?)?;
    }
    if let Some(order) = rest.first() {
        passed = with_record(order, passed)?;
    }
    Some(passed.details)
}

// Is every total in range? All at once by the detail with the bits of all, and where that does not tell, one by one.
#[tactic(auto, using(ledger::proofs::Details::within_total))]
fn totals_fit(m: &HeldDesk, details: Detail) -> bool
    requires { Each m.now (Within details.0) }
    ensures { IsTrue result ↔ Each m.now TotalFits }
{
    if details.filled() + details.remaining() <= 1000000 {
        return true;
    }
    m.records()
        .iter()
        .all(|order| order_of(order).total <= 1000000)
}

// Are all accounts and instruments on the roster, and all accounts marked, that are not above those of a detail with the bits of all?
fn all_trade(m: &HeldDesk, details: Detail) -> bool
    ensures { result ≡ true → (o : Order) → Packable o.account o.instrument → Within details.0 o → Marked m.now o }
{
    let most = details.account();
    most <= m.memory.accounts()
        && details.instrument() <= m.memory.instruments()
        && (1..=most as usize).all(|a| m.account(a).is_trading())
}

// Are the order's account and instrument on the roster, and is the account marked as trading?
fn is_marked(m: &HeldDesk, o: Order) -> bool
    ensures { IsTrue result ↔ Marked m.now o }
{
    m.memory.account_known(o.account)
        && m.memory.item_known(Item::Instrument(o.instrument))
        && m.account(o.account as usize).is_trading()
}

// Is that so of every order? All at once by the detail with the bits of all, and where that does not tell, one by one.
#[tactic(auto, using(crate::proofs::Details::record_packable))]
fn all_marked(m: &HeldDesk, details: Detail) -> bool
    requires { Each m.now (Within details.0) }
    ensures { IsTrue result ↔ Each m.now (Marked m.now) }
{
    if all_trade(m, details) {
        return true;
    }
    m.records()
        .iter()
        .all(|order| is_marked(m, order_of(order)))
}

// Do the ids ascend and is each order sound?
pub fn orders_are_sound(m: &HeldDesk) -> bool
    ensures { result ≡ (ascend 0 (open_orders m.now) && orders_sound m.now) }
{
    match pass_over(m) {
        Some(details) => totals_fit(m, details) && all_marked(m, details),
        None => false,
    }
}
